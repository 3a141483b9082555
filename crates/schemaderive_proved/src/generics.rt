//! Types with parameters, and types that contain each other.

// derive(JsonSchema)
// serde(tag = "kind", content = "data")
pub enum Message<T, E> {
    Good(T),
    Bad(E),
}

// derive(JsonSchema)
#[cycle(books)]
pub struct Author {
    name: String,
    books: Vec<Book>,
}

// derive(JsonSchema)
#[cycle(books)]
pub struct Book {
    title: String,
    author: Option<Box<Author>>,
}

/// All of them.
// derive(JsonSchema)
pub struct All {
    first: Message<u8, String>,
    second: Message<Vec<u8>, ()>,
    author: Author,
    book: Book,
}
