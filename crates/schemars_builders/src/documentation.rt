//! Titles and descriptions in documentation.
ghost use Rattle.std.specs.Prelude.{◌≡◌};
ghost use Rattle.schemars_builders.specs.Documentation.{trimmed, without_marks, title_in, description_in};

/// Splits a documentation text into a title and a description.
///
/// If the text begins with `#`, its first line without the leading `#`s is the title, and the rest
/// the description. Any other text is a description, and its title is empty. ASCII white space at
/// the ends of the text and of both parts is removed.
pub fn get_title_and_description(doc: &str) -> (&str, &str)
    ensures title { result.0.now ≡ title_in doc.now }
    ensures description { result.1.now ≡ description_in doc.now }
{
    let text = doc.trim_ascii();
    if !text.starts_with('#') {
        return ("", text);
    }
    match text.split_once('\n') {
        Some((heading, rest)) => (title(heading), rest.trim_ascii()),
        None => (title(text), ""),
    }
}

fn title(heading: &str) -> &str
    ensures { result.now ≡ trimmed (without_marks heading.now) }
{
    heading.trim_start_matches('#').trim_ascii()
}
