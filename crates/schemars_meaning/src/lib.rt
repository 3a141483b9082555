//! The lemmas on documents: that what fills a shape's template says what the shape means, and that
//! the references of a document are those of its parts.
//!
//! There is no code here: the crates above rest on these lemmas, and no edit of theirs proves them
//! again.
#![tactic(auto)]
