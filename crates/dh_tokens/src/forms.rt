//! What stands at one place of a text.
use dh_syntax::TokenKind;

/// What a form is.
#[derive(Debug)]
pub enum Found {
    /// White space or a comment.
    White,
    /// A line that begins with `#!`, at the start of the text.
    SkippedLine,
    Is(TokenKind),
    /// A form of the standard that is left out.
    LeftOut,
    /// A number beyond its range.
    TooWide,
    /// A character that cannot stand where it does, so many bytes further on.
    Faulty(usize),
    /// A comment that is not closed.
    Unclosed,
}

/// A form at the front of the bytes, and how many of them it takes.
#[derive(Debug, Drop)]
pub struct Form {
    pub found: Found,
    pub len: usize,
}

impl Drop for Found {
    fn drop(self) {
        match self {
            Found::White | Found::SkippedLine => {}
            Found::Is(_) => {}
            Found::LeftOut | Found::TooWide => {}
            Found::Faulty(_) | Found::Unclosed => {}
        }
    }
}
