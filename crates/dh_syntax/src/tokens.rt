//! Tokens, as a text is read and before it is parsed.

use crate::locations::{Digest, Loc};
use crate::operators::{BinOp, Builtin};
use crate::texts::{Label, Piece};

/// A token: what it is, the bytes from `from` to `to` that spell it, and whether white space stands before it.
/// The first token of a text has a gap.
#[derive(Debug, Drop)]
pub struct Token {
    pub kind: TokenKind,
    pub from: u32,
    pub to: u32,
    pub gap: bool,
}

/// What a token is, with the value read (`dhall.abnf`, from "end-of-line" to "import-hashed").
#[derive(Debug, Drop)]
pub enum TokenKind {
    /// A name that is no keyword and no built-in name.
    Name(Label),
    /// A label between backticks.
    Quoted(Label),
    Keyword(Keyword),
    /// `True` or `False`.
    Bool(bool),
    Builtin(Builtin),
    Natural(u128),
    Integer(i128),
    /// The opening of a text literal: `"`, or `''` with its line end.
    TextOpen(TextForm),
    /// The characters up to the next interpolation or the closing, with their escapes read and each line end as a
    /// line feed; a multi-line text still has its indentation. Where no character stands there is no such token.
    TextPiece(Piece),
    /// `${`
    InterpolationOpen,
    /// The `}` that ends an interpolation.
    InterpolationClose,
    TextClose,
    /// A path as it is written, not made canonical: `Abs`, `Here`, `Parent` or `Home`.
    Path(Loc),
    /// A URL as it is written: `Http` or `Https`.
    Url(Loc),
    /// The name of an environment variable.
    Environment(Piece),
    Digest(Digest),
    Mark(Mark),
    /// The end of the text.
    End,
}

/// The two forms of text literal.
#[derive(Clone, Copy, Debug, PartialEq, Eq)]
pub enum TextForm {
    DoubleQuoted,
    MultiLine,
}

/// The names that the grammar keeps for itself, `forall` apart, which is a mark.
#[derive(Clone, Copy, Debug, PartialEq, Eq)]
pub enum Keyword {
    If,
    Then,
    Else,
    Let,
    In,
    Missing,
    Assert,
    As,
    Merge,
    Some,
    ToMap,
    With,
}

/// The marks. The two spellings of one mark, as `\` and `λ`, are one.
#[derive(Clone, Copy, Debug, PartialEq, Eq)]
pub enum Mark {
    ParenOpen,
    ParenClose,
    BracketOpen,
    BracketClose,
    BraceOpen,
    BraceClose,
    AngleOpen,
    AngleClose,
    Comma,
    Dot,
    Colon,
    /// `=`
    Equals,
    At,
    Bar,
    Arrow,
    Lambda,
    Forall,
    /// The mark of an operator, `::` and `?` among them.
    Operator(BinOp),
}
