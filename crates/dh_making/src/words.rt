//! Names and keys, as they are written.
ghost use Rattle.std.specs.Prelude.{◌≡◌, IfOk, option_map};
ghost use Rattle.dh_grammar.specs.Machine as machine;
ghost use Rattle.dh_grammar.specs.Machine.{name_of};
ghost use Rattle.dh_making.specs.Words.{word_of, key_of};
ghost use Rattle.dh_syntax.specs.declared.tokens.TokenKind.TheVariants as kinds;
ghost use Rattle.dh_syntax.specs.Text.Derivation.{name_label, key_label};

use dh_syntax::{Builtin, Keyword, Label, TokenKind};
use std::alloc::{AllocError, Global};

/// A name: one that is no keyword and no built-in name, or any between backticks (`nonreserved-label`).
#[derive(Debug, Drop)]
pub enum Word {
    Plain(Label),
    Quoted(Label),
}

/// A key: a name, or a built-in name or `Some`, taken as a label (`any-label-or-some`).
#[derive(Debug, Drop)]
pub enum EntryKey {
    Name(Word),
    Truth(bool),
    Builtin(Builtin),
    Some,
}

impl Word {
    /// The name that a token is, if it is one.
    pub fn of_token(kind: TokenKind) -> Option<Word>
        ensures { option_map word_of result ≡ name_of kind }
    {
        match kind {
            TokenKind::Name(label) => Some(Word::Plain(label)),
            TokenKind::Quoted(label) => Some(Word::Quoted(label)),
            TokenKind::Keyword(_) | TokenKind::Bool(_) | TokenKind::Builtin(_) => None,
            TokenKind::Natural(_) | TokenKind::Integer(_) => None,
            TokenKind::TextOpen(_) | TokenKind::TextPiece(_) | TokenKind::TextClose => None,
            TokenKind::InterpolationOpen | TokenKind::InterpolationClose => None,
            TokenKind::Path(_) | TokenKind::Url(_) | TokenKind::Environment(_) => None,
            TokenKind::Digest(_) | TokenKind::Mark(_) | TokenKind::End => None,
        }
    }

    pub fn label(&self) -> &Label
        ensures { result.now ≡ name_label (word_of self.now) }
    {
        match self {
            Word::Plain(label) => label,
            Word::Quoted(label) => label,
        }
    }

    pub fn into_label(self) -> Label
        ensures { result ≡ name_label (word_of self) }
    {
        match self {
            Word::Plain(label) => label,
            Word::Quoted(label) => label,
        }
    }
}

impl EntryKey {
    /// The key that a token is, if it is one.
    pub fn of_token(kind: TokenKind) -> Option<EntryKey>
        ensures { option_map key_of result ≡ machine.key_of kind }
    {
        match kind {
            TokenKind::Name(label) => Some(EntryKey::Name(Word::Plain(label))),
            TokenKind::Quoted(label) => Some(EntryKey::Name(Word::Quoted(label))),
            TokenKind::Bool(value) => Some(EntryKey::Truth(value)),
            TokenKind::Builtin(builtin) => Some(EntryKey::Builtin(builtin)),
            TokenKind::Keyword(keyword) => of_keyword(keyword),
            TokenKind::Natural(_) | TokenKind::Integer(_) => None,
            TokenKind::TextOpen(_) | TokenKind::TextPiece(_) | TokenKind::TextClose => None,
            TokenKind::InterpolationOpen | TokenKind::InterpolationClose => None,
            TokenKind::Path(_) | TokenKind::Url(_) | TokenKind::Environment(_) => None,
            TokenKind::Digest(_) | TokenKind::Mark(_) | TokenKind::End => None,
        }
    }

    /// The label, beside the key.
    pub fn copy_label(&self, alloc: Global) -> Result<Label, AllocError>
        ensures { IfOk result (λ l. l ≡ key_label (key_of self.now)) }
    {
        match self {
            EntryKey::Name(word) => word.label().copied(alloc),
            EntryKey::Truth(true) => Label::new(alloc, "True"),
            EntryKey::Truth(false) => Label::new(alloc, "False"),
            EntryKey::Builtin(builtin) => Label::new(alloc, builtin.name()),
            EntryKey::Some => Label::new(alloc, "Some"),
        }
    }

    pub fn into_label(self, alloc: Global) -> Result<Label, AllocError>
        ensures { IfOk result (λ l. l ≡ key_label (key_of self)) }
    {
        match self {
            EntryKey::Name(word) => Ok(word.into_label()),
            EntryKey::Truth(true) => Label::new(alloc, "True"),
            EntryKey::Truth(false) => Label::new(alloc, "False"),
            EntryKey::Builtin(builtin) => Label::new(alloc, builtin.name()),
            EntryKey::Some => Label::new(alloc, "Some"),
        }
    }
}

fn of_keyword(keyword: Keyword) -> Option<EntryKey>
    ensures { option_map key_of result ≡ machine.key_of (kinds.Keyword keyword) }
{
    match keyword {
        Keyword::Some => Some(EntryKey::Some),
        Keyword::If | Keyword::Then | Keyword::Else | Keyword::Let | Keyword::In => None,
        Keyword::Missing | Keyword::Assert | Keyword::As | Keyword::Merge => None,
        Keyword::ToMap | Keyword::With => None,
    }
}
