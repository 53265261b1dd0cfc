//! Labels, pieces of text and bytes.

ghost use Rattle.std.specs.Prelude.{◌≡◌, [], length, string_bytes, string_len, IfOk};
ghost use Rattle.std.specs.Str.{IsUtf8};

use std::alloc::{AllocError, Global};
use std::marker::Model;

/// The name of a variable, a field or an alternative, seen as its UTF-8 bytes.
#[derive(Debug, Drop)]
pub struct Label {
    text: String,
}

impl Model for Label {
    ghost use Rattle.std.specs.Prelude.{List, ℕ, string_bytes};

    ghost Value = { List ℕ };

    ghost view = { λ t. string_bytes t.text };
}

impl Label {
    pub fn new(alloc: Global, text: &str) -> Result<Label, AllocError>
        ensures { IfOk result (λ t. t ≡ text.now) }
    {
        let text = String::from_str(alloc, text)?;
        Ok(Label { text })
    }

    pub fn as_str(&self) -> &str
        ensures { result.now ≡ self.now }
    {
        self.text.as_str()
    }

    /// An equal label.
    pub fn copied(&self, alloc: Global) -> Result<Label, AllocError>
        ensures { IfOk result (λ t. t ≡ self.now) }
    {
        Label::new(alloc, self.as_str())
    }
}

/// A stretch of text, a path component, a host, a query or the name of an environment variable, seen as its
/// UTF-8 bytes.
#[derive(Debug, Drop)]
pub struct Piece {
    text: String,
}

impl Model for Piece {
    ghost use Rattle.std.specs.Prelude.{List, ℕ, string_bytes};

    ghost Value = { List ℕ };

    ghost view = { λ t. string_bytes t.text };
}

impl Piece {
    pub fn new(alloc: Global, text: &str) -> Result<Piece, AllocError>
        ensures { IfOk result (λ t. t ≡ text.now) }
    {
        let text = String::from_str(alloc, text)?;
        Ok(Piece { text })
    }

    /// The piece that has this text.
    pub fn of(text: String) -> Piece
        ensures { result ≡ string_bytes text }
    {
        Piece { text }
    }

    /// Its text, which is not copied.
    pub fn into_string(self) -> String
        ensures { string_bytes result ≡ self }
    {
        self.text
    }

    pub fn as_str(&self) -> &str
        ensures { result.now ≡ self.now }
    {
        self.text.as_str()
    }

    /// An equal piece.
    pub fn copied(&self, alloc: Global) -> Result<Piece, AllocError>
        ensures { IfOk result (λ t. t ≡ self.now) }
    {
        Piece::new(alloc, self.as_str())
    }
}

/// Bytes that need not be text.
#[derive(Debug, Drop)]
pub struct Bytes {
    bytes: Vec<u8>,
}

impl Model for Bytes {
    ghost use Rattle.std.specs.Prelude.{List, ℕ};

    ghost Value = { List ℕ };

    ghost view = { λ b. b.bytes.items };
}

impl Bytes {
    pub fn of(bytes: Vec<u8>) -> Bytes
        ensures { result ≡ bytes.items }
    {
        Bytes { bytes }
    }

    /// Its bytes, which are not copied.
    pub fn into_vec(self) -> Vec<u8>
        ensures { result.items ≡ self }
    {
        self.bytes
    }

    pub fn as_slice(&self) -> &[u8]
        ensures { result.now ≡ self.now }
    {
        self.bytes.as_slice()
    }

    /// Equal bytes.
    pub fn copied(&self, alloc: Global) -> Result<Bytes, AllocError>
        ensures { IfOk result (λ b. b ≡ self.now) }
    {
        let bytes = Vec::from_slice(alloc, self.as_slice())?;
        Ok(Bytes { bytes })
    }
}
