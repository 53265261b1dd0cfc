//! Locations of imports, and imports and keys with how they are read and the digest that they ask for.

ghost use Rattle.std.specs.Prelude.{◌≡◌, IfOk};

use crate::copies::copy_pieces;
use crate::lists::Many;
use crate::texts::Piece;
use std::alloc::{AllocError, Global};
use std::marker::Model;

/// The components of a path, the file last.
pub type Comps = Many<Piece>;

/// Where an import is found (`dhall.abnf`, "import-type").
#[derive(Debug)]
pub enum Loc {
    /// `/a/b`
    Abs(Comps),
    /// `./a/b`
    Here(Comps),
    /// `../a/b`
    Parent(Comps),
    /// `~/a/b`
    Home(Comps),
    /// `http://host/a/b?query`
    Http(Url),
    /// `https://host/a/b?query`
    Https(Url),
    /// `env:NAME`
    Env(Piece),
    /// `missing`
    Missing,
}

/// What follows `http://` or `https://`: the host with its port, the path's components, of which there is at
/// least one, and the text after `?`.
#[derive(Debug)]
pub struct Url {
    pub host: Piece,
    pub comps: Comps,
    pub query: Option<Piece>,
}

/// What an import makes of what it finds: an expression, `as Text`, or `as Location`.
#[derive(Clone, Copy, Debug, PartialEq, Eq)]
pub enum Mode {
    Code,
    Text,
    Location,
}

/// A SHA-256 digest, 32 bytes (FIPS 180-4).
#[derive(Clone, Copy, Debug, PartialEq, Eq)]
pub struct Digest(pub [u8; 32]);

/// An import as it is written: a location, how it is read, and the digest that its value must have.
#[derive(Debug)]
pub struct Import {
    pub loc: Loc,
    pub mode: Mode,
    pub digest: Option<Digest>,
}

/// What one run resolves once: a canonical location, how it is read, and the digest that its value must have.
#[derive(Debug)]
pub struct Key {
    pub loc: Loc,
    pub mode: Mode,
    pub digest: Option<Digest>,
}

/// An import in a box of its own, so that an operator is no larger than its other parts ask for.
#[derive(Debug)]
pub struct BoxedImport {
    held: Box<Import>,
}

impl Model for BoxedImport {
    ghost use Rattle.dh_syntax.specs.declared.locations.Import.{Import};

    ghost Value = { Import };

    ghost view = { λ b. b.held.value };
}

impl BoxedImport {
    pub fn new(alloc: Global, import: Import) -> Result<BoxedImport, AllocError>
        ensures { IfOk result (λ b. b ≡ import) }
    {
        let held = Box::new(alloc, import)?;
        Ok(BoxedImport { held })
    }

    pub fn get(&self) -> &Import
        ensures { result.now ≡ self.now }
    {
        &self.held
    }

    /// An equal import, in a box of its own.
    pub fn copied(&self, alloc: Global) -> Result<BoxedImport, AllocError>
        ensures { IfOk result (λ c. c ≡ self.now) }
    {
        BoxedImport::new(alloc, self.get().copied(alloc)?)
    }
}

impl Url {
    /// An equal URL.
    pub fn copied(&self, alloc: Global) -> Result<Url, AllocError>
        ensures { IfOk result (λ c. c ≡ self.now) }
    {
        let host = self.host.copied(alloc)?;
        let comps = copy_pieces(alloc, &self.comps)?;
        let query = match &self.query {
            Some(text) => Some(text.copied(alloc)?),
            None => None,
        };
        Ok(Url { host, comps, query })
    }
}

impl Loc {
    /// An equal location.
    pub fn copied(&self, alloc: Global) -> Result<Loc, AllocError>
        ensures { IfOk result (λ c. c ≡ self.now) }
    {
        match self {
            Loc::Abs(comps) => Ok(Loc::Abs(copy_pieces(alloc, comps)?)),
            Loc::Here(comps) => Ok(Loc::Here(copy_pieces(alloc, comps)?)),
            Loc::Parent(comps) => Ok(Loc::Parent(copy_pieces(alloc, comps)?)),
            Loc::Home(comps) => Ok(Loc::Home(copy_pieces(alloc, comps)?)),
            Loc::Http(url) => Ok(Loc::Http(url.copied(alloc)?)),
            Loc::Https(url) => Ok(Loc::Https(url.copied(alloc)?)),
            Loc::Env(name) => Ok(Loc::Env(name.copied(alloc)?)),
            Loc::Missing => Ok(Loc::Missing),
        }
    }
}

impl Import {
    /// An equal import.
    pub fn copied(&self, alloc: Global) -> Result<Import, AllocError>
        ensures { IfOk result (λ c. c ≡ self.now) }
    {
        let loc = self.loc.copied(alloc)?;
        Ok(Import {
            loc,
            mode: self.mode,
            digest: self.digest,
        })
    }
}

impl Key {
    /// An equal key.
    pub fn copied(&self, alloc: Global) -> Result<Key, AllocError>
        ensures { IfOk result (λ c. c ≡ self.now) }
    {
        let loc = self.loc.copied(alloc)?;
        Ok(Key {
            loc,
            mode: self.mode,
            digest: self.digest,
        })
    }
}

// Drops are written by hand here: a derived one puts every arm inline wherever a value may die, and a check of a function
// where many values may die took minutes.
impl Drop for Url {
    fn drop(self) {
        let Url {
            host: _,
            comps: _,
            query: _,
        } = self;
    }
}

impl Drop for Loc {
    fn drop(self) {
        match self {
            Loc::Abs(_) | Loc::Here(_) | Loc::Parent(_) | Loc::Home(_) => {}
            Loc::Http(_) | Loc::Https(_) => {}
            Loc::Env(_) | Loc::Missing => {}
        }
    }
}

impl Drop for Import {
    fn drop(self) {
        let Import {
            loc: _,
            mode: _,
            digest: _,
        } = self;
    }
}

impl Drop for BoxedImport {
    fn drop(self) {
        let BoxedImport { held: _ } = self;
    }
}

impl Drop for Key {
    fn drop(self) {
        let Key {
            loc: _,
            mode: _,
            digest: _,
        } = self;
    }
}
