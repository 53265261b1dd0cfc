//! Imports in the binary form.

ghost use Rattle.std.specs.Prelude.{◌≡◌, ◌<◌, ◌^◌, ◌++◌, ◌∷◌, [], map, length, OnOk};
ghost use Rattle.std.specs.List.{concat};
ghost use Rattle.dh_syntax.specs.Bytes.Cbor.{head, natural, null, text};
ghost use Rattle.dh_syntax.specs.Bytes.Binary.{digest_item, mode_code, optional_text, loc_items, import_item};

use crate::writer::Writer;
use dh_syntax::{Comps, Digest, Import, Loc, Mode, Piece, Url};
use std::alloc::AllocError;

impl Writer {
    /// An import: its digest, its mode, its scheme, and what the scheme goes on with.
    pub(crate) fn push_import(&mut self, import: &Import) -> Result<(), AllocError>
        ensures { OnOk result (self.new ≡ self.old ++ import_item import.now) }
    {
        self.push_head(4, 3 + count_of(&import.loc))?;
        self.push_code(24)?;
        self.push_digest(&import.digest)?;
        self.push_mode(import.mode)?;
        self.push_location(&import.loc)
    }

    /// A digest as a multihash of SHA-256: two bytes that name the hash and its length, and the 32 bytes.
    fn push_digest(&mut self, digest: &Option<Digest>) -> Result<(), AllocError>
        ensures { OnOk result (self.new ≡ self.old ++ digest_item digest.now) }
    {
        match digest {
            Some(digest) => {
                self.push_head(2, 34)?;
                self.push_raw(&[0x12, 0x20])?;
                self.push_raw(&digest.0)
            }
            None => self.push_null(),
        }
    }

    /// The code of what an import makes of what it finds.
    fn push_mode(&mut self, mode: Mode) -> Result<(), AllocError>
        ensures { OnOk result (self.new ≡ self.old ++ natural (mode_code mode)) }
    {
        self.push_code(code_of(mode))
    }

    fn push_location(&mut self, loc: &Loc) -> Result<(), AllocError>
        ensures { OnOk result (self.new ≡ self.old ++ concat (loc_items loc.now)) }
    {
        match loc {
            Loc::Http(url) => self.push_url(0, url),
            Loc::Https(url) => self.push_url(1, url),
            Loc::Abs(comps) => self.push_path(2, comps),
            Loc::Here(comps) => self.push_path(3, comps),
            Loc::Parent(comps) => self.push_path(4, comps),
            Loc::Home(comps) => self.push_path(5, comps),
            Loc::Env(name) => {
                self.push_code(6)?;
                self.push_text(name.as_str())
            }
            Loc::Missing => self.push_code(7),
        }
    }

    /// A scheme, null for the headers, the host, the components and the query.
    fn push_url(&mut self, scheme: u32, url: &Url) -> Result<(), AllocError>
        ensures { OnOk result (self.new ≡ self.old ++ concat (head 0 scheme ∷ null ∷ text url.now.host ∷ map text url.now.comps ++ optional_text url.now.query ∷ [])) }
    {
        self.push_code(scheme)?;
        self.push_null()?;
        self.push_text(url.host.as_str())?;
        self.push_pieces(url.comps.as_slice())?;
        match &url.query {
            Some(query) => self.push_text(query.as_str()),
            None => self.push_null(),
        }
    }

    /// A scheme and the components.
    fn push_path(&mut self, scheme: u32, comps: &Comps) -> Result<(), AllocError>
        ensures { OnOk result (self.new ≡ self.old ++ concat (head 0 scheme ∷ map text comps.now)) }
    {
        self.push_code(scheme)?;
        self.push_pieces(comps.as_slice())
    }

    /// Pieces of text, one after the other.
    fn push_pieces(&mut self, pieces: &[Piece]) -> Result<(), AllocError>
        ensures { OnOk result (self.new ≡ self.old ++ concat (map text pieces.now)) }
    {
        for piece in pieces {
            self.push_text(piece.as_str())?;
        }
        Ok(())
    }
}

/// The code of what an import makes of what it finds.
fn code_of(mode: Mode) -> u32
    ensures { result ≡ mode_code mode }
{
    match mode {
        Mode::Code => 0,
        Mode::Text => 1,
        Mode::Location => 2,
    }
}

/// How many items a location has, its scheme among them.
fn count_of(loc: &Loc) -> u64
    ensures count { result ≡ length (loc_items loc.now) }
    ensures few { result < 2 ^ 63 }
{
    match loc {
        Loc::Http(url) | Loc::Https(url) => 4 + url.comps.as_slice().len() as u64,
        Loc::Abs(comps) | Loc::Here(comps) | Loc::Parent(comps) | Loc::Home(comps) => 1
            + comps.as_slice().len() as u64,
        Loc::Env(_) => 2,
        Loc::Missing => 1,
    }
}
