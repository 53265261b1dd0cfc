//! The texts of a table as they were found, for telling where a fault stands in one, and the digests for the root.

ghost use Rattle.std.specs.Prelude.{◌≡◌, List, ℕ, Option, Some, Ok, IfOk, true};
ghost use Rattle.std.specs.Option.{option_copied};
ghost use Rattle.dh_syntax.specs.Expressions.Tree.{Term};
ghost use Rattle.dh_imports.specs.Freezing.{digests_behind};
ghost use Rattle.dh_imports.specs.Machine.{outcome_of};
ghost use Rattle.dh_imports.specs.Records.{Found, text_at};
ghost use Rattle.dh_imports.specs.TextPaths.{text_path};
ghost use Rattle.dh_demand.specs.Scans.{text_key};
ghost use Rattle.dh_record.specs.Finds.{bytes_found, path_found};
ghost use Rattle.dh_table.specs.States.{record_of, state_of};

use crate::tables::Table;
use dh_demand::{keys_behind, text_path};
use dh_ports::{Got, World};
use dh_record::{Noted, Texts, digests_of, text_at};
use dh_syntax::{Digest, Loc};
use std::alloc::{AllocError, Global};

impl<W: World> Table<W> {
    /// The bytes that were found at a location, where a text was found there.
    pub fn bytes_at(&self, loc: &Loc) -> Option<&[u8]>
        ensures exact { option_copied result ≡ bytes_found (text_at (record_of self.now) loc.now) }
        ensures found { (bytes : List ℕ) (allow : Option (List ℕ)) (e : Term) → text_at (record_of self.now) loc.now ≡ Some (Found bytes allow (Ok e)) → option_copied result ≡ Some bytes }
    {
        let texts = Texts::of(self.texts.as_slice(), &self.text_order);
        let text = text_at(&texts, loc)?;
        match (&text.got, &text.read) {
            (Noted::Got(Got::Found(found)), Some(_)) => Some(found.bytes.as_slice()),
            (Noted::Got(Got::Found(_)), None) => None,
            (Noted::Got(Got::Absent) | Noted::Got(Got::Broken(_)) | Noted::Failed, _) => None,
        }
    }

    /// The path in the root of the node to which a path leads in the root with its values.
    pub fn root_path(&self, alloc: Global, path: &[u32]) -> Result<Vec<u32>, AllocError>
        ensures { IfOk result (λ p. p.items ≡ text_path None (outcome_of (state_of self.now)) (state_of self.now).root path.now) }
    {
        text_path(alloc, &self.root, None, self, path)
    }

    /// For each import of the root, in the order of the nodes, the digest to write behind it when the root is frozen.
    pub fn root_digests(&self, alloc: Global) -> Result<Vec<Option<Digest>>, AllocError>
        ensures { IfOk result (λ ds. ds.items ≡ digests_behind (outcome_of (state_of self.now)) true (state_of self.now).root) }
    {
        let keys = keys_behind(alloc, &self.root, self)?;
        digests_of(alloc, &self.keys, keys.as_slice())
    }

    /// The path in the text at a location of the node to which a path leads in the text with its values. It is empty where no text
    /// that spells an expression was found there.
    pub fn path_at(&self, alloc: Global, loc: &Loc, path: &[u32]) -> Result<Vec<u32>, AllocError>
        ensures exact { IfOk result (λ p. p.items ≡ path_found (λ e. text_path (text_key (Some loc.now)) (outcome_of (state_of self.now)) e path.now) (text_at (record_of self.now) loc.now)) }
        ensures found { IfOk result (λ p. (bytes : List ℕ) (allow : Option (List ℕ)) (e : Term) → text_at (record_of self.now) loc.now ≡ Some (Found bytes allow (Ok e))
            → p.items ≡ text_path (text_key (Some loc.now)) (outcome_of (state_of self.now)) e path.now) }
    {
        let texts = Texts::of(self.texts.as_slice(), &self.text_order);
        let Some(text) = text_at(&texts, loc) else {
            return Ok(Vec::new(alloc));
        };
        match (&text.got, &text.read) {
            (Noted::Got(Got::Found(_found)), Some(Ok(scan))) => {
                text_path(alloc, scan, Some(loc), self, path)
            }
            (Noted::Got(Got::Found(_)), Some(Err(_)) | None) => Ok(Vec::new(alloc)),
            (Noted::Got(Got::Absent) | Noted::Got(Got::Broken(_)) | Noted::Failed, _) => {
                Ok(Vec::new(alloc))
            }
        }
    }
}
