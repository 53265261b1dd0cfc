//! What is kept is read back, for telling what came of a key.

ghost use Rattle.std.specs.Prelude.{◌≡◌, ◌<◌, ℕ, List, Option, Some, Ok, IfOk, IfSome, length};
ghost use Rattle.std.specs.Option.{option_copied, option_map};
ghost use Rattle.dh_demand.specs.Results.{ask_of};
ghost use Rattle.dh_demand.specs.Scans.{text_key};
ghost use Rattle.dh_imports.specs.Outcomes.{plain};
ghost use Rattle.dh_imports.specs.Records.{Found, text_at};
ghost use Rattle.dh_imports.specs.TextPaths.{text_path};
ghost use Rattle.dh_record.specs.Rows.{key_named, rows_of};
ghost use Rattle.dh_record.specs.Values.{HasValue};
ghost use Rattle.dh_syntax.specs.Expressions.Tree.{Term};
ghost use Rattle.dh_watch_laws.specs.Kept.{known};
ghost use Rattle.dh_watch_rows.specs.KeptRows.{IsGood, kept_of};

use crate::rows::Rows;
use dh_demand::{Results, text_path};
use dh_imports::Outcome;
use dh_ports::Got;
use dh_record::{Noted, text_at};
use dh_syntax::Loc;
use std::alloc::{AllocError, Global};

impl Rows {
    /// The outcome of the key of this number, where it has one.
    pub fn outcome(&self, n: u32) -> Option<&Outcome>
        requires good { IsGood self.now }
        requires inside { n < length self.now.keys }
        ensures known { option_map plain (option_copied result) ≡ known (kept_of self.now).outcomes (key_named self.now.keys n) }
        ensures value { IfSome (option_copied result) HasValue }
    {
        self.keys.outcome(n)
    }

    /// The bytes of the text at a location, where one that spells an expression is kept.
    pub fn bytes_at(&self, loc: &Loc) -> Option<&[u8]>
        requires { IsGood self.now }
        ensures { (bytes : List ℕ) (allow : Option (List ℕ)) (e : Term) → text_at (kept_of self.now).recorded loc.now ≡ Some (Found bytes allow (Ok e))
            → option_copied result ≡ Some bytes }
    {
        let texts = self.found_texts();
        let text = text_at(&texts, loc)?;
        match (&text.got, &text.read) {
            (Noted::Got(Got::Found(found)), Some(_)) => Some(found.bytes.as_slice()),
            (Noted::Got(Got::Found(_)), None) => None,
            (Noted::Got(Got::Absent) | Noted::Got(Got::Broken(_)) | Noted::Failed, _) => None,
        }
    }

    /// The path in the text at a location of the node to which a path leads in the text with its values. It is empty where no text
    /// that spells an expression is kept there.
    pub fn path_at(&self, alloc: Global, loc: &Loc, path: &[u32]) -> Result<Vec<u32>, AllocError>
        requires { IsGood self.now }
        ensures { IfOk result (λ p. (bytes : List ℕ) (allow : Option (List ℕ)) (e : Term) → text_at (kept_of self.now).recorded loc.now ≡ Some (Found bytes allow (Ok e))
            → p.items ≡ text_path (text_key (Some loc.now)) (ask_of (rows_of self.now.keys)) e path.now) }
    {
        let texts = self.found_texts();
        let Some(text) = text_at(&texts, loc) else {
            return Ok(Vec::new(alloc));
        };
        match (&text.got, &text.read) {
            (Noted::Got(Got::Found(_found)), Some(Ok(scan))) => {
                text_path(alloc, scan, Some(loc), &self.keys, path)
            }
            (Noted::Got(Got::Found(_)), Some(Err(_)) | None) => Ok(Vec::new(alloc)),
            (Noted::Got(Got::Absent) | Noted::Got(Got::Broken(_)) | Noted::Failed, _) => {
                Ok(Vec::new(alloc))
            }
        }
    }
}
