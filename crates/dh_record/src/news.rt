//! What workers bring.

ghost use Rattle.std.specs.Prelude.{◌≡◌};
ghost use Rattle.dh_record.specs.Brought.{imports_of, read_of};

use crate::entries::Seen;
use crate::items::Done;
use dh_demand::{Edges, Scan};
use dh_ports::Got;
use dh_syntax::{Digest, Expr, Key, Loc, Many, ParseFault};

/// What was found at a location, or that the device failed.
#[derive(Debug, Drop)]
pub enum Noted {
    Got(Got),
    Failed,
}

/// What found bytes parse to, with the chained key of each import in the tree's order.
#[derive(Debug, Drop)]
pub enum Parsed {
    Good { expr: Expr, keys: Many<Key> },
    Bad(ParseFault),
}

/// What a worker brings.
#[derive(Debug, Drop)]
pub enum News {
    /// `scan` is there exactly where bytes were found.
    Fetched {
        loc: Loc,
        got: Noted,
        scan: Option<Parsed>,
    },
    Looked {
        digest: Digest,
        look: Seen,
    },
    Finished(Done),
}

/// The keys of the imports of a text.
pub fn imports_of(scan: &Option<Parsed>) -> &[Key]
    ensures { result.now ≡ imports_of scan.now }
{
    match scan {
        Some(Parsed::Good { expr: _, keys }) => keys.as_slice(),
        Some(Parsed::Bad(_)) | None => &[],
    }
}

/// A text with the edges of its imports.
pub fn read_of(scan: Option<Parsed>, edges: Edges) -> Option<Result<Scan, ParseFault>>
    ensures { result ≡ read_of scan edges }
{
    match scan {
        Some(Parsed::Good { expr, keys: _ }) => Some(Ok(Scan { expr, edges })),
        Some(Parsed::Bad(fault)) => Some(Err(fault)),
        None => None,
    }
}
