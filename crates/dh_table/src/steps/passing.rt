//! Which values every text may read.

ghost use Rattle.std.specs.Prelude.{◌≡◌, is_none};
ghost use Rattle.dh_syntax.specs.Imports.Locations.{origin};
ghost use Rattle.dh_table.specs.Inside.Searching.{is_open_origin, is_open_value};

use dh_imports::{Origin, Outcome};
use dh_syntax::Loc;

/// Whether the outcome of a key at this location is a value that a text may read wherever it stands.
pub(crate) fn is_open_value(loc: &Loc, outcome: &Outcome) -> bool
    ensures { result ≡ is_open_value loc.now outcome.now }
{
    match outcome {
        Outcome::Good { value: _, origin } => is_open_origin(loc, origin),
        Outcome::Bad(_) => false,
    }
}

fn is_open_origin(loc: &Loc, origin: &Origin) -> bool
    ensures { result ≡ is_open_origin loc.now origin.now }
{
    match origin {
        Origin::Fetched(_) => has_no_origin(loc),
        Origin::Cached | Origin::Made => true,
    }
}

// Whether a location is not that of a URL.
fn has_no_origin(loc: &Loc) -> bool
    ensures { result ≡ is_none (origin loc.now) }
{
    match loc {
        Loc::Http(_) | Loc::Https(_) => false,
        Loc::Abs(_) | Loc::Here(_) | Loc::Parent(_) | Loc::Home(_) => true,
        Loc::Env(_) | Loc::Missing => true,
    }
}
