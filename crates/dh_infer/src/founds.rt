//! What is known of the parts of a node, and one thing more.

ghost use Rattle.std.specs.Prelude.{◌≡◌};
ghost use Rattle.dh_infer.specs.Inside.Rests.{with_normal, with_universe};

use dh_store::CodeId;
use dh_syntax::Builtin;
use dh_types::Found;

/// What is known, and the universe that the type of this part is in, if it is in one.
pub(crate) fn with_universe(found: Found, part: u32, universe: Option<Builtin>) -> Found
    ensures { result ≡ with_universe found part universe }
{
    match part {
        0 => Found {
            first_universe: Some(universe),
            ..found
        },
        1 => Found {
            second_universe: Some(universe),
            ..found
        },
        _ => found,
    }
}

/// What is known, and the normal form of this part.
pub(crate) fn with_normal(found: Found, part: u32, normal: CodeId) -> Found
    ensures { result ≡ with_normal found part normal }
{
    match part {
        0 => Found {
            first: Some(normal),
            ..found
        },
        1 => Found {
            second: Some(normal),
            ..found
        },
        2 => Found {
            third: Some(normal),
            ..found
        },
        _ => found,
    }
}
