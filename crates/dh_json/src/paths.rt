//! Places without a JSON value, seen from the nodes above them.

ghost use Rattle.std.specs.Prelude.{◌≡◌, ◌∷◌, IfOk};
ghost use Rattle.dh_json.specs.Inside.{IsAbove};

use crate::faults::JsonFault;
use dh_syntax::{Many, Path};
use std::alloc::AllocError;

/// The place that has no value, seen from the node above it.
pub(crate) fn above(i: usize, fault: JsonFault) -> JsonFault
    ensures { IsAbove i fault result }
{
    match fault {
        JsonFault::NoValue(path) => match under(i, path) {
            Ok(path) => JsonFault::NoValue(path),
            Err(_) => JsonFault::Memory,
        },
        JsonFault::Memory => JsonFault::Memory,
    }
}

/// A path with the number of a part in front.
fn under(i: usize, path: Path) -> Result<Path, AllocError>
    ensures { IfOk result (λ p. p ≡ i ∷ path) }
{
    let Ok(number) = u32::try_from(i) else {
        return Err(AllocError);
    };
    let mut steps = path.into_vec();
    steps.insert(0, number)?;
    Ok(Many::of(steps))
}
