//! The parts of a node, where none of those that are asked for stands under a binder.

ghost use Rattle.std.specs.Prelude.{◌≡◌, ◌<◌, ℕ, IfSome};
ghost use Rattle.std.specs.Option.{option_map};
ghost use Rattle.dh_syntax.specs.Expressions.Views.{first_two};
ghost use Rattle.dh_syntax.specs.Names.Nameless.{Core};
ghost use Rattle.dh_store.specs.Cells.{code_row, AreKidsBelow};

use dh_store::{CodeId, CodeKid};

/// The first two parts.
pub(crate) fn first_two(kids: &[CodeKid]) -> Option<(CodeId, CodeId)>
    ensures view { (f : ℕ → Core) → option_map (λ x. (f x.0, f x.1)) result ≡ first_two (code_row f kids.now) }
    ensures there { (n : ℕ) → AreKidsBelow n kids.now → IfSome result (λ x. (x.0 < n) × (x.1 < n)) }
{
    match kids {
        [left, right, ..] => {
            if left.binder.is_none() && right.binder.is_none() {
                Some((left.code, right.code))
            } else {
                None
            }
        }
        [_left] => None,
        [] => None,
    }
}
