//! Whether an annotation is the constant `Sort`, which has no type.

ghost use Rattle.std.specs.Prelude.{◌≡◌, ◌<◌, ℕ};
ghost use Rattle.dh_syntax.specs.declared.operators.Builtin.TheVariants.{Sort};
ghost use Rattle.dh_syntax.specs.Names.Nameless.{Core};
ghost use Rattle.dh_syntax.specs.Typing.TypeViews.{is_constant as is_constant_of};
ghost use Rattle.dh_store.specs.Cells.{AreCoded};
ghost use Rattle.dh_store.specs.Growth.{count};
ghost use Rattle.dh_infer.specs.Inside.Scopes.{in_scope, AreEntriesThere, Models};

use crate::forms::{Form, form_of};
use crate::frames::Entry;
use crate::piles::Pile;
use dh_store::{CodeId, Codes};
use dh_syntax::Builtin;
use dh_types::is_constant;

/// Whether a code in the scope is the constant `Sort`.
pub(crate) fn is_sort(codes: &Codes, scope: &Pile<Entry>, code: CodeId) -> bool
    requires coded { AreCoded codes.now }
    requires entries { AreEntriesThere (count codes.now) scope.now }
    requires there { code < count codes.now }
    ensures { (g : ℕ → Core) → Models codes.now g → is_constant_of Sort (in_scope g scope.now code) ≡ result }
{
    match form_of(codes, code) {
        Form::Bound(index) => match scope.get(index as usize) {
            Some(entry) => is_constant(codes, Builtin::Sort, entry.value),
            None => false,
        },
        Form::Builtin(_) => is_constant(codes, Builtin::Sort, code),
        _ => false,
    }
}
