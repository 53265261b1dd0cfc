//! Types that are constants.

ghost use Rattle.std.specs.Prelude.{◌≡◌, ℕ, List};
ghost use Rattle.std.specs.Option.{option_and_then};
ghost use Rattle.dh_syntax.specs.Expressions.SameTree.{builtin_eq};
ghost use Rattle.dh_syntax.specs.Expressions.Tree.{Name, Node, Row};
ghost use Rattle.dh_syntax.specs.Names.Nameless.{Ref};
ghost use Rattle.dh_syntax.specs.Typing.TypeViews.{is_constant};
ghost use Rattle.dh_syntax.specs.Typing.Universes.{as_universe, universe_named};
ghost use Rattle.dh_store.specs.Cells.{code_core, AreCoded};
ghost use Rattle.dh_types.specs.Constants.{as_builtin};

use crate::nodes::shown;
use dh_store::{CodeId, Codes};
use dh_syntax::{Builtin, Op};

fn builtin_in(op: &Op) -> Option<Builtin>
    ensures { (r : Row Ref Name) → result ≡ as_builtin (Node op.now r) }
{
    match op {
        Op::Builtin(builtin) => Some(*builtin),
        _ => None,
    }
}

/// The built-in that a code is.
pub fn builtin_of(codes: &Codes, id: CodeId) -> Option<Builtin>
    requires coded { AreCoded codes.now }
    ensures { result ≡ as_builtin (code_core codes.now id) }
{
    match shown(codes, id) {
        Some((op, _)) => builtin_in(op),
        None => None,
    }
}

/// Whether the two built-ins are equal.
fn is_same(b: Builtin, c: Builtin) -> bool
    ensures { result ≡ builtin_eq b c }
{
    b == c
}

/// Whether a code is the constant `builtin`.
pub fn is_constant(codes: &Codes, builtin: Builtin, id: CodeId) -> bool
    requires coded { AreCoded codes.now }
    ensures { result ≡ is_constant builtin (code_core codes.now id) }
{
    match builtin_of(codes, id) {
        Some(other) => is_same(builtin, other),
        None => false,
    }
}

fn universe_in(builtin: Builtin) -> Option<Builtin>
    ensures { result ≡ universe_named builtin }
{
    match builtin {
        Builtin::TypeConst | Builtin::Kind | Builtin::Sort => Some(builtin),
        _ => None,
    }
}

/// The universe that a code is.
pub fn universe_of(codes: &Codes, id: CodeId) -> Option<Builtin>
    requires coded { AreCoded codes.now }
    ensures { result ≡ as_universe (code_core codes.now id) }
{
    match builtin_of(codes, id) {
        Some(builtin) => universe_in(builtin),
        None => None,
    }
}
