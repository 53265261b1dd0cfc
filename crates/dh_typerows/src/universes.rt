//! Record types and unions, whose parts have types that must be universes.

ghost use Rattle.std.specs.Prelude.{◌≡◌, map};
ghost use Rattle.dh_syntax.specs.Names.Nameless.{Core};
ghost use Rattle.dh_syntax.specs.Typing.TypeRules.{Rule, rule_number};
ghost use Rattle.dh_syntax.specs.Typing.TypeRulesRecords.{greatest_of};
ghost use Rattle.dh_syntax.specs.Typing.Universes.{greater, rank};
ghost use Rattle.dh_store.specs.Cells.{code_core, AreCoded};
ghost use Rattle.dh_store.specs.Growth.{count};
ghost use Rattle.dh_types.specs.Following.{follow, Facts};
ghost use Rattle.dh_typerows.specs.Drafts.{draft_of, IsDraftBelow};
ghost use Rattle.dh_typerows.specs.Greatest.{greatest_type, with_greatest};

use crate::drafts::Draft;
use dh_store::{CodeId, Codes};
use dh_syntax::Builtin;
use dh_types::universe_of;

/// Type is below Kind, and Kind below Sort.
fn rank(universe: Builtin) -> u8
    ensures { result ≡ rank universe }
{
    match universe {
        Builtin::Kind => 1,
        Builtin::Sort => 2,
        _ => 0,
    }
}

/// The greater of two universes.
pub(crate) fn greater(c: Builtin, d: Builtin) -> Builtin
    ensures { result ≡ greater c d }
{
    if rank(c) < rank(d) { d } else { c }
}

/// The greater of two universes, where both are one.
fn with_greatest(c: Option<Builtin>, d: Option<Builtin>) -> Option<Builtin>
    ensures { result ≡ with_greatest c d }
{
    match (c, d) {
        (Some(c), Some(d)) => Some(greater(c, d)),
        (Some(_), None) => None,
        (None, Some(_)) => None,
        (None, None) => None,
    }
}

/// The greatest of the universes that these types are, Type where there is none; none where one of them is no universe.
fn greatest_type(codes: &Codes, types: &[CodeId]) -> Option<Builtin>
    requires coded { AreCoded codes.now }
    ensures { result ≡ greatest_type (map (code_core codes.now) types.now) }
{
    let mut i = types.len();
    let mut greatest = Some(Builtin::TypeConst);
    while i > 0 {
        i -= 1;
        greatest = with_greatest(universe_of(codes, types[i]), greatest);
    }
    greatest
}

/// `{ x : t, .. }` and `< A | B : t >`, whose parts have these types; the rule fails that has this number.
pub(crate) fn greatest_of(codes: &Codes, number: u8, types: &[CodeId]) -> Draft
    requires coded { AreCoded codes.now }
    ensures rule { (facts : Facts Core) (rule : Rule) → rule_number rule ≡ number → draft_of (code_core codes.now) result ≡ follow facts (greatest_of rule (map (code_core codes.now) types.now)) }
    ensures there { IsDraftBelow (count codes.now) result }
{
    match greatest_type(codes, types) {
        Some(universe) => Draft::TakesConstant(universe),
        None => Draft::Refuses(number),
    }
}
