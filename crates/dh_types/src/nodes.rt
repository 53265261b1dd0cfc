//! What is shown of a code: the operator of a node, and its parts.

ghost use Rattle.std.specs.Prelude.{MatchOption};
ghost use Rattle.dh_store.specs.Cells.{code_core, AreCoded};
ghost use Rattle.dh_types.specs.Shown.{IsLeaf, IsNode};
ghost use Rattle.dh_types.specs.SeenCodes.{IsSeen};

use dh_store::{Code, CodeId, CodeKid, Codes};
use dh_syntax::{Label, Op};

/// The operator and the parts of a code that is a node.
pub fn shown(codes: &Codes, id: CodeId) -> Option<(&Op, &[CodeKid])>
    requires coded { AreCoded codes.now }
    ensures { MatchOption result (IsLeaf (code_core codes.now id)) (λ x. IsNode codes.now id x.0.now x.1.now) }
{
    match codes.get(id) {
        Some(Code::Node(op, kids)) => Some((op, kids.as_slice())),
        Some(Code::Bound(_)) => None,
        Some(Code::Free(_, _)) => None,
        None => None,
    }
}

/// What a code is.
pub(crate) enum Seen<'a> {
    /// The variable of the binder so many above the nearest one.
    Bound(u32),
    /// A variable that no binder binds.
    Free(&'a Label, u32),
    Node(&'a Op, &'a [CodeKid]),
}

/// What a code is.
pub(crate) fn form_of(codes: &Codes, id: CodeId) -> Seen<'_>
    requires coded { AreCoded codes.now }
    ensures { IsSeen codes.now id result }
{
    match codes.get(id) {
        Some(Code::Node(op, kids)) => Seen::Node(op, kids.as_slice()),
        Some(Code::Free(label, index)) => Seen::Free(label, *index),
        Some(Code::Bound(index)) => Seen::Bound(*index),
        None => Seen::Bound(0),
    }
}
