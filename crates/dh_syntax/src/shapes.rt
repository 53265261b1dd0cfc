//! How deep an expression nests, and whether each of its nodes has its parts.

ghost use Rattle.std.specs.Prelude.{◌≡◌, ◌↔◌, ◌-◌, ◌^◌, ◌&&◌, IsTrue, length, min, is_none, count_by};
ghost use Rattle.std.specs.List.{list_all};
ghost use Rattle.dh_syntax.specs.Expressions.Bridge.{term, row_of};
ghost use Rattle.dh_syntax.specs.Expressions.Arity.{plain, binding, some_plain, between, alt_labels, typed_count, fits, loc_fits, IsWellFormed, AreWellFormed};
ghost use Rattle.dh_syntax.specs.Expressions.Nesting.{nesting, parts_nesting};
ghost use Rattle.dh_syntax.specs.Expressions.Order.{before, ascending};

use crate::expressions::{Alt, Expr, Kid, Kids, Labels, Op, Pieces};
use crate::locations::Loc;
use crate::texts::Label;

/// How deep an expression nests: 0 without kids, else one more than the greatest of its kids. It stops at
/// 2^32 - 1.
#[cycle(nest)]
pub fn nest(e: &Expr) -> u32
    ensures { result ≡ min (nesting (term e.now)) (2 ^ 32 - 1) }
{
    match e {
        Expr::Var(_, _) => 0,
        Expr::Node(_, kids) => nest_of_kids(kids),
    }
}

/// How deep a node with these kids nests. It stops at 2^32 - 1.
#[cycle(nest)]
pub fn nest_of_kids(kids: &Kids) -> u32
    ensures { result ≡ min (parts_nesting (row_of kids.now)) (2 ^ 32 - 1) }
{
    let mut most: u32 = 0;
    for kid in kids.as_slice() {
        most = most.max(nest(&kid.body).saturating_add(1));
    }
    most
}

/// Whether the parts are those of such a node: the right number of them, with a binder where the node binds, and
/// labels in ascending order.
pub fn arity_ok(op: &Op, kids: &Kids) -> bool
    ensures { result ≡ fits op.now (row_of kids.now) }
{
    let kids = kids.as_slice();
    match op {
        Op::Builtin(_) | Op::Bool(_) | Op::Nat(_) | Op::Int(_) => is_plain(0, kids),
        Op::Text(pieces) => is_between(pieces, kids),
        Op::Import(import) => has_comps(&import.get().loc) && is_plain(0, kids),
        Op::Lam | Op::Pi | Op::Let(false) => is_binding(1, kids),
        Op::Let(true) => is_binding(2, kids),
        Op::EmptyList | Op::Some | Op::Field(_) | Op::Assert => is_plain(1, kids),
        Op::App | Op::Bin(_) | Op::ProjectType | Op::Annot => is_plain(2, kids),
        Op::If => is_plain(3, kids),
        Op::List => is_some_plain(kids),
        Op::Merge(annotated) => is_plain(if *annotated { 3 } else { 2 }, kids),
        Op::ToMap(annotated) => is_plain(if *annotated { 2 } else { 1 }, kids),
        Op::RecordType(labels) | Op::Record(labels) => is_labelled(labels, kids),
        Op::Project(labels) => is_ascending(labels.as_slice()) && is_plain(1, kids),
        Op::Union(alts) => has_types(alts.as_slice(), kids),
        Op::With(path) => !path.is_empty() && is_plain(2, kids),
    }
}

/// Whether the first label comes before the second, in the order of their bytes.
fn comes_before(x: &Label, y: &Label) -> bool
    ensures { result ≡ before x.now y.now }
{
    x.as_str() < y.as_str()
}

/// Whether each label comes before the next one.
fn is_ascending(labels: &[Label]) -> bool
    ensures { result ≡ ascending labels.now }
{
    labels.is_sorted_by(|x, y| comes_before(x, y))
}

/// Whether each alternative's label comes before the next one's.
fn alts_ascend(alts: &[Alt]) -> bool
    ensures { result ≡ ascending (alt_labels alts.now) }
{
    alts.is_sorted_by(|x, y| comes_before(&x.label, &y.label))
}

/// How many alternatives have a type.
fn count_typed(alts: &[Alt]) -> usize
    ensures { result ≡ count_by (λ a. a.typed) alts.now }
{
    alts.iter().filter(|alt| alt.typed).count()
}

/// Whether none of the kids is under a binder.
fn are_free(kids: &[Kid]) -> bool
    ensures { result ≡ list_all (λ k. is_none k.binder) kids.now }
{
    kids.iter().all(|kid| kid.binder.is_none())
}

/// Whether there are so many kids, none of them under a binder.
fn is_plain(count: usize, kids: &[Kid]) -> bool
    ensures { result ≡ plain count (row_of kids.now) }
{
    kids.len() == count && are_free(kids)
}

/// Whether there is one kid or more, none of them under a binder.
fn is_some_plain(kids: &[Kid]) -> bool
    ensures { result ≡ some_plain (row_of kids.now) }
{
    !kids.is_empty() && are_free(kids)
}

/// Whether there are so many kids, and then one under a binder.
fn is_binding(count: usize, kids: &[Kid]) -> bool
    ensures { result ≡ binding count (row_of kids.now) }
{
    match kids.split_last() {
        Some((last, front)) => last.binder.is_some() && is_plain(count, front),
        None => false,
    }
}

/// Whether there is one kid fewer than there are pieces of text.
fn is_between(pieces: &Pieces, kids: &[Kid]) -> bool
    ensures { result ≡ between pieces.now (row_of kids.now) }
{
    !pieces.is_empty() && is_plain(pieces.len() - 1, kids)
}

/// Whether there is one kid for each label, and the labels ascend.
fn is_labelled(labels: &Labels, kids: &[Kid]) -> bool
    ensures { result ≡ (ascending labels.now && plain (length labels.now) (row_of kids.now)) }
{
    is_ascending(labels.as_slice()) && is_plain(labels.len(), kids)
}

/// Whether there is one kid for each alternative with a type, and the labels ascend.
fn has_types(alts: &[Alt], kids: &[Kid]) -> bool
    ensures { result ≡ (ascending (alt_labels alts.now) && plain (typed_count alts.now) (row_of kids.now)) }
{
    alts_ascend(alts) && is_plain(count_typed(alts), kids)
}

/// Whether a location's path has a component, where it has a path.
fn has_comps(loc: &Loc) -> bool
    ensures { result ≡ loc_fits loc.now }
{
    match loc {
        Loc::Abs(comps) | Loc::Here(comps) | Loc::Parent(comps) | Loc::Home(comps) =>
            !comps.is_empty(),
        Loc::Http(url) | Loc::Https(url) => !url.comps.is_empty(),
        Loc::Env(_) | Loc::Missing => true,
    }
}

/// Whether each node of an expression has its parts.
#[cycle(well_formed)]
pub fn is_well_formed(e: &Expr) -> bool
    ensures { IsTrue result ↔ IsWellFormed (term e.now) }
{
    match e {
        Expr::Var(_, _) => true,
        Expr::Node(op, kids) => arity_ok(op, kids) && are_well_formed(kids),
    }
}

/// Whether each node below has its parts.
#[cycle(well_formed)]
fn are_well_formed(kids: &Kids) -> bool
    ensures { IsTrue result ↔ AreWellFormed (row_of kids.now) }
{
    for kid in kids.as_slice() {
        if !is_well_formed(&kid.body) {
            return false;
        }
    }
    true
}
