//! Codes with other leaves: a variable is bound, or a code is put in its place.
//!
//! A code that stands below as many binders is changed once, and one in which nothing changes is itself, so types that share
//! parts go on sharing them. What is still to be changed is a stack on the heap.

ghost use Rattle.std.specs.Prelude.{◌≡◌, ◌<◌, [], ℕ, true, IfOk, IfSome, IsTrue, OnOk, Some};
ghost use Rattle.dh_syntax.specs.Expressions.Tree.{Leaf, Node as node_of};
ghost use Rattle.dh_syntax.specs.Names.Nameless as ref;
ghost use Rattle.dh_syntax.specs.Names.Nameless.{Core, Ref};
ghost use Rattle.dh_syntax.specs.Normalising.NamelessRuns.{ref_eq};
ghost use Rattle.dh_syntax.specs.Typing.NamelessTyping.{above, is_bound};
ghost use Rattle.dh_store.specs.Cells.{code_core, code_row, nothing, outside, AreCoded, AreKidsBelow};
ghost use Rattle.dh_store.specs.Growth.{count};
ghost use Rattle.dh_store.specs.declared.codes.Codes.{Codes as CodesOf};
ghost use Rattle.dh_syntax.specs.Expressions.Arity.{fits};
ghost use Rattle.dh_types.specs.Growing.{Grows, Stands};
ghost use Rattle.dh_types.specs.Memos.{entry};
ghost use Rattle.dh_types.specs.Inside.Changes.{changed, changed_row, found_by, leaf_by, AreChanged, AreEntriesBelow, IsChangeBelow, IsPlan, Maps};

use crate::building::{bound, node};
use crate::memos::Memo;
use dh_store::{Code, CodeId, CodeKid, Codes};
use dh_syntax::{Label, Many, Op, copy_name};
use std::alloc::{AllocError, Global};

/// What changes.
#[derive(Clone, Copy)]
pub(crate) enum Change {
    /// The variable of the context with this number becomes that of the binder.
    Binds(u32),
    /// The variable of the binder becomes this code.
    Puts(CodeId),
}

/// What is to be made of a code.
#[derive(Drop)]
enum Plan {
    /// It stays as it is.
    Keep,
    /// It is the variable that changes.
    Replace,
    /// The node with this operator and these parts.
    Rebuild(Op, Many<CodeKid>),
}

/// How many binders stand above a part, below as many as stand above its node.
pub(crate) fn inner(level: u32, kid: &CodeKid) -> Option<u32>
    ensures { IfSome result (λ k. k ≡ above kid.now.binder level) }
{
    match &kid.binder {
        Some(_) => level.checked_add(1),
        None => Some(level),
    }
}

/// Whether a variable that no binder binds is the one of the context with this number.
fn is_variable(variable: u32, label: &Label, index: u32) -> bool
    ensures { result ≡ ref_eq (outside [] variable) (outside label.now index) }
{
    label.as_str().is_empty() && index == variable
}

/// What becomes of a variable that a binder binds.
fn bound_plan(change: Change, level: u32, index: u32) -> Plan
    ensures { (cs : CodesOf) → IsPlan cs change level (Leaf (ref.Bound index)) result }
{
    match change {
        Change::Binds(_) => Plan::Keep,
        Change::Puts(_) => {
            if index == level {
                Plan::Replace
            } else {
                Plan::Keep
            }
        }
    }
}

/// What becomes of a variable that no binder binds.
fn free_plan(change: Change, level: u32, label: &Label, index: u32) -> Plan
    ensures { (cs : CodesOf) → IsPlan cs change level (Leaf (outside label.now index)) result }
{
    match change {
        Change::Binds(variable) => {
            if is_variable(variable, label, index) {
                Plan::Replace
            } else {
                Plan::Keep
            }
        }
        Change::Puts(_) => Plan::Keep,
    }
}

/// Whether nothing changes in the parts of a node, below so many binders.
fn are_kept(memo: &Memo<CodeId>, level: u32, kids: &[CodeKid]) -> Result<bool, AllocError>
    ensures { IfOk result (λ b. b ≡ true → (f : ℕ → Core) (g : ℕ → Ref → Core) → Maps f g memo.now → changed_row g level (code_row f kids.now) ≡ code_row f kids.now) }
{
    for kid in kids {
        let Some(inner) = inner(level, kid) else {
            return Err(AllocError);
        };
        match memo.get(kid.code, inner) {
            Some(code) => {
                if code != kid.code {
                    return Ok(false);
                }
            }
            None => return Err(AllocError),
        }
    }
    Ok(true)
}

/// What a part of a node becomes, below so many binders.
fn changed_kid(
    alloc: Global,
    memo: &Memo<CodeId>,
    level: u32,
    kid: &CodeKid,
) -> Result<CodeKid, AllocError>
    ensures binder { IfOk result (λ k. k.binder ≡ kid.now.binder) }
    ensures code { IfOk result (λ k. (f : ℕ → Core) (g : ℕ → Ref → Core) → Maps f g memo.now → f k.code ≡ changed g (above kid.now.binder level) (f kid.now.code)) }
    ensures below { IfOk result (λ k. (n : ℕ) → AreEntriesBelow n memo.now → k.code < n) }
{
    let Some(inner) = inner(level, kid) else {
        return Err(AllocError);
    };
    match memo.get(kid.code, inner) {
        Some(code) => {
            let binder = copy_name(alloc, &kid.binder)?;
            Ok(CodeKid { binder, code })
        }
        None => Err(AllocError),
    }
}

/// What the parts of a node become, below so many binders.
fn changed_kids(
    alloc: Global,
    memo: &Memo<CodeId>,
    level: u32,
    kids: &[CodeKid],
) -> Result<Many<CodeKid>, AllocError>
    ensures row { IfOk result (λ ks. (f : ℕ → Core) (g : ℕ → Ref → Core) → Maps f g memo.now → code_row f ks ≡ changed_row g level (code_row f kids.now)) }
    ensures below { IfOk result (λ ks. (n : ℕ) → AreEntriesBelow n memo.now → AreKidsBelow n ks) }
    ensures shape { IfOk result (λ ks. code_row (λ c. nothing) ks ≡ code_row (λ c. nothing) kids.now) }
{
    let mut done = Many::new(alloc);
    for kid in kids {
        done.push(changed_kid(alloc, memo, level, kid)?)?;
    }
    Ok(done)
}

/// What is to be made of a node, below so many binders, once its parts were changed.
fn node_plan(
    alloc: Global,
    codes: &Codes,
    memo: &Memo<CodeId>,
    change: Change,
    level: u32,
    op: &Op,
    kids: &[CodeKid],
) -> Result<Plan, AllocError>
    requires made { AreChanged codes.now change memo.now }
    requires fits { IsTrue (fits op.now (code_row (λ c. nothing) kids.now)) }
    ensures { IfOk result (λ p. IsPlan codes.now change level (node_of op.now (code_row (code_core codes.now) kids.now)) p) }
{
    if are_kept(memo, level, kids)? {
        return Ok(Plan::Keep);
    }
    let kids = changed_kids(alloc, memo, level, kids)?;
    Ok(Plan::Rebuild(op.copied(alloc)?, kids))
}

/// What is to be made of a code, below so many binders, once its parts were changed.
fn plan_of(
    alloc: Global,
    codes: &Codes,
    memo: &Memo<CodeId>,
    change: Change,
    level: u32,
    id: CodeId,
) -> Result<Plan, AllocError>
    requires coded { AreCoded codes.now }
    requires made { AreChanged codes.now change memo.now }
    ensures plan { IfOk result (λ p. IsPlan codes.now change level (code_core codes.now id) p) }
    ensures there { OnOk result (id < count codes.now) }
{
    match codes.get(id) {
        Some(Code::Node(op, kids)) => {
            node_plan(alloc, codes, memo, change, level, op, kids.as_slice())
        }
        Some(Code::Free(label, index)) => Ok(free_plan(change, level, label, *index)),
        Some(Code::Bound(index)) => Ok(bound_plan(change, level, *index)),
        None => Err(AllocError),
    }
}

/// The code of what is changed, below so many binders.
fn replacement(codes: &mut Codes, change: Change, level: u32) -> Result<CodeId, AllocError>
    requires coded { AreCoded codes.old }
    requires there { IsChangeBelow (count codes.old) change }
    ensures grows { Grows codes.old codes.new }
    ensures made { IfOk result (λ c. Stands codes.new c (found_by (code_core codes.old) change level)) }
{
    match change {
        Change::Binds(_) => bound(codes, level),
        Change::Puts(code) => Ok(code),
    }
}

/// Makes what is to be made of a code.
fn make(
    codes: &mut Codes,
    change: Change,
    level: u32,
    id: CodeId,
    plan: Plan,
) -> Result<CodeId, AllocError>
    requires coded { AreCoded codes.old }
    requires there { IsChangeBelow (count codes.old) change }
    requires code { id < count codes.old }
    requires plan { IsPlan codes.old change level (code_core codes.old id) plan }
    ensures grows { Grows codes.old codes.new }
    ensures made { IfOk result (λ c. Stands codes.new c (changed (leaf_by (code_core codes.old) change) level (code_core codes.old id))) }
{
    match plan {
        Plan::Keep => Ok(id),
        Plan::Replace => replacement(codes, change, level),
        Plan::Rebuild(op, kids) => node(codes, op, kids),
    }
}

/// Changes a code below so many binders, once its parts were changed.
fn settle(
    alloc: Global,
    codes: &mut Codes,
    memo: &mut Memo<CodeId>,
    change: Change,
    level: u32,
    id: CodeId,
) -> Result<(), AllocError>
    requires coded { AreCoded codes.old }
    requires there { IsChangeBelow (count codes.old) change }
    requires made { AreChanged codes.old change memo.old }
    ensures grows { Grows codes.old codes.new }
    ensures made { OnOk result (AreChanged codes.new change memo.new) }
{
    let plan = plan_of(alloc, codes, memo, change, level, id)?;
    let found = make(codes, change, level, id, plan)?;
    memo.put(id, level, found)
}

/// A code and how many binders stand above it.
#[derive(Clone, Copy)]
pub(crate) struct Pending {
    pub(crate) id: CodeId,
    pub(crate) level: u32,
}

/// Puts a node back, and above it its parts that were not changed yet; whether there are some.
fn wait(
    codes: &Codes,
    memo: &Memo<CodeId>,
    todo: &mut Vec<Pending>,
    place: Pending,
) -> Result<bool, AllocError> {
    let Some(Code::Node(_, kids)) = codes.get(place.id) else {
        return Ok(false);
    };
    let mut waits = false;
    for kid in kids.as_slice() {
        let Some(level) = inner(place.level, kid) else {
            return Err(AllocError);
        };
        if memo.get(kid.code, level).is_none() {
            if !waits {
                todo.push(place)?;
                waits = true;
            }
            todo.push(Pending {
                id: kid.code,
                level,
            })?;
        }
    }
    Ok(waits)
}

/// Goes on with a code: it was changed, or its parts are changed first, or it is changed now.
fn go_on(
    alloc: Global,
    codes: &mut Codes,
    memo: &mut Memo<CodeId>,
    todo: &mut Vec<Pending>,
    change: Change,
    place: Pending,
) -> Result<(), AllocError>
    requires coded { AreCoded codes.old }
    requires there { IsChangeBelow (count codes.old) change }
    requires made { AreChanged codes.old change memo.old }
    ensures grows { Grows codes.old codes.new }
    ensures made { OnOk result (AreChanged codes.new change memo.new) }
{
    if memo.get(place.id, place.level).is_some() {
        return Ok(());
    }
    if wait(codes, memo, todo, place)? {
        return Ok(());
    }
    settle(alloc, codes, memo, change, place.level, place.id)
}

/// What was kept for a code below no binder.
fn held(memo: &Memo<CodeId>, id: CodeId) -> Result<CodeId, AllocError>
    ensures { IfOk result (λ c. entry memo.now id 0 ≡ Some c) }
{
    match memo.get(id, 0) {
        Some(code) => Ok(code),
        None => Err(AllocError),
    }
}

/// Changes a code that stands below no binder.
pub(crate) fn changed(
    alloc: Global,
    codes: &mut Codes,
    change: Change,
    id: CodeId,
) -> Result<CodeId, AllocError>
    requires coded { AreCoded codes.old }
    requires there { IsChangeBelow (count codes.old) change }
    requires code { id < count codes.old }
    ensures grows { Grows codes.old codes.new }
    ensures made { IfOk result (λ c. Stands codes.new c (changed (leaf_by (code_core codes.old) change) 0 (code_core codes.old id))) }
{
    let mut memo = Memo::new(alloc);
    let mut todo = Vec::new(alloc);
    todo.push(Pending { id, level: 0 })?;
    'places: for _ in 0..u64::MAX {
        match todo.pop() {
            Some(place) => go_on(alloc, codes, &mut memo, &mut todo, change, place)?,
            None => return held(&memo, id),
        }
    }
    Err(AllocError)
}
