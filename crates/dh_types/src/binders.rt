//! Whether a type mentions the variable of a binder above it.
//!
//! Most types are small: a walk over few codes tells it, and keeps nothing. Where it does not, a code that stands below as many
//! binders is looked at once, and what is still to be looked at is a stack on the heap.

ghost use Rattle.std.specs.Prelude.{◌≡◌, ℕ, true, IfOk, IfSome, OnOk};
ghost use Rattle.std.specs.Option.{option_map};
ghost use Rattle.dh_syntax.specs.Names.Nameless.{Core};
ghost use Rattle.dh_syntax.specs.Typing.NamelessTyping.{down, mentions, mentions_row};
ghost use Rattle.dh_store.specs.Cells.{code_core, code_row, AreCoded};
ghost use Rattle.dh_types.specs.Closed.{IsClosedBelow};
ghost use Rattle.dh_types.specs.Inside.Comparing.{TellsMentioned};

use crate::changes::{Pending, inner};
use crate::memos::Memo;
use crate::nodes::{Seen, form_of};
use dh_store::{CodeId, CodeKid, Codes};
use std::alloc::{AllocError, Global};

/// Puts a part above its node, which is put back first if it was not yet; now it waits.
fn put_off(
    todo: &mut Vec<Pending>,
    waits: bool,
    place: Pending,
    id: CodeId,
    level: u32,
) -> Result<bool, AllocError>
    ensures { IfOk result (λ w. w ≡ true) }
{
    if !waits {
        todo.push(place)?;
    }
    todo.push(Pending { id, level })?;
    Ok(true)
}

/// Whether one of the parts of a node mentions the variable, if that is known; if not, the node is put back, and above it the parts
/// of which it is not known.
fn mentioned_in(
    memo: &Memo<bool>,
    todo: &mut Vec<Pending>,
    place: Pending,
    kids: &[CodeKid],
) -> Result<Option<bool>, AllocError>
    ensures { IfOk result (λ o. (f : ℕ → Core) → TellsMentioned f memo.now → IfSome o (λ v. v ≡ mentions_row place.level (code_row f kids.now))) }
{
    let mut waits = false;
    for kid in kids {
        let Some(level) = inner(place.level, kid) else {
            return Err(AllocError);
        };
        match memo.get(kid.code, level) {
            Some(true) => return Ok(Some(true)),
            Some(false) => {}
            None => waits = put_off(todo, waits, place, kid.code, level)?,
        }
    }
    if waits { Ok(None) } else { Ok(Some(false)) }
}

/// Whether a code mentions the variable, if that is known of its parts; if not, it is put back, and above it what is not known.
fn look(
    codes: &Codes,
    memo: &Memo<bool>,
    todo: &mut Vec<Pending>,
    place: Pending,
) -> Result<Option<bool>, AllocError>
    requires coded { AreCoded codes.now }
    requires tells { TellsMentioned (code_core codes.now) memo.now }
    ensures { IfOk result (λ o. IfSome o (λ v. v ≡ mentions place.level (code_core codes.now place.id))) }
{
    match form_of(codes, place.id) {
        Seen::Bound(index) => Ok(Some(index == place.level)),
        Seen::Free(_, _) => Ok(Some(false)),
        Seen::Node(_, kids) => mentioned_in(memo, todo, place, kids),
    }
}

/// Goes on with a code: what is found of it is kept, or it waits for its parts.
fn go_on(
    codes: &Codes,
    memo: &mut Memo<bool>,
    todo: &mut Vec<Pending>,
    place: Pending,
) -> Result<(), AllocError>
    requires coded { AreCoded codes.now }
    requires tells { TellsMentioned (code_core codes.now) memo.old }
    ensures tells { OnOk result (TellsMentioned (code_core codes.now) memo.new) }
{
    if memo.get(place.id, place.level).is_some() {
        return Ok(());
    }
    match look(codes, memo, todo, place)? {
        Some(mentions) => memo.put(place.id, place.level, mentions),
        None => Ok(()),
    }
}

/// How many codes, one inside the other, a walk that keeps nothing goes down. It recurses, so this bounds the stack that it takes.
const MOST_DEPTH: u32 = 100;

/// How many codes such a walk looks at. One that it meets again counts again, so this bounds what shared codes may cost.
const MOST_CODES: u32 = 1000;

/// Whether a code mentions the variable, if a walk so deep and over as many codes as are left tells it.
#[cycle(walked)]
fn walked(codes: &Codes, place: Pending, depth: u32, left: &mut u32) -> Option<bool>
    requires coded { AreCoded codes.now }
    ensures { IfSome result (λ v. v ≡ mentions place.level (code_core codes.now place.id)) }
{
    if depth == 0 || *left == 0 {
        return None;
    }
    *left -= 1;
    match form_of(codes, place.id) {
        Seen::Bound(index) => Some(index == place.level),
        Seen::Free(_, _) => Some(false),
        Seen::Node(_, kids) => walked_row(codes, kids, place.level, depth - 1, left),
    }
}

#[cycle(walked)]
fn walked_row(
    codes: &Codes,
    kids: &[CodeKid],
    level: u32,
    depth: u32,
    left: &mut u32,
) -> Option<bool>
    requires coded { AreCoded codes.now }
    ensures { IfSome result (λ v. v ≡ mentions_row level (code_row (code_core codes.now) kids.now)) }
{
    for kid in kids {
        let Some(level) = inner(level, kid) else {
            return None;
        };
        let place = Pending {
            id: kid.code,
            level,
        };
        match walked(codes, place, depth, left) {
            Some(true) => return Some(true),
            Some(false) => {}
            None => return None,
        }
    }
    Some(false)
}

/// Whether a code that stands below a binder mentions its variable, each code below as many binders looked at once.
fn searched(alloc: Global, codes: &Codes, id: CodeId) -> Result<bool, AllocError>
    requires coded { AreCoded codes.now }
    ensures { IfOk result (λ v. v ≡ mentions 0 (code_core codes.now id)) }
{
    let mut memo = Memo::new(alloc);
    let mut todo = Vec::new(alloc);
    todo.push(Pending { id, level: 0 })?;
    'places: for _ in 0..u64::MAX {
        if let Some(mentions) = memo.get(id, 0) {
            return Ok(mentions);
        }
        match todo.pop() {
            Some(place) => go_on(codes, &mut memo, &mut todo, place)?,
            None => return Err(AllocError),
        }
    }
    Err(AllocError)
}

/// Whether a code that stands below a binder mentions its variable.
fn mentions(alloc: Global, codes: &Codes, id: CodeId) -> Result<bool, AllocError>
    requires coded { AreCoded codes.now }
    ensures { IfOk result (λ v. v ≡ mentions 0 (code_core codes.now id)) }
{
    let mut left = MOST_CODES;
    match walked(codes, Pending { id, level: 0 }, MOST_DEPTH, &mut left) {
        Some(mentions) => Ok(mentions),
        None => searched(alloc, codes, id),
    }
}

/// A code that stands below a binder, seen from outside, where it does not mention the variable of the binder: itself, since it
/// has no variable of another binder above.
pub fn seen_outside(alloc: Global, codes: &Codes, id: CodeId) -> Result<Option<CodeId>, AllocError>
    requires coded { AreCoded codes.now }
    requires closed { IsClosedBelow (code_core codes.now id) }
    ensures view { IfOk result (λ o. option_map (code_core codes.now) o ≡ down (code_core codes.now id)) }
    ensures same { IfOk result (λ o. IfSome o (λ c. c ≡ id)) }
{
    if mentions(alloc, codes, id)? {
        Ok(None)
    } else {
        Ok(Some(id))
    }
}
