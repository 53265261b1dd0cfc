//! Entries of the cache are looked up: on the shelf first, then at a desk.

ghost use Rattle.std.specs.Prelude.{◌≡◌, ◌≤◌, ◌↔◌, [], None, false, IfOk, IfSome, IsTrue, MatchOption, option_map};
ghost use Rattle.sha2.specs.Sha256.{sha256};
ghost use Rattle.dh_syntax.specs.Expressions.Arity.{IsWellFormed};
ghost use Rattle.dh_syntax.specs.Expressions.Bridge.{term};
ghost use Rattle.dh_syntax.specs.Expressions.Nesting.{nesting};
ghost use Rattle.dh_syntax.specs.Expressions.Tree.{Term};
ghost use Rattle.dh_imports.specs.Records.{IsClosed};
ghost use Rattle.dh_imports.specs.Walk.{keys_of};
ghost use Rattle.dh_ports.specs.Desks.{Tells, shown};
ghost use Rattle.dh_record.specs.Brought.{BringsLook, IsOfDigest, IsShelved, is_failed};
ghost use Rattle.dh_record.specs.Rows.{seen_by};
ghost use Rattle.dh_shelf.specs.Shelves.{Grows, IsToldEntry};
ghost use Rattle.dh_work.specs.Inside.Coming.{IsWhole};
ghost use Rattle.dh_work.specs.Brings.{IsGoodAt, IsLookOf, TellsFailure};

use crate::closed::is_closed;
use dh_decode::decode;
use dh_demand::import_keys;
use dh_ports::{Desk, DeskError, World};
use dh_record::{Entry, News, Seen};
use dh_shelf::{MOST_SHELVED_BYTES, Visit};
use dh_syntax::{Bytes, DecodeFault, Digest, Expr, copy};
use sha2::Sha256;
use std::alloc::{AllocError, Global};

/// As many bytes or more are not decoded: the answer to them is that memory is wanting. No look finds as many.
const TOO_LONG: usize = 1 << 32;

/// The good entry that bytes are under a digest: they have that digest, and are the binary form of an expression without imports and
/// free variables. None exactly where they are none. For 4 GiB and more the answer is that memory is wanting.
pub fn good_entry(alloc: Global, digest: Digest, bytes: Bytes) -> Result<Option<Entry>, AllocError>
    ensures { IfOk result (λ entry. IsGoodAt digest bytes entry) }
{
    if !has_digest(bytes.as_slice(), &digest) {
        return Ok(None);
    }
    match whole_expr(alloc, bytes.as_slice())? {
        Some(expr) => Ok(Some(Entry::of(digest, bytes, expr))),
        None => Ok(None),
    }
}

/// Whether bytes have this digest (FIPS 180-4).
fn has_digest(bytes: &[u8], digest: &Digest) -> bool
    ensures { IsTrue result ↔ (sha256 bytes.now ≡ digest.now.0) }
{
    <Sha256 as sha2::Digest>::digest(bytes) == digest.0
}

/// The expression that bytes are in the binary form, if they are one without imports and free variables.
fn whole_expr(alloc: Global, bytes: &[u8]) -> Result<Option<Expr>, AllocError>
    ensures whole { IfOk result (λ found. MatchOption found ((e : Term) → ¬ IsWhole bytes.now e) (λ e. IsWhole bytes.now (term e))) }
    ensures formed { IfOk result (λ found. IfSome found (λ e. IsWellFormed (term e))) }
{
    if bytes.len() >= TOO_LONG {
        return Err(AllocError);
    }
    match decode(alloc, bytes) {
        Ok(e) => {
            if is_whole(alloc, &e)? {
                Ok(Some(e))
            } else {
                Ok(None)
            }
        }
        Err(fault) => match fault {
            DecodeFault::Memory => Err(AllocError),
            _ => Ok(None),
        },
    }
}

/// Whether an expression has no import and no free variable.
fn is_whole(alloc: Global, e: &Expr) -> Result<bool, AllocError>
    requires { nesting (term e.now) ≤ 500 }
    ensures { IfOk result (λ whole. IsTrue whole ↔ ((keys_of None (term e.now) ≡ []) × IsClosed (term e.now))) }
{
    let keys = import_keys(alloc, e, None)?;
    if !keys.is_empty() {
        return Ok(false);
    }
    is_closed(alloc, e)
}

/// What the shelf or else a desk has in the cache under a digest: a good entry, none, or that the device failed. A good entry that a
/// desk has goes on the shelf, if it is small enough.
pub fn look_up<W: World, D: Desk<W>>(
    alloc: Global,
    desk: &mut D,
    visit: &mut Visit<'_, W>,
    digest: Digest,
) -> Result<News, AllocError>
    ensures brings { IfOk result (λ news. BringsLook W.shelved news) }
    ensures own { IfOk result (λ news. IsLookOf digest news) }
    ensures asked { D.asked desk.new ≡ D.asked desk.old }
    ensures filed { D.filed desk.new ≡ D.filed desk.old }
    ensures counted { D.faults desk.old ≤ D.faults desk.new }
    ensures failed { IfOk result (λ news. TellsFailure news (D.faults desk.old) (D.faults desk.new)) }
    ensures of_this { visit.new.cells ≡ visit.old.cells }
    ensures keeps { Grows visit.old.seen visit.new.seen }
{
    if let Some(entry) = visit.get(&digest) {
        let look = Seen::Good(copied(alloc, entry)?);
        return Ok(News::Looked { digest, look });
    }
    match desk.look(alloc, &digest) {
        Ok(found) => {
            let look = seen(alloc, visit, digest, found)?;
            Ok(News::Looked { digest, look })
        }
        Err(DeskError::Failed) => Ok(News::Looked {
            digest,
            look: Seen::Failed,
        }),
        Err(DeskError::Memory) => Err(AllocError),
    }
}

/// What is seen of the bytes that a desk has under a digest, if it has any. A good entry goes on the shelf.
#[tactic(auto, using(crate::proofs::Told::seen_shelved, crate::proofs::Told::entry_is_told))]
fn seen<W: World>(
    alloc: Global,
    visit: &mut Visit<'_, W>,
    digest: Digest,
    found: Option<Bytes>,
) -> Result<Seen, AllocError>
    requires { Tells (option_map shown (W.shelved digest)) found }
    ensures of_digest { IfOk result (λ look. IsOfDigest digest look) }
    ensures shelved { IfOk result (λ look. IsShelved digest (W.shelved digest) look) }
    ensures answers { IfOk result (λ look. is_failed (seen_by look) ≡ false) }
    ensures of_this { visit.new.cells ≡ visit.old.cells }
    ensures keeps { Grows visit.old.seen visit.new.seen }
{
    let Some(bytes) = found else {
        return Ok(Seen::Miss);
    };
    match good_entry(alloc, digest, bytes)? {
        Some(entry) => {
            shelve(alloc, visit, &entry);
            Ok(Seen::Good(entry))
        }
        None => Ok(Seen::Miss),
    }
}

/// An equal entry.
fn copied(alloc: Global, entry: &Entry) -> Result<Entry, AllocError>
    ensures { IfOk result (λ e. e ≡ entry.now) }
{
    entry.by_digest();
    entry.by_value();
    let bytes = entry.bytes().copied(alloc)?;
    let expr = copy(alloc, entry.expr())?;
    Ok(Entry::of(entry.digest(), bytes, expr))
}

/// Puts a copy of an entry on the shelf, if it is small enough and there are memory and room for it.
fn shelve<W: World>(alloc: Global, visit: &mut Visit<'_, W>, entry: &Entry)
    requires { IsToldEntry W.shelved entry.now }
    ensures of_this { visit.new.cells ≡ visit.old.cells }
    ensures keeps { Grows visit.old.seen visit.new.seen }
{
    if entry.bytes().as_slice().len() > MOST_SHELVED_BYTES {
        return;
    }
    if let Ok(entry) = copied(alloc, entry) {
        let _put = visit.put(entry);
    }
}
