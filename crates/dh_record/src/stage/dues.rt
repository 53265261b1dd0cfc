//! On what the last step of a key is due: the item is made of it, and told by it.

ghost use Rattle.std.specs.Prelude.{◌≡◌, All, Some, IfOk};
ghost use Rattle.std.specs.Option.{option_copied};
ghost use Rattle.dh_demand.specs.Scans.{Fits, text_key};
ghost use Rattle.dh_demand.specs.Results.{ask_of};
ghost use Rattle.dh_syntax.specs.Expressions.Bridge.{term};
ghost use Rattle.dh_syntax.specs.Expressions.Tree.{Term};
ghost use Rattle.dh_imports.specs.declared.outcomes.Why.TheVariants as whys;
ghost use Rattle.dh_imports.specs.LastStep as last;
ghost use Rattle.dh_imports.specs.Resolver.{Has, Stage};
ghost use Rattle.dh_imports.specs.Walk.{Ready, walk};
ghost use Rattle.dh_record.specs.Due.{IsItem, IsValued};
ghost use Rattle.dh_record.specs.Dues.{IsDueOn, IsFitDue, blame_by, by_blame, why_by};
ghost use Rattle.dh_record.specs.Inside.Equal.{are_due_on_one};
ghost use Rattle.dh_record.specs.Items.{by_fault, stage_of_item};
ghost use Rattle.dh_record.specs.Rows.{rows_of};
ghost use Rattle.dh_record.specs.Values.{IsFit};

use crate::entries::Entry;
use crate::items::{Body, Item};
use crate::rows::Entrants;
use crate::stage::equality::{
    is_barred_at, is_fault_of, is_insane_at, is_key_of, is_same_allow, is_same_bytes,
    is_same_origin,
};
use dh_demand::{Scan, assemble, is_assembled};
use dh_imports::{Blame, Origin, Why};
use dh_ports::Found;
use dh_syntax::{Bytes, Expr, Key, Loc, ParseFault, copy};
use dh_terms::{is_same_expr, is_same_loc};
use std::alloc::{AllocError, Global};

/// A fault of a key itself.
#[derive(Clone, Copy, Debug)]
pub enum OwnFault {
    Missing,
    Https,
    Absent,
    Broken(u16),
    Failed,
    Parse(ParseFault),
}

/// The fault of a key.
#[derive(Clone, Copy)]
pub enum Reason<'a> {
    Own(OwnFault),
    /// An import of this location, which a text from a URL may not import.
    Insane(&'a Loc),
    /// An import of this location, whose origin allows the text nothing.
    Cors(&'a Loc),
    /// The fault of an import, or of the key without digest.
    Import(&'a Blame),
}

/// On what the last step of a key is due. It takes no memory.
#[derive(Clone, Copy)]
pub enum Due<'a> {
    /// Its code, each of whose imports has a value, and the allowed origin of its text.
    Code(&'a Scan, &'a Option<Bytes>),
    /// What was found, taken as text.
    Text(&'a Found),
    Location,
    /// The value of the key without digest, with its origin.
    Compare(&'a Expr, &'a Origin),
    Entry(&'a Entry),
    Fault(Reason<'a>),
}

impl OwnFault {
    fn why(self) -> Why
        ensures { result ≡ why_by self }
    {
        match self {
            OwnFault::Missing => Why::Missing,
            OwnFault::Https => Why::Https,
            OwnFault::Absent => Why::Absent,
            OwnFault::Broken(status) => Why::Broken(status),
            OwnFault::Failed => Why::Failed,
            OwnFault::Parse(fault) => Why::Parse(fault),
        }
    }
}

impl<'a> Reason<'a> {
    /// The fault, where the item at fault is this key, but for that of an import.
    pub fn blame(self, alloc: Global, at: Option<&Key>) -> Result<Blame, AllocError>
        ensures { IfOk result (λ b. b ≡ blame_by (option_copied at.entry) self.entry) }
    {
        let why = match self {
            Reason::Own(fault) => fault.why(),
            Reason::Insane(loc) => Why::Insane(loc.copied(alloc)?),
            Reason::Cors(loc) => Why::Cors(loc.copied(alloc)?),
            Reason::Import(blame) => return blame.copied(alloc),
        };
        match at {
            Some(key) => Ok(Blame {
                at: Some(key.copied(alloc)?),
                why,
            }),
            None => Ok(Blame { at: None, why }),
        }
    }
}

impl<'a> Due<'a> {
    /// The item of a key that is due on this.
    pub fn item(self, alloc: Global, keys: &Entrants, key: &Key) -> Result<Item, AllocError>
        requires due { (s : Stage) × IsDueOn (rows_of keys.now) key.now s self }
        requires valued { All IsValued keys.now }
        requires fit { IsFitDue self }
        ensures item { IfOk result (λ i. (s : Stage) → IsDueOn (rows_of keys.now) key.now s self.entry → IsItem key.now s i) }
        ensures fits { IfOk result (λ i. IsFit i.body) }
    {
        match self {
            Due::Code(scan, allow) => {
                let allow = allow_copied(alloc, allow)?;
                let body = Body::Code(assemble(alloc, scan, keys)?);
                item_of(alloc, key, allow, body)
            }
            Due::Text(found) => {
                let allow = allow_copied(alloc, &found.allow)?;
                let body = Body::Text(found.bytes.copied(alloc)?);
                item_of(alloc, key, allow, body)
            }
            Due::Location => {
                let body = Body::Location(key.loc.copied(alloc)?);
                item_of(alloc, key, None, body)
            }
            Due::Compare(value, origin) => {
                let origin = origin.copied(alloc)?;
                let body = Body::Compare(copy(alloc, value)?, origin);
                item_of(alloc, key, None, body)
            }
            Due::Entry(entry) => {
                entry.by_value();
                let body = Body::Entry(copy(alloc, entry.expr())?);
                item_of(alloc, key, None, body)
            }
            Due::Fault(reason) => {
                let body = Body::Fault(reason.blame(alloc, Some(key))?);
                item_of(alloc, key, None, body)
            }
        }
    }

    /// Whether an item is that of a key that is due on this. It takes no memory.
    pub fn is_item(self, keys: &Entrants, key: &Key, item: &Item) -> bool
        requires { (s : Stage) × IsDueOn (rows_of keys.now) key.now s self }
        ensures { (s : Stage) → IsDueOn (rows_of keys.now) key.now s self.entry → result ≡ are_due_on_one s (stage_of_item item.now) }
    {
        match self {
            Due::Code(scan, allow) => is_code(keys, key, scan, allow, item),
            Due::Text(found) => is_text(&found.bytes, &found.allow, item),
            Due::Location => is_location(&key.loc, item),
            Due::Compare(value, origin) => is_value(value, origin, item),
            Due::Entry(entry) => is_entry(entry.expr(), item),
            Due::Fault(reason) => is_reason(key, reason, item),
        }
    }
}

fn allow_copied(alloc: Global, allow: &Option<Bytes>) -> Result<Option<Bytes>, AllocError>
    ensures { IfOk result (λ c. c ≡ allow.now) }
{
    match allow {
        Some(origin) => Ok(Some(origin.copied(alloc)?)),
        None => Ok(None),
    }
}

fn item_of(alloc: Global, key: &Key, allow: Option<Bytes>, body: Body) -> Result<Item, AllocError>
    ensures { IfOk result (λ i. i ≡ record { key = key.now; allow = allow; body = body }) }
{
    let key = key.copied(alloc)?;
    Ok(Item { key, allow, body })
}

// Whether an item is this code with its values, and this allowed origin.
fn is_code(keys: &Entrants, key: &Key, scan: &Scan, allow: &Option<Bytes>, item: &Item) -> bool
    requires fits { Fits (Some key.now.loc) (rows_of keys.now) (term scan.now.expr) scan.now.edges }
    requires ready { (v : Term) × (walk (text_key (Some key.now.loc)) (ask_of (rows_of keys.now)) (term scan.now.expr) ≡ Ready v) }
    ensures { (v : Term) → walk (text_key (Some key.now.loc)) (ask_of (rows_of keys.now)) (term scan.now.expr) ≡ Ready v →
        result ≡ are_due_on_one (Has (last.Code v allow.now)) (stage_of_item item.now) }
{
    match &item.body {
        Body::Code(code) => is_assembled(scan, keys, code) && is_same_allow(allow, &item.allow),
        Body::Text(_) | Body::Location(_) => false,
        Body::Compare(_, _) => false,
        Body::Entry(_) => false,
        Body::Fault(_) => false,
    }
}

fn is_value(value: &Expr, origin: &Origin, item: &Item) -> bool
    ensures { result ≡ are_due_on_one (Has (last.Compare (term value.now) origin.now)) (stage_of_item item.now) }
{
    match &item.body {
        Body::Compare(other, own) => is_same_expr(value, other) && is_same_origin(origin, own),
        Body::Code(_) | Body::Entry(_) => false,
        Body::Text(_) | Body::Location(_) => false,
        Body::Fault(_) => false,
    }
}

fn is_entry(expr: &Expr, item: &Item) -> bool
    ensures { result ≡ are_due_on_one (Has (last.Entry (term expr.now))) (stage_of_item item.now) }
{
    match &item.body {
        Body::Entry(other) => is_same_expr(expr, other),
        Body::Code(_) | Body::Text(_) | Body::Location(_) => false,
        Body::Compare(_, _) => false,
        Body::Fault(_) => false,
    }
}

fn is_text(bytes: &Bytes, allow: &Option<Bytes>, item: &Item) -> bool
    ensures { result ≡ are_due_on_one (Has (last.Text bytes.now allow.now)) (stage_of_item item.now) }
{
    match &item.body {
        Body::Text(other) => is_same_bytes(bytes, other) && is_same_allow(allow, &item.allow),
        Body::Code(_) | Body::Location(_) | Body::Entry(_) => false,
        Body::Compare(_, _) => false,
        Body::Fault(_) => false,
    }
}

fn is_location(loc: &Loc, item: &Item) -> bool
    ensures { result ≡ are_due_on_one (Has (last.Location loc.now)) (stage_of_item item.now) }
{
    match &item.body {
        Body::Location(other) => is_same_loc(loc, other),
        Body::Code(_) | Body::Text(_) | Body::Entry(_) => false,
        Body::Compare(_, _) => false,
        Body::Fault(_) => false,
    }
}

// Whether an item is this fault of a key.
fn is_reason(key: &Key, reason: Reason<'_>, item: &Item) -> bool
    ensures { result ≡ are_due_on_one (by_blame (blame_by (Some key.now) reason.entry)) (stage_of_item item.now) }
{
    match reason {
        Reason::Own(fault) => is_fault(Some(key), &fault.why(), item),
        Reason::Insane(loc) => is_insane(key, loc, item),
        Reason::Cors(loc) => is_barred(key, loc, item),
        Reason::Import(blame) => is_fault(blame.at.as_ref(), &blame.why, item),
    }
}

// Whether an item is this fault, or the loop that it tells.
fn is_fault(at: Option<&Key>, why: &Why, item: &Item) -> bool
    ensures { result ≡ are_due_on_one (by_fault (option_copied at.entry) why.now) (stage_of_item item.now) }
{
    match &item.body {
        Body::Fault(blame) => is_fault_of(at, why, blame),
        Body::Code(_) | Body::Text(_) | Body::Location(_) | Body::Entry(_) => false,
        Body::Compare(_, _) => false,
    }
}

// Whether an item is the fault that the text of a key may not import this location.
fn is_insane(key: &Key, loc: &Loc, item: &Item) -> bool
    ensures { result ≡ are_due_on_one (by_fault (Some key.now) (whys.Insane loc.now)) (stage_of_item item.now) }
{
    match &item.body {
        Body::Fault(blame) => is_insane_at(loc, &blame.why) && is_key_of(Some(key), &blame.at),
        Body::Code(_) | Body::Text(_) | Body::Location(_) | Body::Entry(_) => false,
        Body::Compare(_, _) => false,
    }
}

// Whether an item is the fault that a cross-origin import of this location is refused to the text of a key.
fn is_barred(key: &Key, loc: &Loc, item: &Item) -> bool
    ensures { result ≡ are_due_on_one (by_fault (Some key.now) (whys.Cors loc.now)) (stage_of_item item.now) }
{
    match &item.body {
        Body::Fault(blame) => is_barred_at(loc, &blame.why) && is_key_of(Some(key), &blame.at),
        Body::Code(_) | Body::Text(_) | Body::Location(_) | Body::Entry(_) => false,
        Body::Compare(_, _) => false,
    }
}
