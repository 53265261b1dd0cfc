//! What is recorded for a key, before any outcome.

ghost use Rattle.std.specs.Prelude.{◌≡◌, ◌<◌, false, List, All, Some, None, length, map, reverse, IfOk};
ghost use Rattle.std.specs.Option.{option_copied, option_map};
ghost use Rattle.dh_syntax.specs.declared.locations.Key.{Key};
ghost use Rattle.dh_syntax.specs.Expressions.SameTree.{digest_eq};
ghost use Rattle.dh_syntax.specs.Imports.Keys.{bare};
ghost use Rattle.dh_imports.specs.Records.{lookup};
ghost use Rattle.dh_imports.specs.Resolver as resolver;
ghost use Rattle.dh_imports.specs.Resolver.{plan_fetch, plan_found, plan_look, plan_mode, plan_parsed, plan_text, unfetched};
ghost use Rattle.dh_demand.specs.Results.{Row, number_of};
ghost use Rattle.dh_demand.specs.Scans.{text_key};
ghost use Rattle.dh_record.specs.Due.{AreSpelled, IsSpelled, term_read};
ghost use Rattle.dh_record.specs.Dues.{why_by, IsFitPlan};
ghost use Rattle.dh_record.specs.Entering.{IsListed};
ghost use Rattle.dh_record.specs.Reading.{noted_of, record_by, IsReadAt, IsRead, IsPlan, IsScan};
ghost use Rattle.dh_record.specs.Rows.{rows_of, look_of, key_named};
ghost use Rattle.dh_record.specs.declared.rows.recorded.Look.{Look};
ghost use Rattle.dh_syntax.specs.Expressions.Spellable.{IsSpellable};

use crate::entries::Seen;
use crate::news::Noted;
use crate::rows::{Entrants, Looks, Text, Texts, look_at, text_at};
use crate::stage::{Due, OwnFault, Reason};
use dh_demand::Scan;
use dh_ports::{Found, Got};
use dh_syntax::{Bytes, Digest, Key, Loc, Mode, ParseFault};

/// What is recorded for a key.
#[derive(Clone, Copy)]
pub enum Plan<'a> {
    /// Its text is not recorded.
    Fetch,
    /// The look under its digest is not recorded.
    Look,
    /// All that its last step takes is there.
    Now(Due<'a>),
    /// Its text, to be walked, and the allowed origin of the text.
    Walk(&'a Scan, &'a Option<Bytes>),
    /// The number of the key without digest, which is asked.
    Ask(u32),
}

/// What is recorded for the key of this number.
pub fn plan_of<'a>(keys: &Entrants, texts: &Texts<'a>, looks: &Looks<'a>, n: u32) -> Plan<'a>
    requires inside { n < length keys.now }
    requires listed { All (IsListed (rows_of keys.now)) keys.now }
    requires read { All (IsRead (rows_of keys.now)) texts.now }
    ensures plan { IsPlan (rows_of keys.now) (key_named keys.now n) (resolver.plan (record_by texts.now looks.now) (key_named keys.now n)) result }
    ensures fit { AreSpelled texts.now → IsFitPlan result }
{
    let entrant = &keys.as_slice()[n as usize];
    match entrant.key.digest {
        Some(digest) => plan_frozen(looks, digest, entrant.unfrozen),
        None => plan_unfrozen(texts, &entrant.key),
    }
}

// The plan of a key with this digest, by the number of the same key without it.
fn plan_frozen<'a>(looks: &Looks<'a>, digest: Digest, unfrozen: u32) -> Plan<'a>
    ensures plan { (rows : List Row) (k : Key) → k.digest ≡ Some digest → number_of rows (bare k) ≡ Some unfrozen →
        IsPlan rows k (plan_look k digest (lookup digest_eq (reverse (map look_of looks.now)) digest)) result }
    ensures fit { IsFitPlan result }
{
    match look_at(looks, &digest) {
        None => Plan::Look,
        Some(look) => match &look.look {
            Seen::Good(entry) => Plan::Now(Due::Entry(entry)),
            Seen::Miss | Seen::Failed => Plan::Ask(unfrozen),
        },
    }
}

// The plan of a key without digest.
fn plan_unfrozen<'a>(texts: &Texts<'a>, key: &Key) -> Plan<'a>
    ensures plan { (rows : List Row) (looks : List Look) → key.now.digest ≡ None → All (IsRead rows) texts.now →
        IsPlan rows key.now (plan_mode (record_by texts.now looks) key.now key.now.mode) result }
    ensures fit { AreSpelled texts.now → IsFitPlan result }
{
    match key.mode {
        Mode::Location => Plan::Now(Due::Location),
        Mode::Text => plan_fetched(texts, &key.loc, true),
        Mode::Code => plan_fetched(texts, &key.loc, false),
    }
}

// The plan of a key at a location that is read as text or as code.
fn plan_fetched<'a>(texts: &Texts<'a>, loc: &Loc, as_text: bool) -> Plan<'a>
    ensures plan { (rows : List Row) (looks : List Look) (k : Key) → k.loc ≡ loc.now → (as_text ≡ false → text_key (Some k.loc) ≡ Some k) → All (IsRead rows) texts.now →
        IsPlan rows k (plan_fetch (record_by texts.now looks) k as_text (unfetched k.loc)) result }
    ensures fit { AreSpelled texts.now → IsFitPlan result }
{
    match unfetched(loc) {
        Some(fault) => faulty(fault),
        None => match text_at(texts, loc) {
            None => Plan::Fetch,
            Some(text) => plan_text(text, as_text),
        },
    }
}

// Why a location is never fetched.
fn unfetched(loc: &Loc) -> Option<OwnFault>
    ensures { option_map why_by result ≡ unfetched loc.now }
{
    match loc {
        Loc::Missing => Some(OwnFault::Missing),
        Loc::Https(_) => Some(OwnFault::Https),
        Loc::Abs(_) | Loc::Here(_) | Loc::Parent(_) | Loc::Home(_) => None,
        Loc::Http(_) | Loc::Env(_) => None,
    }
}

// The plan of a key that has this fault itself.
fn faulty<'a>(fault: OwnFault) -> Plan<'a>
    ensures plan { (rows : List Row) (k : Key) → IsPlan rows k (resolver.faulty k (why_by fault)) result }
    ensures fit { IsFitPlan result }
{
    Plan::Now(Due::Fault(Reason::Own(fault)))
}

// The plan of a key by the text at its location.
fn plan_text<'a>(text: &'a Text, as_text: bool) -> Plan<'a>
    ensures plan { (rows : List Row) (k : Key) → IsReadAt rows k.loc text.now → (as_text ≡ false → text_key (Some k.loc) ≡ Some k) →
        IsPlan rows k (plan_text k as_text (Some (noted_of text.now))) result }
    ensures fit { IsSpelled (noted_of text.now) → IsFitPlan result }
{
    match &text.got {
        Noted::Failed => faulty(OwnFault::Failed),
        Noted::Got(got) => match got {
            Got::Absent => faulty(OwnFault::Absent),
            Got::Broken(status) => faulty(OwnFault::Broken(*status)),
            Got::Found(found) => match &text.read {
                None => faulty(OwnFault::Failed),
                Some(read) => plan_found(found, read, as_text),
            },
        },
    }
}

// The plan of a key for which this was found.
fn plan_found<'a>(found: &'a Found, read: &'a Result<Scan, ParseFault>, as_text: bool) -> Plan<'a>
    ensures plan { (rows : List Row) (k : Key) → IsScan rows k.loc (Some read.now) → (as_text ≡ false → text_key (Some k.loc) ≡ Some k) →
        IsPlan rows k (plan_found k as_text found.now.bytes found.now.allow (term_read read.now)) result }
    ensures fit { IfOk (term_read read.now) IsSpellable → IsFitPlan result }
{
    if as_text {
        Plan::Now(Due::Text(found))
    } else {
        plan_parsed(found, read)
    }
}

// The plan of a key whose found bytes parse to this.
fn plan_parsed<'a>(found: &'a Found, read: &'a Result<Scan, ParseFault>) -> Plan<'a>
    ensures plan { (rows : List Row) (k : Key) → text_key (Some k.loc) ≡ Some k → IsScan rows k.loc (Some read.now) →
        IsPlan rows k (plan_parsed k found.now.allow (term_read read.now)) result }
    ensures fit { IfOk (term_read read.now) IsSpellable → IsFitPlan result }
{
    match read {
        Ok(scan) => Plan::Walk(scan, &found.allow),
        Err(fault) => faulty(OwnFault::Parse(*fault)),
    }
}
