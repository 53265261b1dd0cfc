//! Which tasks are in flight.

ghost use Rattle.std.specs.Prelude.{◌≡◌, ◌<◌, ◌≤◌, ℕ, List, All, IfSome, MatchBool, length, map, reverse, Contains};
ghost use Rattle.std.specs.Bool.{Decides};
ghost use Rattle.std.specs.Option.{option_map};
ghost use Rattle.dh_syntax.specs.Expressions.Numbers.{eq};
ghost use Rattle.dh_syntax.specs.Expressions.SameTree.{digest_eq};
ghost use Rattle.dh_imports.specs.Records.{lookup};
ghost use Rattle.dh_record.specs.declared.rows.recorded.Entrant.{Entrant};
ghost use Rattle.dh_table.specs.Inside.Searching.{Flies};
ghost use Rattle.dh_record.specs.Rows.{digest_or_none};
ghost use Rattle.dh_table.specs.States.{task_of, flight_of};

use crate::steps::{Flight, Job};
use dh_demand::Results;
use dh_record::{Entrants, Kind};
use dh_syntax::Digest;
use dh_terms::{is_same_key, is_same_loc};

/// Whether the task of a job is in flight.
pub(crate) fn flies(keys: &Entrants, flights: &[Flight], job: Job) -> bool
    requires inside { job.key < length keys.now }
    requires named { All (λ (f : Flight). f.job.key < length keys.now) flights.now }
    ensures { MatchBool result (Flies keys.now flights.now (task_of keys.now job)) (¬ Flies keys.now flights.now (task_of keys.now job)) }
{
    for flight in flights {
        if is_same_task(keys, flight.job, job) {
            if let Some(own) = job_of(flights, flight.serial) {
                if is_same_task(keys, own, job) {
                    return true;
                }
            }
        }
    }
    false
}

// Whether two jobs are one task.
fn is_same_task(keys: &Entrants, a: Job, b: Job) -> bool
    requires left { a.key < length keys.now }
    requires right { b.key < length keys.now }
    ensures { Decides result (task_of keys.now a ≡ task_of keys.now b) }
{
    let left = keys.key(a.key);
    let right = keys.key(b.key);
    match (a.kind, b.kind) {
        (Kind::Fetch, Kind::Fetch) => is_same_loc(&left.loc, &right.loc),
        (Kind::Look, Kind::Look) => is_same_digest(&left.digest, &right.digest),
        (Kind::Finish, Kind::Finish) => is_same_key(left, right),
        (Kind::Fetch, Kind::Look) | (Kind::Fetch, Kind::Finish) => false,
        (Kind::Look, Kind::Fetch) | (Kind::Look, Kind::Finish) => false,
        (Kind::Finish, Kind::Fetch) | (Kind::Finish, Kind::Look) => false,
    }
}

// The bytes of a digest, and none without one.
fn digest_bytes(digest: &Option<Digest>) -> &[u8]
    ensures { result.now ≡ (digest_or_none digest.now).0 }
{
    match digest {
        Some(digest) => &digest.0,
        None => &[],
    }
}

/// Whether two digests have the same bytes; no digest has none.
pub(crate) fn is_same_digest(d: &Option<Digest>, e: &Option<Digest>) -> bool
    ensures { result ≡ digest_eq (digest_or_none d.now) (digest_or_none e.now) }
{
    digest_bytes(d) == digest_bytes(e)
}

/// The task in flight under a serial: the last one.
pub(crate) fn job_of(flights: &[Flight], serial: u64) -> Option<Job>
    ensures task { (keys : List Entrant) → option_map (task_of keys) result ≡ lookup eq (reverse (map (flight_of keys) flights.now)) serial }
    ensures inside { (n : ℕ) → All (λ (f : Flight). f.job.key < n) flights.now → IfSome result (λ j. j.key < n) }
    ensures among { IfSome result (λ j. (f : Flight) × Contains flights.now f × (f.job ≡ j)) }
{
    let mut found = None;
    for flight in flights {
        if flight.serial == serial {
            found = Some(flight.job);
        }
    }
    found
}
