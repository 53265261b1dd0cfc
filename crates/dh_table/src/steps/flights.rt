//! Under which serial a task is in flight.

ghost use Rattle.std.specs.Prelude.{◌≡◌, ◌<◌, ℕ, All, IfSome, MatchOption, Some, length, map, reverse};
ghost use Rattle.std.specs.Bool.{Decides};
ghost use Rattle.dh_syntax.specs.Expressions.Numbers.{eq};
ghost use Rattle.dh_imports.specs.Records.{lookup};
ghost use Rattle.dh_table.specs.Inside.Recording.{task_named, IsFlightOf};
ghost use Rattle.dh_table.specs.States.{task_of, flight_of};

use crate::steps::{Flight, Job, is_same_digest, job_of};
use dh_demand::Results;
use dh_record::{Entrants, Kind};
use dh_syntax::{Digest, Key, Loc};
use dh_terms::{is_same_key, is_same_loc};

/// A task, by what it is of.
#[derive(Clone, Copy)]
pub(crate) enum Name<'a> {
    Fetch(&'a Loc),
    Look(&'a Digest),
    Finish(&'a Key),
}

/// The flight of a task: the last one of its serial.
pub(crate) fn flight_at(keys: &Entrants, flights: &[Flight], name: Name<'_>) -> Option<Flight>
    requires named { All (λ (f : Flight). f.job.key < length keys.now) flights.now }
    ensures flies { MatchOption result
        ((serial : ℕ) → ¬ (lookup eq (reverse (map (flight_of keys.now) flights.now)) serial ≡ Some (task_named name.entry)))
        (λ f. IsFlightOf keys.now flights.now (task_named name.entry) f) }
    ensures inside { IfSome result (λ f. f.job.key < length keys.now) }
{
    for flight in flights {
        if is_task(keys, flight.job, name) {
            if let Some(job) = job_of(flights, flight.serial) {
                if is_task(keys, job, name) {
                    return Some(Flight {
                        serial: flight.serial,
                        job,
                    });
                }
            }
        }
    }
    None
}

// Whether a job is this task.
fn is_task(keys: &Entrants, job: Job, name: Name<'_>) -> bool
    requires { job.key < length keys.now }
    ensures { Decides result (task_of keys.now job ≡ task_named name.entry) }
{
    let key = keys.key(job.key);
    match (job.kind, name) {
        (Kind::Fetch, Name::Fetch(loc)) => is_same_loc(&key.loc, loc),
        (Kind::Look, Name::Look(digest)) => is_same_digest(&key.digest, &Some(*digest)),
        (Kind::Finish, Name::Finish(other)) => is_same_key(key, other),
        (Kind::Fetch, Name::Look(_)) | (Kind::Fetch, Name::Finish(_)) => false,
        (Kind::Look, Name::Fetch(_)) | (Kind::Look, Name::Finish(_)) => false,
        (Kind::Finish, Name::Fetch(_)) | (Kind::Finish, Name::Look(_)) => false,
    }
}
