//! A depth-first run from a key, over what is kept.

ghost use Rattle.std.specs.Prelude.{◌≡◌, ◌<◌, ◌≤◌, ℕ, length, map, reverse, if◌then◌else◌, All, None, IfOk, IfErr, OnOk, OnErr};
ghost use Rattle.dh_ports.specs.Counts.{Rose};
ghost use Rattle.dh_watch_laws.specs.Kept.{known, IsSound};
ghost use Rattle.dh_imports.specs.Resolver.{is_in, least_back_to, lesser};
ghost use Rattle.dh_syntax.specs.Imports.Keys.{key_eq};
ghost use Rattle.dh_watch_runs.specs.Resolving.{named, AreMore, AsksFor, HasStopped, HasMany, StaysOver};
ghost use Rattle.dh_watch_runs.specs.Endings.{HasEnded, LeavesChain};

use crate::resolving::{Progress, Refusal, Resolver};
use crate::trails::Trail;
use std::alloc::{AllocError, Global};

/// The most keys that a run may meet.
pub const MOST_KEYS: usize = 4096;

/// How a run ends.
#[derive(Clone, Copy, Debug)]
pub enum End {
    /// The root has an outcome.
    Decided,
    /// It comes to a loop, whose least key has this number.
    Loop(u32),
}

/// Why a run has no end.
#[derive(Clone, Copy, Debug)]
pub enum Stop {
    /// A device failed.
    Failed,
    /// It met too many keys.
    TooMany,
    Memory,
}

impl From<AllocError> for Stop {
    ghost use Rattle.dh_watch_runs.specs.declared.deciding.Stop.TheVariants.{Memory};

    ghost from_gives = { λ _ e. e ≡ Memory };

    fn from(_e: AllocError) -> Stop {
        Stop::Memory
    }
}

impl From<Refusal> for Stop {
    ghost use Rattle.dh_watch_runs.specs.Endings.{stop_of};

    ghost from_gives = { λ r e. e ≡ stop_of r };

    fn from(e: Refusal) -> Stop {
        match e {
            Refusal::Failed => Stop::Failed,
            Refusal::Memory => Stop::Memory,
        }
    }
}

/// Resolves the key of this number depth first, over what is kept: what its trail lacks is fetched, and each outcome that is found is
/// kept. Where it comes to a loop, the trail is left as the chain of keys that closes it.
pub fn decide<S: Resolver>(
    alloc: Global,
    resolver: &mut S,
    trail: &mut Trail,
    root: u32,
) -> Result<End, Stop>
    requires good { S.is_good resolver.old }
    requires inside { root < length (S.keys resolver.old) }
    requires sound { IsSound (S.kept resolver.old) }
    requires open { known (S.kept resolver.old).outcomes (named (S.keys resolver.old) root) ≡ None }
    ensures ended { IfOk result (HasEnded (S.kept resolver.old) (named (S.keys resolver.old) root) (S.keys resolver.new) (S.kept resolver.new)) }
    ensures chain { IfOk result (LeavesChain (named (S.keys resolver.old) root) (S.keys resolver.new) (S.kept resolver.new) trail.new) }
    ensures stopped { IfErr result (λ _. HasStopped (S.kept resolver.old) (named (S.keys resolver.old) root) (S.kept resolver.new)) }
    ensures many { IfErr result (λ e. e ≡ Stop.TooMany → HasMany 4096 (S.kept resolver.old) (named (S.keys resolver.old) root) (S.kept resolver.new)) }
    ensures keys { AreMore (S.keys resolver.old) (S.keys resolver.new) }
    ensures sound { IsSound (S.kept resolver.new) }
    ensures over { StaysOver (S.now resolver.old) (S.kept resolver.old) (S.kept resolver.new) }
    ensures now { S.now resolver.new ≡ S.now resolver.old }
    ensures good { S.is_good resolver.new }
    ensures counted { S.faults resolver.old ≤ S.faults resolver.new }
    ensures quiet { OnOk result (S.faults resolver.new ≡ S.faults resolver.old) }
    ensures failed { IfErr result (λ e. e ≡ Stop.Failed → Rose (S.faults resolver.old) (S.faults resolver.new)) }
    ensures steady { IfErr result (λ e. e ≡ Stop.TooMany → S.faults resolver.new ≡ S.faults resolver.old) }
    ensures asks { OnOk result (AsksFor 0 (S.asked resolver.old) (S.kept resolver.old) (S.asked resolver.new) (S.kept resolver.new)) }
    ensures asks_one { OnErr result (AsksFor 1 (S.asked resolver.old) (S.kept resolver.old) (S.asked resolver.new) (S.kept resolver.new)) }
{
    trail.clear();
    trail.push(root)?;
    let mut found: usize = 0;
    'steps: while let Some(top) = trail.top() {
        match resolver.advance(alloc, top)? {
            Progress::Due => {
                resolver.finish(alloc, top)?;
                trail.pop();
                found += 1;
            }
            Progress::Wait(next) => {
                if meets(resolver, trail.numbers(), next) {
                    return Ok(End::Loop(least_back(resolver, trail.numbers(), next)));
                }
                if found + trail.len() >= MOST_KEYS {
                    return Err(Stop::TooMany);
                }
                trail.push(next)?;
            }
        }
    }
    Ok(End::Decided)
}

/// Whether a key is on a trail.
fn meets<S: Resolver>(resolver: &S, trail: &[u32], at: u32) -> bool
    requires good { S.is_good resolver.now }
    requires inside { at < length (S.keys resolver.now) }
    requires trail { All (λ (n : ℕ). n < length (S.keys resolver.now)) trail.now }
    ensures { result ≡ is_in (named (S.keys resolver.now) at) (map (named (S.keys resolver.now)) trail.now) }
{
    match trail {
        [] => false,
        [n, rest @ ..] => resolver.is_same(*n, at) || meets(resolver, rest, at),
    }
}

/// The least key of a trail from its latest back to this one.
fn least_back<S: Resolver>(resolver: &S, trail: &[u32], at: u32) -> u32
    requires good { S.is_good resolver.now }
    requires inside { at < length (S.keys resolver.now) }
    requires trail { All (λ (n : ℕ). n < length (S.keys resolver.now)) trail.now }
    ensures inside { result < length (S.keys resolver.now) }
    ensures least { named (S.keys resolver.now) result ≡ least_back_to (named (S.keys resolver.now) at) (reverse (map (named (S.keys resolver.now)) trail.now)) }
{
    let mut least = at;
    for n in trail {
        least = lesser_back(resolver, *n, least, at);
    }
    least
}

// The lesser of a key and the least so far, which begins anew where the trail comes to the key at its end.
fn lesser_back<S: Resolver>(resolver: &S, n: u32, least: u32, at: u32) -> u32
    requires good { S.is_good resolver.now }
    requires inside { n < length (S.keys resolver.now) }
    requires least_inside { least < length (S.keys resolver.now) }
    requires at_inside { at < length (S.keys resolver.now) }
    ensures inside { result < length (S.keys resolver.now) }
    ensures lesser { named (S.keys resolver.now) result ≡ (if key_eq (named (S.keys resolver.now) n) (named (S.keys resolver.now) at) then named (S.keys resolver.now) at else lesser (named (S.keys resolver.now) n) (named (S.keys resolver.now) least)) }
{
    if resolver.is_same(n, at) {
        at
    } else if resolver.is_at_most(n, least) {
        n
    } else {
        least
    }
}
