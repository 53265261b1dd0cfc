//! An ask: a run from the key of its root, or nothing where that has an outcome.

ghost use Rattle.std.specs.Prelude.{◌≡◌, ◌<◌, ◌≤◌, length, IfOk, IfErr, OnOk, OnErr};
ghost use Rattle.dh_ports.specs.Counts.{Rose};
ghost use Rattle.dh_watch_laws.specs.Kept.{IsSound};
ghost use Rattle.dh_watch_runs.specs.Resolving.{named, AreMore, AsksFor, StaysOver};
ghost use Rattle.dh_watch_laws.specs.Asking.{Asked};
ghost use Rattle.dh_watch_runs.specs.Asks.{ComesTo, IsRefused};
ghost use Rattle.dh_watch_runs.specs.Endings.{LeavesChain};

use crate::deciding::{End, Stop, decide};
use crate::resolving::Resolver;
use crate::trails::Trail;
use std::alloc::Global;

/// To what an ask comes, and how many locations it fetched.
#[derive(Clone, Copy, Debug)]
pub struct Resolution {
    pub end: End,
    pub fetched: usize,
}

/// Resolves the key of this number over what is kept. Where it comes to a loop, the trail is left as the chain of keys that closes it.
pub fn ask<S: Resolver>(
    alloc: Global,
    resolver: &mut S,
    trail: &mut Trail,
    root: u32,
) -> Result<Resolution, Stop>
    requires good { S.is_good resolver.old }
    requires inside { root < length (S.keys resolver.old) }
    requires sound { IsSound (S.kept resolver.old) }
    ensures asked { IfOk result (λ a. Asked (S.kept resolver.old) (named (S.keys resolver.old) root) (S.kept resolver.new) a.fetched) }
    ensures ended { IfOk result (λ a. ComesTo (named (S.keys resolver.old) root) (S.keys resolver.new) (S.kept resolver.new) a.end) }
    ensures chain { IfOk result (λ a. LeavesChain (named (S.keys resolver.old) root) (S.keys resolver.new) (S.kept resolver.new) trail.new a.end) }
    ensures refused { IfErr result (IsRefused (S.kept resolver.old) (named (S.keys resolver.old) root) (S.kept resolver.new)) }
    ensures keys { AreMore (S.keys resolver.old) (S.keys resolver.new) }
    ensures sound { IsSound (S.kept resolver.new) }
    ensures over { StaysOver (S.now resolver.old) (S.kept resolver.old) (S.kept resolver.new) }
    ensures now { S.now resolver.new ≡ S.now resolver.old }
    ensures good { S.is_good resolver.new }
    ensures counted { S.faults resolver.old ≤ S.faults resolver.new }
    ensures quiet { OnOk result (S.faults resolver.new ≡ S.faults resolver.old) }
    ensures failed { IfErr result (λ e. e ≡ Stop.Failed → Rose (S.faults resolver.old) (S.faults resolver.new)) }
    ensures steady { IfErr result (λ e. e ≡ Stop.TooMany → S.faults resolver.new ≡ S.faults resolver.old) }
    ensures asks { OnOk result (AsksFor 0 (S.asked resolver.old) (S.kept resolver.old) (S.asked resolver.new) (S.kept resolver.new)) }
    ensures asks_one { OnErr result (AsksFor 1 (S.asked resolver.old) (S.kept resolver.old) (S.asked resolver.new) (S.kept resolver.new)) }
{
    if resolver.is_known(root) {
        return Ok(Resolution {
            end: End::Decided,
            fetched: 0,
        });
    }
    let before = resolver.texts();
    let end = decide(alloc, resolver, trail, root)?;
    let fetched = resolver.texts() - before;
    Ok(Resolution { end, fetched })
}
