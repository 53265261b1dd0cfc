//! The search for an open task: from the keys that the root wants to those to which they lead. What it finds of them is kept for
//! the next one, which looks only at those that may have a task.

ghost use Rattle.std.specs.Prelude.{◌≡◌, ◌<◌, ◌≤◌, ◌^◌, ℕ, List, All, None, Some, MatchOption, length, slice_set, sum_by};
ghost use Rattle.dh_syntax.specs.Expressions.Bridge.{term};
ghost use Rattle.dh_imports.specs.Machine.{State, outcome_of};
ghost use Rattle.dh_demand.specs.Scans.{Fits};
ghost use Rattle.dh_record.specs.Entering.{AreDistinct, IsListed, keys_in};
ghost use Rattle.dh_table.specs.Inside.Piling.{number_at};
ghost use Rattle.dh_record.specs.Reading.{IsRead};
ghost use Rattle.dh_table.specs.Inside.Searching.{Stands, HasRoom, IsExploredBy, IsFound, IsSearched, IsTried, Knows, left_to_see, no_hole};
ghost use Rattle.dh_record.specs.Rows.{rows_of, key_named};
ghost use Rattle.dh_record.specs.declared.rows.recorded.Look.{Look};
ghost use Rattle.dh_record.specs.declared.rows.recorded.Text.{Text};

use crate::search::{Explored, HELD, READY, lead, pour, put_wanted, waiters};
use crate::steps::{Flight, Job, flies};
use dh_demand::{Results, Scan};
use dh_record::{Entrants, Looks, Reach, Texts, plan_of, reach_of};

/// What a look at the next key came to.
#[derive(Clone, Copy, Debug)]
enum Tried {
    /// It has an open task.
    Open(Job),
    /// It has none.
    Further,
    /// There is no such key.
    Nothing,
}

/// An open task; `None` exactly where none is open. It looks at the wanted keys that are not known to wait, and takes no memory.
pub(crate) fn find_open(
    root: &Scan,
    keys: &Entrants,
    texts: &Texts<'_>,
    looks: &Looks<'_>,
    flights: &[Flight],
    explored: &mut Explored,
) -> Option<Job>
    requires root { Fits None (rows_of keys.now) (term root.now.expr) root.now.edges }
    requires listed { All (IsListed (rows_of keys.now)) keys.now }
    requires read { All (IsRead (rows_of keys.now)) texts.now }
    requires named { All (λ (f : Flight). f.job.key < length keys.now) flights.now }
    requires few { length keys.now ≤ 2 ^ 32 }
    requires distinct { AreDistinct (keys_in keys.now) }
    requires room { HasRoom (length keys.now) explored.old }
    ensures found { (s : State) → s.root ≡ term root.now.expr → Stands keys.now texts.now looks.now flights.now s → Knows s keys.now explored.old → IsFound s keys.now result }
    ensures knows { (s : State) → s.root ≡ term root.now.expr → Stands keys.now texts.now looks.now flights.now s → Knows s keys.now explored.old → Knows s keys.now explored.new }
    ensures room { HasRoom (length keys.now) explored.new }
{
    begin(root, keys, explored);
    pour(&mut explored.piles, HELD, READY);
    'keys: loop {
        match try_next(keys, texts, looks, flights, explored) {
            Tried::Open(job) => return Some(job),
            Tried::Nothing => return None,
            Tried::Further => {}
        }
    }
}

// Where nothing is known: puts the keys that the root wants on the pile of those to look at.
fn begin(root: &Scan, keys: &Entrants, explored: &mut Explored)
    requires root { Fits None (rows_of keys.now) (term root.now.expr) root.now.edges }
    requires room { HasRoom (length keys.now) explored.old }
    ensures explored { (texts : List Text) (looks : List Look) (flights : List Flight) (s : State) → s.root ≡ term root.now.expr → Stands keys.now texts looks flights s →
        Knows s keys.now explored.old → IsExploredBy s keys.now explored.new }
    ensures room { HasRoom (length keys.now) explored.new }
{
    if explored.known {
        return;
    }
    explored.clear();
    put_wanted(root, None, keys, explored);
}

// Looks at the next key.
fn try_next(
    keys: &Entrants,
    texts: &Texts<'_>,
    looks: &Looks<'_>,
    flights: &[Flight],
    explored: &mut Explored,
) -> Tried
    requires listed { All (IsListed (rows_of keys.now)) keys.now }
    requires read { All (IsRead (rows_of keys.now)) texts.now }
    requires named { All (λ (f : Flight). f.job.key < length keys.now) flights.now }
    requires few { length keys.now ≤ 2 ^ 32 }
    requires distinct { AreDistinct (keys_in keys.now) }
    requires room { HasRoom (length keys.now) explored.old }
    ensures tried { (s : State) → Stands keys.now texts.now looks.now flights.now s → IsSearched s keys.now flights.now no_hole explored.old.piles →
        IsTried s keys.now flights.now explored.new.piles result }
    ensures falls { result ≡ Tried.Further → left_to_see explored.new.piles < left_to_see explored.old.piles }
    ensures room { HasRoom (length keys.now) explored.new }
{
    let Some(n) = explored.piles.pop(READY) else {
        return Tried::Nothing;
    };
    if n >= keys.len() {
        return Tried::Further;
    }
    let n = n as u32;
    match keys.outcome(n) {
        Some(_) => Tried::Further,
        None => see(keys, texts, looks, flights, n, explored),
    }
}

// Sees an undecided key that was taken from its pile: puts it on another, with the keys to which it leads. Answers its task where
// that is due and not in flight. A key with no task waits for any of those to which it leads, and not for the one that its walk
// needs next: else a text of many imports would be walked again after each of them.
fn see(
    keys: &Entrants,
    texts: &Texts<'_>,
    looks: &Looks<'_>,
    flights: &[Flight],
    n: u32,
    explored: &mut Explored,
) -> Tried
    requires inside { n < length keys.now }
    requires listed { All (IsListed (rows_of keys.now)) keys.now }
    requires read { All (IsRead (rows_of keys.now)) texts.now }
    requires named { All (λ (f : Flight). f.job.key < length keys.now) flights.now }
    requires room { HasRoom (length keys.now) explored.old }
    requires taken { number_at explored.old.piles n ≡ 1 }
    ensures tried { (s : State) → Stands keys.now texts.now looks.now flights.now s → outcome_of s (key_named keys.now n) ≡ None → IsSearched s keys.now flights.now (λ m. m ≡ n) explored.old.piles →
        IsTried s keys.now flights.now explored.new.piles result }
    ensures falls { result ≡ Tried.Further → left_to_see explored.new.piles ≤ left_to_see explored.old.piles }
    ensures room { HasRoom (length keys.now) explored.new }
{
    let plan = plan_of(keys, texts, looks, n);
    match reach_of(keys, n, plan) {
        Reach::Wait(by) => {
            let other = lead(keys, n, plan, by, explored);
            explored.piles.push(waiters(other), n as usize);
            Tried::Further
        }
        Reach::Due(kind) => {
            let job = Job { kind, key: n };
            if flies(keys, flights, job) {
                explored.piles.push(HELD, n as usize);
                Tried::Further
            } else {
                explored.piles.push(READY, n as usize);
                Tried::Open(job)
            }
        }
    }
}
