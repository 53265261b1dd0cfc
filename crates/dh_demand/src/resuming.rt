//! What a walk does next, from where it is known to come.

ghost use Rattle.std.specs.Prelude.{◌≡◌, ◌≤◌, List, length, true};
ghost use Rattle.std.specs.Option.{option_copied};
ghost use Rattle.dh_syntax.specs.declared.locations.Key.{Key};
ghost use Rattle.dh_syntax.specs.Expressions.Bridge.{term};
ghost use Rattle.dh_imports.specs.Walk.{walk, keys_of};
ghost use Rattle.dh_demand.specs.Headways.{ArePassed, IsHeadway, is_straight};
ghost use Rattle.dh_demand.specs.Nexts.{IsNext, IsInside};
ghost use Rattle.dh_demand.specs.Results.{ask_of};
ghost use Rattle.dh_demand.specs.Scans.{AreInside, Begins, Fits, imports, text_key};
ghost use Rattle.dh_demand.specs.Inside.Walking.{in_turn};

use crate::ends::Next;
use crate::headways::{Headway, is_straight};
use crate::nexts::next;
use crate::results::Results;
use crate::scans::{Edge, Scan};
use crate::skips::skip;
use crate::visits::visit;
use dh_syntax::Loc;

/// What the walk of a text at this parent does next, as [`next`] says it, where it is known to come so far; and how far it comes then.
/// In a text without `?` an import that was passed is not looked at again: so all calls together pass each of them once.
pub fn next_from<R: Results>(
    scan: &Scan,
    parent: Option<&Loc>,
    results: &R,
    way: Headway,
) -> (Next, Headway)
    requires fits { Fits (option_copied parent) (R.rows results.now) (term scan.now.expr) scan.now.edges }
    requires way { IsHeadway (option_copied parent) (ask_of (R.rows results.now)) (term scan.now.expr) way }
    ensures next { IsNext (option_copied parent.entry) (R.rows results.now) (walk (text_key (option_copied parent.entry)) (ask_of (R.rows results.now)) (term scan.now.expr)) result.0 }
    ensures inside { IsInside (R.rows results.now) result.0 }
    ensures way { IsHeadway (option_copied parent.entry) (ask_of (R.rows results.now)) (term scan.now.expr) result.1 }
{
    match way {
        Headway::Straight { imports, passed } => next_past(scan, parent, results, imports, passed),
        Headway::Branching => (next(scan, parent, results), Headway::Branching),
        Headway::Unknown => {
            if is_straight(&scan.expr) {
                next_past(scan, parent, results, import_count(scan), 0)
            } else {
                (next(scan, parent, results), Headway::Branching)
            }
        }
    }
}

// How many imports a text has.
fn import_count(scan: &Scan) -> usize
    requires { imports (term scan.now.expr) ≤ length scan.now.edges }
    ensures { result ≡ imports (term scan.now.expr) }
{
    let edges = scan.edges.as_slice();
    edges.len() - skip(&scan.expr, edges).len()
}

// What the walk of a text without `?` does next, where so many of its imports are passed.
fn next_past<R: Results>(
    scan: &Scan,
    parent: Option<&Loc>,
    results: &R,
    count: usize,
    passed: usize,
) -> (Next, Headway)
    requires fits { Fits (option_copied parent) (R.rows results.now) (term scan.now.expr) scan.now.edges }
    requires straight { is_straight (term scan.now.expr) ≡ true }
    requires count { count ≡ imports (term scan.now.expr) }
    requires passed { ArePassed (text_key (option_copied parent)) (ask_of (R.rows results.now)) passed (keys_of (option_copied parent) (term scan.now.expr)) }
    ensures next { IsNext (option_copied parent.entry) (R.rows results.now) (walk (text_key (option_copied parent.entry)) (ask_of (R.rows results.now)) (term scan.now.expr)) result.0 }
    ensures inside { IsInside (R.rows results.now) result.0 }
    ensures way { IsHeadway (option_copied parent.entry) (ask_of (R.rows results.now)) (term scan.now.expr) result.1 }
{
    let (next, passed) = next_of(scan.edges.as_slice(), count, passed, parent, results);
    (
        next,
        Headway::Straight {
            imports: count,
            passed,
        },
    )
}

// What comes next at the first so many imports, of which so many are passed; and how many are passed then.
fn next_of<R: Results>(
    edges: &[Edge],
    count: usize,
    passed: usize,
    parent: Option<&Loc>,
    results: &R,
) -> (Next, usize)
    requires inside { AreInside (R.rows results.now) edges.now }
    requires count { count ≤ length edges.now }
    ensures next { (ks : List Key) → Begins (option_copied parent.entry) (R.rows results.now) ks edges.now → length ks ≡ count →
        ArePassed (text_key (option_copied parent.entry)) (ask_of (R.rows results.now)) passed ks →
        IsNext (option_copied parent.entry) (R.rows results.now) (in_turn (text_key (option_copied parent.entry)) (ask_of (R.rows results.now)) ks) result.0 }
    ensures passed { (ks : List Key) → Begins (option_copied parent.entry) (R.rows results.now) ks edges.now → length ks ≡ count →
        ArePassed (text_key (option_copied parent.entry)) (ask_of (R.rows results.now)) passed ks →
        ArePassed (text_key (option_copied parent.entry)) (ask_of (R.rows results.now)) result.1 ks }
    ensures inside { IsInside (R.rows results.now) result.0 }
{
    let mut passed = passed;
    'imports: while passed < count {
        match visit(edges[passed], parent, results) {
            Next::Ready => passed += 1,
            Next::Need(key) => return (Next::Need(key), passed),
            Next::Fault(edge) => return (Next::Fault(edge), passed),
        }
    }
    (Next::Ready, passed)
}
