//! What a walk makes of one import.

ghost use Rattle.std.specs.Prelude.{◌≡◌, ◌<◌, Option, length};
ghost use Rattle.std.specs.Option.{option_copied};
ghost use Rattle.dh_syntax.specs.declared.locations.Key.{Key};
ghost use Rattle.dh_syntax.specs.declared.locations.Loc.{Loc};
ghost use Rattle.dh_syntax.specs.Expressions.Tree.{Term};
ghost use Rattle.dh_imports.specs.Outcomes.{may_go_on};
ghost use Rattle.dh_imports.specs.Walk.{Walked, allowed, walk_key};
ghost use Rattle.dh_demand.specs.Results.{Row, ask_of};
ghost use Rattle.dh_demand.specs.Scans.{IsEdge, text_key};
ghost use Rattle.dh_demand.specs.Nexts.{IsNext, IsInside};
ghost use Rattle.dh_demand.specs.Inside.Going.{goes_on, has_passing_fault};

use crate::ends::Next;
use crate::results::Results;
use crate::scans::Edge;
use dh_imports::{Origin, Outcome, Why};
use dh_paths::cors;
use dh_syntax::{Key, Loc};

/// What a walk in a text at this parent does at an import.
pub(crate) fn visit<R: Results>(edge: Edge, parent: Option<&Loc>, results: &R) -> Next
    requires { edge.key < length (R.rows results.now) }
    ensures next { (k : Key) → IsEdge (option_copied parent.entry) (R.rows results.now) k edge →
        IsNext (option_copied parent.entry) (R.rows results.now) (walk_key (text_key (option_copied parent.entry)) (ask_of (R.rows results.now)) k) result }
    ensures inside { IsInside (R.rows results.now) result }
{
    if !edge.sane {
        return Next::Fault(edge);
    }
    match results.outcome(edge.key) {
        None => Next::Need(edge.key),
        Some(Outcome::Bad(_)) => Next::Fault(edge),
        Some(Outcome::Good { value: _, origin }) => {
            if is_allowed(parent, results.key(edge.key), origin) {
                Next::Ready
            } else {
                Next::Fault(edge)
            }
        }
    }
}

// Whether a text at this parent may read this value.
fn is_allowed(parent: Option<&Loc>, key: &Key, origin: &Origin) -> bool
    ensures { result ≡ allowed (text_key (option_copied parent.entry)) key.now origin.now }
{
    match origin {
        Origin::Fetched(Some(allow)) => cors(parent, &key.loc, Some(allow)),
        Origin::Fetched(None) => cors(parent, &key.loc, None),
        Origin::Cached | Origin::Made => true,
    }
}

/// Whether `l ? r` goes on with `r` after what came of `l`.
pub(crate) fn recovers<R: Results>(next: &Next, results: &R) -> bool
    requires { IsInside (R.rows results.now) next.now }
    ensures { (parent : Option Loc) (w : Walked Term) → IsNext parent (R.rows results.now) w next.now → result ≡ goes_on w }
{
    match next {
        Next::Fault(edge) => edge.sane && has_passing_fault(results.outcome(edge.key)),
        Next::Ready | Next::Need(_) => false,
    }
}

// Whether a key came to a fault after which a run may go on.
fn has_passing_fault(outcome: Option<&Outcome>) -> bool
    ensures { result ≡ has_passing_fault (option_copied outcome.entry) }
{
    match outcome {
        Some(Outcome::Bad(blame)) => may_pass(&blame.why),
        Some(
            Outcome::Good {
                value: _,
                origin: _,
            },
        )
        | None => false,
    }
}

fn may_pass(why: &Why) -> bool
    ensures { result ≡ may_go_on why.now }
{
    match why {
        Why::Absent | Why::Missing | Why::Https => true,
        Why::Differs { wanted: _, got: _ } => true,
        Why::Parse(_) | Why::Typing(_) | Why::Norm(_) | Why::Broken(_) | Why::Failed => false,
        Why::Insane(_) | Why::Cors(_) | Why::Cycle | Why::TooMany => false,
    }
}
