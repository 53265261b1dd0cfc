//! What is left to do for a key, from where the walk of its text is known to come.

ghost use Rattle.std.specs.Prelude.{◌≡◌, ◌<◌, All, List, Option, Some, length, ℕ};
ghost use Rattle.dh_syntax.specs.Expressions.Bridge.{term};
ghost use Rattle.dh_imports.specs.Resolver.{of_walk, stage};
ghost use Rattle.dh_imports.specs.Walk.{walk};
ghost use Rattle.dh_demand.specs.Headways.{IsHeadway};
ghost use Rattle.dh_demand.specs.Results.{ask_of};
ghost use Rattle.dh_demand.specs.Scans.{Fits, text_key};
ghost use Rattle.dh_record.specs.Entering.{IsListed};
ghost use Rattle.dh_record.specs.Reading.{record_by, IsRead, IsReach};
ghost use Rattle.dh_record.specs.Rows.{key_named, rows_of};
ghost use Rattle.dh_record.specs.Ways.{IsWay};

use crate::kinds::Kind;
use crate::rows::{Entrants, Looks, Texts};
use crate::stage::{Plan, Reach, plan_of, reach_of};
use dh_demand::{Headway, Next, Results, Scan, next_from};
use dh_syntax::Key;

/// What is left to do for the key of this number, as [`crate::look_ahead`] says it, where the walk of its text is known to come so far;
/// and how far it comes then.
pub fn look_on(
    keys: &Entrants,
    texts: &Texts<'_>,
    looks: &Looks<'_>,
    n: u32,
    way: Headway,
) -> (Reach, Headway)
    requires inside { n < length keys.now }
    requires listed { All (IsListed (rows_of keys.now)) keys.now }
    requires read { All (IsRead (rows_of keys.now)) texts.now }
    requires way { IsWay (record_by texts.now looks.now) (ask_of (rows_of keys.now)) (key_named keys.now n) way }
    ensures reach { IsReach (rows_of keys.now) (key_named keys.now n) (stage (record_by texts.now looks.now) (ask_of (rows_of keys.now)) (key_named keys.now n)) result.0 }
    ensures way { IsWay (record_by texts.now looks.now) (ask_of (rows_of keys.now)) (key_named keys.now n) result.1 }
{
    let plan = plan_of(keys, texts, looks, n);
    match plan {
        Plan::Walk(scan, _allow) => walk_on(keys, keys.key(n), scan, way),
        Plan::Fetch | Plan::Look | Plan::Now(_) | Plan::Ask(_) => {
            (reach_of(keys, n, plan), Headway::Unknown)
        }
    }
}

// How a key whose text is walked goes on, and how far the walk is then known to come.
fn walk_on(keys: &Entrants, key: &Key, scan: &Scan, way: Headway) -> (Reach, Headway)
    requires fits { Fits (Some key.now.loc) (rows_of keys.now) (term scan.now.expr) scan.now.edges }
    requires way { IsHeadway (Some key.now.loc) (ask_of (rows_of keys.now)) (term scan.now.expr) way }
    ensures reach { text_key (Some key.now.loc) ≡ Some key.now → (allow : Option (List ℕ)) →
        IsReach (rows_of keys.now) key.now (of_walk allow (walk (Some key.now) (ask_of (rows_of keys.now)) (term scan.now.expr))) result.0 }
    ensures way { IsHeadway (Some key.now.loc) (ask_of (rows_of keys.now)) (term scan.now.expr) result.1 }
{
    let (next, way) = next_from(scan, Some(&key.loc), keys, way);
    match next {
        Next::Need(other) => (Reach::Wait(other), way),
        Next::Ready => (Reach::Due(Kind::Finish), way),
        Next::Fault(_) => (Reach::Due(Kind::Finish), way),
    }
}
