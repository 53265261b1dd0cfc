//! Which task of a key is due, or for which key it waits.

ghost use Rattle.std.specs.Prelude.{◌<◌, All, length};
ghost use Rattle.dh_imports.specs.Resolver as resolver;
ghost use Rattle.dh_imports.specs.Resolver.{of_plan, stage};
ghost use Rattle.dh_demand.specs.Results.{ask_of};
ghost use Rattle.dh_record.specs.Entering.{IsListed};
ghost use Rattle.dh_record.specs.Reading.{record_by, IsRead, IsPlan, IsReach};
ghost use Rattle.dh_record.specs.Rows.{rows_of, key_named};

use crate::kinds::Kind;
use crate::rows::{Entrants, Looks, Texts};
use crate::stage::{Plan, Stage, plan_of, stage_of};

/// What is left to do for a key.
#[derive(Clone, Copy, Debug)]
pub enum Reach {
    /// Its task, of this kind.
    Due(Kind),
    /// It waits for the key of this number.
    Wait(u32),
}

/// What is left to do for the key of this number.
pub fn look_ahead(keys: &Entrants, texts: &Texts<'_>, looks: &Looks<'_>, n: u32) -> Reach
    requires inside { n < length keys.now }
    requires listed { All (IsListed (rows_of keys.now)) keys.now }
    requires read { All (IsRead (rows_of keys.now)) texts.now }
    ensures { IsReach (rows_of keys.now) (key_named keys.now n) (stage (record_by texts.now looks.now) (ask_of (rows_of keys.now)) (key_named keys.now n)) result }
{
    let plan = plan_of(keys, texts, looks, n);
    reach_of(keys, n, plan)
}

/// What is left to do for a key with this plan.
pub fn reach_of(keys: &Entrants, n: u32, plan: Plan<'_>) -> Reach
    requires inside { n < length keys.now }
    requires plan { (p : resolver.Plan) × IsPlan (rows_of keys.now) (key_named keys.now n) p plan }
    ensures { (p : resolver.Plan) → IsPlan (rows_of keys.now) (key_named keys.now n) p plan.entry → IsReach (rows_of keys.now) (key_named keys.now n) (of_plan (ask_of (rows_of keys.now)) (key_named keys.now n) p) result }
{
    match stage_of(keys, n, plan) {
        Stage::Fetch => Reach::Due(Kind::Fetch),
        Stage::Look => Reach::Due(Kind::Look),
        Stage::Finish(_) => Reach::Due(Kind::Finish),
        Stage::Wait(key) => Reach::Wait(key),
    }
}
