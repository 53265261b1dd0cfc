//! What is left to do for a key, with what its last step is due on.

ghost use Rattle.std.specs.Prelude.{◌≡◌, ◌<◌, List, ℕ, Option, Some, All, IfSome, length};
ghost use Rattle.std.specs.Option.{option_copied, option_map};
ghost use Rattle.dh_syntax.specs.declared.locations.Key.{Key};
ghost use Rattle.dh_syntax.specs.declared.locations.Loc.{Loc};
ghost use Rattle.dh_syntax.specs.Expressions.Bridge.{term};
ghost use Rattle.dh_syntax.specs.Expressions.Spellable.{IsSpellable};
ghost use Rattle.dh_syntax.specs.Expressions.Tree.{Term};
ghost use Rattle.dh_imports.specs.Outcomes.{plain};
ghost use Rattle.dh_imports.specs.Resolver as resolver;
ghost use Rattle.dh_imports.specs.Resolver.{of_bare, of_plan, of_walk, stage};
ghost use Rattle.dh_imports.specs.Walk.{Walked, walk};
ghost use Rattle.dh_demand.specs.Nexts.{IsNext};
ghost use Rattle.dh_demand.specs.Results.{Row, ask_of, number_of};
ghost use Rattle.dh_demand.specs.Scans.{Fits, text_key};
ghost use Rattle.dh_record.specs.Due.{AreSpelled, IsBlame, IsValued};
ghost use Rattle.dh_record.specs.Dues.{blame_by, IsFitPlan, IsFitStage, IsStage};
ghost use Rattle.dh_record.specs.Entering.{IsListed};
ghost use Rattle.dh_record.specs.Reading.{record_by, IsPlan, IsRead, IsWalk};
ghost use Rattle.dh_record.specs.Rows.{key_named, rows_of};
ghost use Rattle.dh_record.specs.Values.{HasValue};

use crate::rows::{Entrants, Looks, Texts};
use crate::stage::{Due, Plan, Reason, plan_of};
use dh_demand::{Edge, Next, Results, Scan, next};
use dh_imports::Outcome;
use dh_syntax::{Bytes, Key};

/// What is left to do for a key.
#[derive(Clone, Copy)]
pub enum Stage<'a> {
    /// Its text is to be fetched.
    Fetch,
    /// The cache is to be looked into, under its digest.
    Look,
    /// Its last step is due, on this.
    Finish(Due<'a>),
    /// It waits for the key of this number.
    Wait(u32),
}

/// What is left to do for the key of this number.
pub fn stage_at<'a>(keys: &'a Entrants, texts: &Texts<'a>, looks: &Looks<'a>, n: u32) -> Stage<'a>
    requires inside { n < length keys.now }
    requires listed { All (IsListed (rows_of keys.now)) keys.now }
    requires read { All (IsRead (rows_of keys.now)) texts.now }
    ensures stage { IsStage (rows_of keys.now) (key_named keys.now n) (stage (record_by texts.now looks.now) (ask_of (rows_of keys.now)) (key_named keys.now n)) result }
    ensures fit { All IsValued keys.now → AreSpelled texts.now → IsFitStage result }
{
    let plan = plan_of(keys, texts, looks, n);
    stage_of(keys, n, plan)
}

/// What is left to do for the key of this number, which has this plan.
pub fn stage_of<'a>(keys: &'a Entrants, n: u32, plan: Plan<'a>) -> Stage<'a>
    requires inside { n < length keys.now }
    requires plan { (p : resolver.Plan) × IsPlan (rows_of keys.now) (key_named keys.now n) p plan }
    ensures stage { (p : resolver.Plan) → IsPlan (rows_of keys.now) (key_named keys.now n) p plan.entry →
        IsStage (rows_of keys.now) (key_named keys.now n) (of_plan (ask_of (rows_of keys.now)) (key_named keys.now n) p) result }
    ensures fit { All IsValued keys.now → IsFitPlan plan.entry → IsFitStage result }
{
    match plan {
        Plan::Fetch => Stage::Fetch,
        Plan::Look => Stage::Look,
        Plan::Now(due) => Stage::Finish(due),
        Plan::Walk(scan, allow) => walked(keys, keys.key(n), scan, allow),
        Plan::Ask(key) => bare_stage(keys.outcome(key), key),
    }
}

// The stage of a key whose text is walked.
fn walked<'a>(keys: &'a Entrants, key: &Key, scan: &'a Scan, allow: &'a Option<Bytes>) -> Stage<'a>
    requires { Fits (Some key.now.loc) (rows_of keys.now) (term scan.now.expr) scan.now.edges }
    ensures stage { text_key (Some key.now.loc) ≡ Some key.now → IsStage (rows_of keys.now) key.now (of_walk allow.now (walk (Some key.now) (ask_of (rows_of keys.now)) (term scan.now.expr))) result }
    ensures fit { IsSpellable (term scan.now.expr) → IsFitStage result }
{
    match next(scan, Some(&key.loc), keys) {
        Next::Need(other) => Stage::Wait(other),
        Next::Ready => Stage::Finish(Due::Code(scan, allow)),
        Next::Fault(edge) => Stage::Finish(Due::Fault(reason_at(keys, edge))),
    }
}

// The stage of a key that asks the one without digest, of this number and with this outcome.
fn bare_stage<'a>(outcome: Option<&'a Outcome>, number: u32) -> Stage<'a>
    ensures stage { (rows : List Row) (k j : Key) → number_of rows j ≡ Some number → IsStage rows k (of_bare j (option_map plain (option_copied outcome.entry))) result }
    ensures fit { IfSome (option_copied outcome.entry) HasValue → IsFitStage result }
{
    match outcome {
        None => Stage::Wait(number),
        Some(Outcome::Good { value, origin }) => Stage::Finish(Due::Compare(value, origin)),
        Some(Outcome::Bad(blame)) => Stage::Finish(Due::Fault(Reason::Import(blame))),
    }
}

/// The fault at which a walk ends, whose import this is; of a loop that of its least key.
pub fn reason_at<'a>(keys: &'a Entrants, edge: Edge) -> Reason<'a>
    requires inside { edge.key < length keys.now }
    requires ends { (parent : Option Loc) × (w : Walked Term) × IsNext parent (rows_of keys.now) w (Next.Fault edge) }
    ensures { (parent : Option Loc) (w : Walked Term) → IsNext parent (rows_of keys.now) w (Next.Fault edge) → IsBlame w (blame_by (text_key parent) result) }
{
    let loc = &keys.key(edge.key).loc;
    if !edge.sane {
        return Reason::Insane(loc);
    }
    match keys.outcome(edge.key) {
        Some(Outcome::Bad(blame)) => Reason::Import(blame),
        Some(
            Outcome::Good {
                value: _,
                origin: _,
            },
        ) => Reason::Cors(loc),
        None => unreachable!(),
    }
}
