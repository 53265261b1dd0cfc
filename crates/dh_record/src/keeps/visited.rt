//! The keys that are asked on the way from a ready root.

ghost use Rattle.std.specs.Prelude.{◌≡◌, ◌<◌, ◌≤◌, ◌^◌, ℕ, All, None, true, false, length, slice_set};
ghost use Rattle.dh_syntax.specs.Expressions.Bridge.{term};
ghost use Rattle.dh_imports.specs.Keeps.{asked_by};
ghost use Rattle.dh_imports.specs.Resolver as resolver;
ghost use Rattle.dh_syntax.specs.Expressions.Tree.{Term};
ghost use Rattle.dh_demand.specs.Results.{ask_of};
ghost use Rattle.dh_demand.specs.Scans.{Fits};
ghost use Rattle.dh_demand.specs.Wants.{AreMarked};
ghost use Rattle.dh_record.specs.Entering.{IsListed};
ghost use Rattle.dh_record.specs.Keeping.{AreVisited, AreVisiting};
ghost use Rattle.dh_record.specs.Reading.{record_by, IsPlan, IsRead};
ghost use Rattle.dh_record.specs.Marks.{is_set, unseen};
ghost use Rattle.dh_record.specs.Rows.{key_named, rows_of};

use crate::rows::{Entrants, Looks, Texts};
use crate::stage::{Plan, plan_of};
use dh_demand::{Marks, Results, Scan, asked};

/// Marks the keys that are asked on the way from the root.
pub fn mark_visited(
    root: &Scan,
    keys: &Entrants,
    texts: &Texts<'_>,
    looks: &Looks<'_>,
    marks: &mut Marks,
    seen: &mut Marks,
)
    requires root { Fits None (rows_of keys.now) (term root.now.expr) root.now.edges }
    requires listed { All (IsListed (rows_of keys.now)) keys.now }
    requires read { All (IsRead (rows_of keys.now)) texts.now }
    requires few { length keys.now ≤ 2 ^ 32 }
    requires marks { length keys.now ≤ length marks.old }
    requires seen { length keys.now ≤ length seen.old }
    ensures visited { AreVisited (record_by texts.now looks.now) (term root.now.expr) keys.now marks.new }
    ensures marks { length marks.new ≡ length marks.old }
{
    marks.clear();
    seen.clear();
    asked(root, None, keys, marks);
    'passes: loop {
        if !visit_all(keys, texts, looks, marks, seen) {
            return;
        }
    }
}

// Goes over the keys once, and marks what each marked one asks that was not seen. Answers whether there was one.
fn visit_all(
    keys: &Entrants,
    texts: &Texts<'_>,
    looks: &Looks<'_>,
    marks: &mut Marks,
    seen: &mut Marks,
) -> bool
    requires listed { All (IsListed (rows_of keys.now)) keys.now }
    requires read { All (IsRead (rows_of keys.now)) texts.now }
    requires few { length keys.now ≤ 2 ^ 32 }
    requires marks { length keys.now ≤ length marks.old }
    requires seen { length keys.now ≤ length seen.old }
    ensures visiting { (root : Term) → AreVisiting (record_by texts.now looks.now) root keys.now marks.old seen.old → AreVisiting (record_by texts.now looks.now) root keys.now marks.new seen.new }
    ensures still { result ≡ false → (n : ℕ) → n < length keys.now → is_set marks.new n ≡ true → is_set seen.new n ≡ true }
    ensures falls { result ≡ true → unseen seen.new < unseen seen.old }
    ensures marks { length marks.new ≡ length marks.old }
    ensures seen { length seen.new ≡ length seen.old }
{
    let mut further = false;
    for i in 0..keys.len() {
        let n = i as u32;
        if marks.is_set(n) && !seen.is_set(n) {
            see(keys, texts, looks, n, marks, seen);
            further = true;
        }
    }
    further
}

// Sees a key: marks the keys that it asks.
fn see(
    keys: &Entrants,
    texts: &Texts<'_>,
    looks: &Looks<'_>,
    n: u32,
    marks: &mut Marks,
    seen: &mut Marks,
)
    requires inside { n < length keys.now }
    requires listed { All (IsListed (rows_of keys.now)) keys.now }
    requires read { All (IsRead (rows_of keys.now)) texts.now }
    requires marks { length keys.now ≤ length marks.old }
    requires seen { length keys.now ≤ length seen.old }
    ensures visiting { (root : Term) → is_set marks.old n ≡ true → AreVisiting (record_by texts.now looks.now) root keys.now marks.old seen.old → AreVisiting (record_by texts.now looks.now) root keys.now marks.new seen.new }
    ensures set { seen.new ≡ slice_set seen.old n true }
    ensures marks { length marks.new ≡ length marks.old }
{
    let plan = plan_of(keys, texts, looks, n);
    mark_asked(keys, n, plan, marks);
    seen.set(n, true);
}

// Marks the keys that a key asks.
fn mark_asked(keys: &Entrants, n: u32, plan: Plan<'_>, marks: &mut Marks)
    requires inside { n < length keys.now }
    requires plan { (p : resolver.Plan) × IsPlan (rows_of keys.now) (key_named keys.now n) p plan }
    requires marks { length keys.now ≤ length marks.old }
    ensures { (p : resolver.Plan) → IsPlan (rows_of keys.now) (key_named keys.now n) p plan.entry → AreMarked (rows_of keys.now) (asked_by (ask_of (rows_of keys.now)) (key_named keys.now n) p) marks.old marks.new }
{
    match plan {
        Plan::Fetch | Plan::Look | Plan::Now(_) => {}
        Plan::Walk(scan, _allow) => asked(scan, Some(&keys.key(n).loc), keys, marks),
        Plan::Ask(key) => marks.set(key, true),
    }
}
