//! How many keys are visited from a root that what is kept decides.

ghost use Rattle.std.specs.Prelude.{◌≡◌, ◌<◌, ◌≤◌, ◌+◌, ◌++◌, ◌∷◌, [], All, IfOk, List, Some, ℕ, false, length, map, replicate, reverse};
ghost use Rattle.dh_demand.specs.Results.{ask_of};
ghost use Rattle.dh_imports.specs.Keeps.{asked_by};
ghost use Rattle.dh_imports.specs.Outcomes.{Outcome as Came};
ghost use Rattle.dh_imports.specs.Resolver as resolver;
ghost use Rattle.dh_record.specs.Entering.{AreDistinct, IsListed, keys_in};
ghost use Rattle.dh_record.specs.Reading.{IsRead, record_by};
ghost use Rattle.dh_record.specs.Rows.{key_named, outcome_of_number, rows_of};
ghost use Rattle.dh_syntax.specs.declared.locations.Key.{Key as Named};
ghost use Rattle.dh_watch_laws.specs.Kept.{IsSound, known};
ghost use Rattle.dh_watch_laws.specs.VisitCounts.{ClosesLoop, Counts, count_from};
ghost use Rattle.dh_watch_rows.specs.Inside.LoopedRows.{HaveSameKeys, Mark};
ghost use Rattle.dh_watch_rows.specs.KeptRows.{AreNamed, IsGood, kept_of};

use crate::rows::Rows;
use dh_demand::{Marks, Results, asked};
use dh_imports::{Blame, Outcome, Why};
use dh_record::{Entrants, Looks, Plan, Texts, plan_of};
use dh_syntax::Key;
use std::alloc::{AllocError, Global};

impl Rows {
    /// How many outcomes are kept.
    pub fn outcome_count(&self) -> usize
        ensures { result ≡ length (kept_of self.now).outcomes }
    {
        self.found.len()
    }

    /// How many keys are visited from the key of this number, which has an outcome. It is one pass over what is kept.
    pub fn count_visited(&self, alloc: Global, root: u32) -> Result<usize, AllocError>
        requires good { IsGood self.now }
        requires sound { IsSound (kept_of self.now) }
        requires inside { root < length self.now.keys }
        requires decided { (o : Came) × (known (kept_of self.now).outcomes (key_named self.now.keys root) ≡ Some o) }
        ensures { IfOk result (Counts (kept_of self.now) (key_named self.now.keys root)) }
    {
        let mut marks = Marks::of(vec![in alloc; false; self.keys.len()]?);
        marks.set(root, true);
        Ok(self.count_marked(&self.keys, &mut marks))
    }

    /// How many keys are visited from a key whose chain, with the root first, closes a loop with this least key.
    pub fn count_on_loop(
        &self,
        alloc: Global,
        chain: &[u32],
        least: u32,
    ) -> Result<usize, AllocError>
        requires good { IsGood self.now }
        requires sound { IsSound (kept_of self.now) }
        requires inside { least < length self.now.keys }
        requires chain_inside { AreNamed self.now.keys chain.now }
        ensures { IfOk result (λ n. (root : Named) → ClosesLoop (kept_of self.now) root (reverse (map (key_named self.now.keys) chain.now)) (key_named self.now.keys least) → Counts (kept_of self.now) root n) }
    {
        let at = self.keys.key(least).copied(alloc)?;
        let end = Outcome::Bad(Blame {
            at: Some(at),
            why: Why::Cycle,
        });
        let mut on = Marks::of(vec![in alloc; false; self.keys.len()]?);
        let mut marks = Marks::of(vec![in alloc; false; self.keys.len()]?);
        'on: for n in chain {
            on.set(*n, true);
        }
        let looped = Looped {
            keys: &self.keys,
            chain: &on,
            end: &end,
        };
        'asked: for n in chain {
            self.mark_asked(&looped, *n, &mut marks);
        }
        Ok(chain.len() + self.count_marked(&looped, &mut marks))
    }

    // Goes over what was found, the latest first: counts the marked keys, and marks what each of them asks, which was found before it.
    fn count_marked<R: Results>(&self, results: &R, marks: &mut Marks) -> usize
        requires good { IsGood self.now }
        requires same { HaveSameKeys (rows_of self.now.keys) (R.rows results.now) }
        requires marks { length self.now.keys ≤ length marks.old }
        ensures few { result ≤ length self.now.found.items }
        ensures count { (ks : List Named) → Mark self.now.keys marks.old ks → result ≡ count_from (kept_of self.now).recorded (ask_of (R.rows results.now)) (kept_of self.now).outcomes ks }
    {
        let mut count: usize = 0;
        let mut left = self.found.len();
        'passed: while left > 0 {
            left -= 1;
            let n = self.found[left];
            if marks.is_set(n) {
                count += 1;
                self.mark_asked(results, n, marks);
            }
        }
        count
    }

    // Marks the keys that a key asks.
    fn mark_asked<R: Results>(&self, results: &R, n: u32, marks: &mut Marks)
        requires good { IsGood self.now }
        requires inside { n < length self.now.keys }
        requires same { HaveSameKeys (rows_of self.now.keys) (R.rows results.now) }
        requires marks { length self.now.keys ≤ length marks.old }
        ensures marks { length marks.new ≡ length marks.old }
        ensures mark { (ks : List Named) → Mark self.now.keys marks.old ks
            → Mark self.now.keys marks.new (asked_by (ask_of (R.rows results.now)) (key_named self.now.keys n) (resolver.plan (kept_of self.now).recorded (key_named self.now.keys n)) ++ ks) }
    {
        let texts = self.found_texts();
        let looks = self.found_looks();
        match plan_of(&self.keys, &texts, &looks, n) {
            Plan::Fetch | Plan::Look | Plan::Now(_) => {}
            Plan::Walk(scan, _allow) => asked(scan, Some(&self.keys.key(n).loc), results, marks),
            Plan::Ask(key) => marks.set(key, true),
        }
    }
}

// The keys with their outcomes, where those of a chain come to its loop.
#[derive(Drop)]
struct Looped<'a> {
    keys: &'a Entrants,
    // the keys of the chain
    chain: &'a Marks,
    end: &'a Outcome,
}

impl<'a> Results for Looped<'a> {
    ghost use Rattle.dh_record.specs.Rows.{rows_of};
    ghost use Rattle.dh_watch_rows.specs.Inside.LoopedRows.{looped_rows};

    ghost rows = { λ l. looped_rows (rows_of l.keys.now) l.chain.now l.end.now };

    fn outcome(&self, key: u32) -> Option<&Outcome> {
        match self.chain.get(key) {
            Some(true) => Some(self.end),
            Some(false) => self.keys.outcome(key),
            None => self.keys.outcome(key),
        }
    }

    fn key(&self, key: u32) -> &Key {
        self.keys.key(key)
    }
}
