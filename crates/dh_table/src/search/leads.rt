//! The keys to which a key leads are put on the pile of those to look at, and one of them is the key for which it waits.

ghost use Rattle.std.specs.Prelude.{◌≡◌, ◌⊎◌, ◌<◌, ℕ, All, None, true, false, length};
ghost use Rattle.std.specs.Option.{option_copied};
ghost use Rattle.dh_syntax.specs.Expressions.Bridge.{term};
ghost use Rattle.dh_imports.specs.Machine.{leads_by};
ghost use Rattle.dh_imports.specs.Resolver as resolver;
ghost use Rattle.dh_imports.specs.Walk.{wants};
ghost use Rattle.dh_demand.specs.declared.scans.Edge.{Edge};
ghost use Rattle.dh_demand.specs.Results.{ask_of};
ghost use Rattle.dh_demand.specs.Scans.{Fits, text_key};
ghost use Rattle.dh_demand.specs.Wants.{HasNumber};
ghost use Rattle.dh_table.specs.Inside.Piling.{number_at};
ghost use Rattle.dh_record.specs.Reading.{IsPlan};
ghost use Rattle.dh_record.specs.Marks.{is_set};
ghost use Rattle.dh_table.specs.Inside.Searching.{AreEdgesPut, ArePut, HasEdge, HasRoom};
ghost use Rattle.dh_record.specs.Rows.{rows_of, key_named};

use crate::search::{Explored, Piles, READY};
use dh_demand::{Edge, Marks, Results, Scan, wanted};
use dh_record::{Entrants, Plan};
use dh_syntax::Loc;

/// Puts the keys to which a key leads on the pile of those to look at, where they were on none yet. Answers one of them for a
/// key that leads to `by`. It takes no memory.
pub(crate) fn lead(keys: &Entrants, n: u32, plan: Plan<'_>, by: u32, explored: &mut Explored) -> u32
    requires inside { n < length keys.now }
    requires plan { (p : resolver.Plan) × IsPlan (rows_of keys.now) (key_named keys.now n) p plan }
    requires room { HasRoom (length keys.now) explored.old }
    ensures put { (p : resolver.Plan) → IsPlan (rows_of keys.now) (key_named keys.now n) p plan.entry →
        ArePut (rows_of keys.now) (leads_by (ask_of (rows_of keys.now)) (key_named keys.now n) p) explored.old.piles explored.new.piles }
    ensures one { (p : resolver.Plan) → IsPlan (rows_of keys.now) (key_named keys.now n) p plan.entry →
        HasNumber (rows_of keys.now) (leads_by (ask_of (rows_of keys.now)) (key_named keys.now n) p) by → HasNumber (rows_of keys.now) (leads_by (ask_of (rows_of keys.now)) (key_named keys.now n) p) result }
    ensures marks { length explored.new.marks ≡ length explored.old.marks }
    ensures piles { length explored.new.piles ≡ length explored.old.piles }
{
    match plan {
        Plan::Fetch | Plan::Look | Plan::Now(_) => by,
        Plan::Walk(scan, _allow) => {
            put_wanted(scan, Some(&keys.key(n).loc), keys, explored);
            pick(scan.edges.as_slice(), &explored.marks, by)
        }
        Plan::Ask(key) => match keys.outcome(key) {
            None => {
                put_new(key, &mut explored.piles);
                by
            }
            Some(_) => by,
        },
    }
}

/// Puts the keys that the walk of a text at this parent wants on the pile of those to look at, where they were on none yet. Of
/// the keys of its edges, only these have a mark then.
pub(crate) fn put_wanted(
    scan: &Scan,
    parent: Option<&Loc>,
    keys: &Entrants,
    explored: &mut Explored,
)
    requires fits { Fits (option_copied parent) (rows_of keys.now) (term scan.now.expr) scan.now.edges }
    requires room { HasRoom (length keys.now) explored.old }
    ensures put { ArePut (rows_of keys.now) (wants (text_key (option_copied parent.entry)) (ask_of (rows_of keys.now)) (term scan.now.expr)) explored.old.piles explored.new.piles }
    ensures marked { (x : ℕ) → HasEdge (length scan.now.edges) scan.now.edges x → is_set explored.new.marks x ≡ true →
        HasNumber (rows_of keys.now) (wants (text_key (option_copied parent.entry)) (ask_of (rows_of keys.now)) (term scan.now.expr)) x }
    ensures marks { length explored.new.marks ≡ length explored.old.marks }
    ensures piles { length explored.new.piles ≡ length explored.old.piles }
{
    let edges = scan.edges.as_slice();
    unmark(edges, &mut explored.marks);
    wanted(scan, parent, keys, &mut explored.marks);
    put_edges(edges, &explored.marks, &mut explored.piles);
}

// Takes away the marks of the keys of these edges.
fn unmark(edges: &[Edge], marks: &mut Marks)
    requires { All (λ (e : Edge). e.key < length marks.old) edges.now }
    ensures off { (x : ℕ) → HasEdge (length edges.now) edges.now x → is_set marks.new x ≡ false }
    ensures len { length marks.new ≡ length marks.old }
{
    for edge in edges {
        marks.set(edge.key, false);
    }
}

// Puts the marked keys of these edges on the pile of those to look at, where they were on none yet.
fn put_edges(edges: &[Edge], marks: &Marks, piles: &mut Piles)
    requires marks { All (λ (e : Edge). e.key < length marks.now) edges.now }
    requires piles { All (λ (e : Edge). e.key < length piles.old) edges.now }
    ensures put { AreEdgesPut (length edges.now) edges.now marks.now piles.old piles.new }
    ensures len { length piles.new ≡ length piles.old }
{
    for edge in edges {
        put_marked(edge.key, marks, piles);
    }
}

// Puts a key that is marked on the pile of those to look at, where it was on none yet.
fn put_marked(n: u32, marks: &Marks, piles: &mut Piles)
    requires marks { n < length marks.now }
    requires piles { n < length piles.old }
    ensures put { (x : ℕ) → (number_at piles.new x ≡ number_at piles.old x) ⊎ ((number_at piles.old x ≡ 0) × (number_at piles.new x ≡ 2) × (is_set marks.now x ≡ true) × (x ≡ n)) }
    ensures on { is_set marks.now n ≡ true → ¬ (number_at piles.new n ≡ 0) }
    ensures len { length piles.new ≡ length piles.old }
{
    if marks.is_set(n) {
        put_new(n, piles);
    }
}

// Puts a key on the pile of those to look at, where it was on none yet.
fn put_new(n: u32, piles: &mut Piles)
    requires { n < length piles.old }
    ensures put { (x : ℕ) → (number_at piles.new x ≡ number_at piles.old x) ⊎ ((number_at piles.old x ≡ 0) × (number_at piles.new x ≡ 2) × (x ≡ n)) }
    ensures on { ¬ (number_at piles.new n ≡ 0) }
    ensures len { length piles.new ≡ length piles.old }
{
    if piles.is_new(n) {
        piles.push(READY, n as usize);
    }
}

// The first in scrambled order of this key and the marked keys of these edges.
fn pick(edges: &[Edge], marks: &Marks, first: u32) -> u32
    requires { All (λ (e : Edge). e.key < length marks.now) edges.now }
    ensures { (result ≡ first) ⊎ (HasEdge (length edges.now) edges.now result × (is_set marks.now result ≡ true)) }
{
    let mut best = first;
    for edge in edges {
        if marks.is_set(edge.key) && scrambled(edge.key) < scrambled(best) {
            best = edge.key;
        }
    }
    best
}

// The two factors of the last step of MurmurHash3, by which each bit of a number changes about half of the bits.
const FIRST_FACTOR: u32 = 0x85EB_CA6B;

const SECOND_FACTOR: u32 = 0xC2B2_AE35;

// The rank of a key in an order that mixes the numbers. Once the first of the keys that are left in it is decided, about half of
// them are, on average: so a key waits few times, however many keys it leads to.
fn scrambled(n: u32) -> u32 {
    let n = (n ^ (n >> 16)).wrapping_mul(FIRST_FACTOR);
    let n = (n ^ (n >> 13)).wrapping_mul(SECOND_FACTOR);
    n ^ (n >> 16)
}
