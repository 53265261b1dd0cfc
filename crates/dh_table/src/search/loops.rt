//! The loop into which blocking keys lead, and its least key.

ghost use Rattle.std.specs.Prelude.{◌≡◌, ◌<◌, ◌≤◌, ℕ, if◌then◌else◌, All, length, map, reverse, vec_capacity};
ghost use Rattle.dh_syntax.specs.Imports.Keys.{key_eq};
ghost use Rattle.dh_imports.specs.Machine.{State, root_walk};
ghost use Rattle.dh_imports.specs.Resolver.{lesser, least_back_to};
ghost use Rattle.dh_imports.specs.Walk.{Needs};
ghost use Rattle.dh_record.specs.Entering.{IsListed};
ghost use Rattle.dh_record.specs.Reading.{IsRead};
ghost use Rattle.dh_table.specs.Inside.Searching.{IsStuck, IsNextStuck, IsLoop};
ghost use Rattle.dh_record.specs.Rows.{rows_of, key_named};

use dh_demand::Marks;
use dh_record::{Entrants, Looks, Reach, Texts, is_at_most, look_ahead, put};
use dh_terms::is_same_key;

/// The least key of the loop into which the blocking keys lead from this one, where no task is open and nothing is in flight.
/// It takes no memory.
pub(crate) fn least_of_loop(
    keys: &Entrants,
    texts: &Texts<'_>,
    looks: &Looks<'_>,
    first: u32,
    marks: &mut Marks,
    trail: &mut Vec<u32>,
) -> u32
    requires inside { first < length keys.now }
    requires listed { All (IsListed (rows_of keys.now)) keys.now }
    requires read { All (IsRead (rows_of keys.now)) texts.now }
    requires marks { length keys.now ≤ length marks.old }
    requires trail { length marks.old ≤ vec_capacity trail.old }
    requires stuck { (s : State) × IsStuck keys.now texts.now looks.now s (key_named keys.now first) }
    ensures inside { result < length keys.now }
    ensures least { (s : State) → IsStuck keys.now texts.now looks.now s (key_named keys.now first) → root_walk s ≡ Needs (key_named keys.now first) → IsLoop s (key_named keys.now result) }
    ensures marks { length marks.new ≡ length marks.old }
    ensures trail { vec_capacity trail.old ≤ vec_capacity trail.new }
{
    marks.clear();
    trail.clear();
    let mut at = first;
    while !marks.is_set(at) {
        marks.set(at, true);
        put(trail, at);
        at = blocking(keys, texts, looks, at);
    }
    least_back(keys, trail.as_slice(), at)
}

// The blocking key of a key that waits.
fn blocking(keys: &Entrants, texts: &Texts<'_>, looks: &Looks<'_>, n: u32) -> u32
    requires inside { n < length keys.now }
    requires listed { All (IsListed (rows_of keys.now)) keys.now }
    requires read { All (IsRead (rows_of keys.now)) texts.now }
    requires stuck { (s : State) × IsStuck keys.now texts.now looks.now s (key_named keys.now n) }
    ensures inside { result < length keys.now }
    ensures stuck { (s : State) → IsStuck keys.now texts.now looks.now s (key_named keys.now n) → IsNextStuck keys.now texts.now looks.now s (key_named keys.now n) (key_named keys.now result) }
{
    match look_ahead(keys, texts, looks, n) {
        Reach::Wait(next) => next,
        Reach::Due(_) => unreachable!(),
    }
}

// The least key of a trail from its end back to this one.
fn least_back(keys: &Entrants, trail: &[u32], at: u32) -> u32
    requires inside { at < length keys.now }
    requires listed { All (IsListed (rows_of keys.now)) keys.now }
    requires trail { All (λ (n : ℕ). n < length keys.now) trail.now }
    ensures inside { result < length keys.now }
    ensures least { key_named keys.now result ≡ least_back_to (key_named keys.now at) (reverse (map (key_named keys.now) trail.now)) }
{
    let mut least = at;
    for n in trail {
        least = lesser_back(keys, *n, least, at);
    }
    least
}

// The lesser of a key and the least so far, which begins anew where the trail comes to the key at its end.
fn lesser_back(keys: &Entrants, n: u32, least: u32, at: u32) -> u32
    requires listed { All (IsListed (rows_of keys.now)) keys.now }
    requires inside { n < length keys.now }
    requires least_inside { least < length keys.now }
    requires at_inside { at < length keys.now }
    ensures inside { result < length keys.now }
    ensures lesser { key_named keys.now result ≡ (if key_eq (key_named keys.now n) (key_named keys.now at) then key_named keys.now at else lesser (key_named keys.now n) (key_named keys.now least)) }
{
    let keys = keys.as_slice();
    let key = &keys[n as usize];
    if is_same_key(&key.key, &keys[at as usize].key) {
        at
    } else if is_at_most(key, &keys[least as usize]) {
        n
    } else {
        least
    }
}
