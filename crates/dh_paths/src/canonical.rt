//! Canonical locations: without the components `.` and `..`, where they can go.

ghost use Rattle.std.specs.Prelude.{◌≡◌, ◌∷◌, [], ◌<◌, ◌≤◌, length, take, drop, slice_index_or, vec_len, IsTrue, MatchOption};
ghost use Rattle.dh_syntax.specs.declared.locations.Loc.TheVariants.{Here};
ghost use Rattle.dh_syntax.specs.Imports.Locations as spec;
ghost use Rattle.dh_paths.specs.Inside.Paths.{goes_up};

use dh_syntax::{Comps, Loc, Many, Piece};

/// Makes a location canonical ("Import resolution", canonicalization of imports), in place.
pub fn canon(loc: &mut Loc)
    ensures { loc.new ≡ spec.canon loc.old }
{
    match loc {
        Loc::Abs(comps) => canon_path(comps),
        Loc::Here(comps) => {
            if let Some(parent) = canon_here(comps) {
                *loc = parent;
            }
        }
        Loc::Parent(comps) => canon_path(comps),
        Loc::Home(comps) => canon_path(comps),
        Loc::Http(url) => canon_path(&mut url.comps),
        Loc::Https(url) => canon_path(&mut url.comps),
        Loc::Env(_) | Loc::Missing => {}
    }
}

// Makes a path from here canonical. Where it is one from the parent folder, that location is the answer, and nothing
// is left of the path.
fn canon_here(comps: &mut Comps) -> Option<Loc>
    ensures { MatchOption result (spec.relative (spec.canon_path comps.old) ≡ Here comps.new)
        (λ l. l ≡ spec.relative (spec.canon_path comps.old)) }
{
    canon_path(comps);
    if !goes_up(comps.as_slice()) {
        return None;
    }
    let mut items = comps.take().into_vec();
    drop_front(&mut items, 1);
    Some(Loc::Parent(Many::of(items)))
}

fn canon_path(comps: &mut Comps)
    ensures { comps.new ≡ spec.canon_path comps.old }
{
    let mut items = comps.take().into_vec();
    let top = fold_path(&mut items);
    drop_front(&mut items, top);
    *comps = Many::of(items);
}

// Makes the path canonical and says where it begins. What stands before that place is no part of it.
fn fold_path(comps: &mut Vec<Piece>) -> usize
    ensures within { result ≤ vec_len comps.new }
    ensures path { drop result comps.new.items ≡ spec.canon_path comps.old.items }
{
    let mut at = comps.len().saturating_sub(1);
    let mut top = at;
    while at > 0 {
        at -= 1;
        top = put_before(comps, at, top);
    }
    top
}

// Puts the component at `at` before the canonical path that begins at `top`, and says where the new one begins.
fn put_before(comps: &mut Vec<Piece>, at: usize, top: usize) -> usize
    requires before { at < top }
    requires within { top < vec_len comps.old }
    requires canonical { spec.canon_path (drop top comps.old.items) ≡ drop top comps.old.items }
    ensures after { at ≤ result }
    ensures within { result < vec_len comps.new }
    ensures path { drop result comps.new.items
        ≡ spec.canon_path (slice_index_or comps.old.items at [] ∷ drop top comps.old.items) }
    ensures rest { take at comps.new.items ≡ take at comps.old.items }
    ensures len { vec_len comps.new ≡ vec_len comps.old }
{
    let comp = &comps[at];
    if is_dot(comp) {
        return top;
    }
    if goes_up(&comps[top..]) && !is_up(comp) {
        return top + 1;
    }
    comps.swap(at, top - 1);
    top - 1
}

fn drop_front(comps: &mut Vec<Piece>, n: usize)
    requires { n ≤ vec_len comps.old }
    ensures { comps.new.items ≡ drop n comps.old.items }
{
    comps.rotate_left(n);
    let kept = comps.len() - n;
    comps.truncate(kept);
}

// Whether the folder of the path begins with `..`.
fn goes_up(path: &[Piece]) -> bool
    ensures value { result ≡ goes_up path.now }
    ensures folder { IsTrue result → 1 < length path.now }
{
    match path {
        [] | [_] => false,
        [first, _second, ..] => is_up(first),
    }
}

fn is_dot(comp: &Piece) -> bool
    ensures { result ≡ spec.is_dot comp.now }
{
    comp.as_str() == "."
}

fn is_up(comp: &Piece) -> bool
    ensures { result ≡ spec.is_up comp.now }
{
    comp.as_str() == ".."
}
