//! Places: each is a desk with the seat of its worker. Desks go into places before the workers start, and stand in their order again
//! once they have ended; neither takes memory.

ghost use Rattle.std.specs.Prelude.{◌≡◌, ◌+◌, ◌≤◌, ◌<◌, ◌++◌, ◌∷◌, [], true, false, None, map, All, Any, MatchOption, vec_len, vec_capacity};
ghost use Rattle.dh_shared.specs.Held.{none_held};

use dh_shared::{Counted, Seat};

/// A desk with a seat, and whether the worker there ended well.
#[derive(Drop)]
pub(crate) struct Seated<D, N: Counted> {
    pub(crate) desk: D,
    pub(crate) seat: Seat<N>,
    pub(crate) done: bool,
}

/// Adds an element where there is room.
fn put<T: Drop>(v: &mut Vec<T>, x: T)
    requires { vec_len v.old < vec_capacity v.old }
    ensures items { v.new.items ≡ v.old.items ++ x ∷ [] }
    ensures len { vec_len v.new ≡ vec_len v.old + 1 }
    ensures room { vec_capacity v.old ≤ vec_capacity v.new }
{
    let Ok(()) = v.push(x) else { unreachable!() };
}

/// Adds an element in front where there is room.
fn put_first<T: Drop>(v: &mut Vec<T>, x: T)
    requires { vec_len v.old < vec_capacity v.old }
    ensures items { v.new.items ≡ x ∷ v.old.items }
    ensures len { vec_len v.new ≡ vec_len v.old + 1 }
    ensures room { vec_capacity v.old ≤ vec_capacity v.new }
{
    let Ok(()) = v.insert(0, x) else {
        unreachable!()
    };
}

/// Takes the first element.
fn take_first<T>(v: &mut Vec<T>) -> T
    requires { 0 < vec_len v.old }
    ensures items { v.old.items ≡ result ∷ v.new.items }
    ensures len { vec_len v.new + 1 ≡ vec_len v.old }
    ensures room { vec_capacity v.new ≡ vec_capacity v.old }
{
    v.remove(0)
}

/// Takes the last seat.
fn take_seat<N: Counted>(seats: &mut Vec<Seat<N>>) -> Option<Seat<N>>
    requires { All (λ seat. seat.shares ≡ none_held 1) seats.old.items }
    ensures rest { All (λ seat. seat.shares ≡ none_held 1) seats.new.items }
    ensures taken { MatchOption result (vec_len seats.old ≡ 0) (λ seat. seat.shares ≡ none_held 1) }
    ensures none { result ≡ None → seats.new.items ≡ [] }
    ensures len { MatchOption result (vec_len seats.new ≡ 0) (λ seat. vec_len seats.new + 1 ≡ vec_len seats.old) }
    ensures room { vec_capacity seats.new ≡ vec_capacity seats.old }
{
    seats.pop()
}

/// Moves the first desks, each with a seat, into places.
#[tactic(auto, using(crate::proofs::Moves::moved))]
pub(crate) fn seat_desks<D: Drop, N: Counted>(
    desks: &mut Vec<D>,
    seats: &mut Vec<Seat<N>>,
    places: &mut Vec<Seated<D, N>>,
)
    requires desks { vec_len seats.old ≤ vec_len desks.old }
    requires room { vec_len places.old + vec_len seats.old ≤ vec_capacity places.old }
    requires new { All (λ seat. seat.shares ≡ none_held 1) seats.old.items }
    requires none { places.old.items ≡ [] }
    ensures desks { map (λ p. p.desk) places.new.items ++ desks.new.items ≡ desks.old.items }
    ensures new { All (λ p. p.seat.shares ≡ none_held 1) places.new.items }
    ensures count { vec_len places.new ≡ vec_len seats.old }
    ensures left { vec_len desks.new + vec_len seats.old ≡ vec_len desks.old }
    ensures empty { vec_len seats.new ≡ 0 }
    ensures none { seats.new.items ≡ [] }
    ensures room_seats { vec_capacity seats.new ≡ vec_capacity seats.old }
    ensures room_desks { vec_capacity desks.new ≡ vec_capacity desks.old }
{
    while let Some(seat) = take_seat(seats) {
        let desk = take_first(desks);
        put(
            places,
            Seated {
                desk,
                seat,
                done: false,
            },
        );
    }
}

/// Moves the desks and the seats of places back, in front of those that are left.
#[tactic(auto, using(crate::proofs::Moves::moved))]
pub(crate) fn stand_again<D: Drop, N: Counted>(
    desks: &mut Vec<D>,
    seats: &mut Vec<Seat<N>>,
    places: Vec<Seated<D, N>>,
)
    requires room { vec_len desks.old + vec_len places ≤ vec_capacity desks.old }
    requires room_seats { vec_len seats.old + vec_len places ≤ vec_capacity seats.old }
    ensures desks { desks.new.items ≡ map (λ p. p.desk) places.items ++ desks.old.items }
    ensures desks_len { vec_len desks.new ≡ vec_len desks.old + vec_len places }
    ensures seats_len { vec_len seats.new ≡ vec_len seats.old + vec_len places }
    ensures seats { seats.new.items ≡ map (λ p. p.seat) places.items ++ seats.old.items }
{
    let mut places = places;
    while let Some(place) = places.pop() {
        let Seated {
            desk,
            seat,
            done: _,
        } = place;
        put_first(desks, desk);
        put_first(seats, seat);
    }
}

/// Whether all workers ended well.
pub(crate) fn all_done<D, N: Counted>(places: &Vec<Seated<D, N>>) -> bool
    ensures done { result ≡ true → All (λ p. p.done ≡ true) places.now.items }
    ensures undone { result ≡ false → Any (λ p. p.done ≡ false) places.now.items }
{
    for i in 0..places.len() {
        if !places[i].done {
            return false;
        }
    }
    true
}
