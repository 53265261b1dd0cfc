//! Stands: each is a desk with its replies. Desks go into stands before they serve, and stand in their order again once they have
//! served; neither takes memory.

ghost use Rattle.std.specs.Prelude.{◌≡◌, ◌+◌, ◌≤◌, ◌<◌, ◌++◌, ◌∷◌, [], true, false, map, All, Any, vec_len, vec_capacity};

use std::alloc::Global;

/// A desk with its replies so far.
#[derive(Drop)]
pub(crate) struct Stand<D, A> {
    pub(crate) desk: D,
    pub(crate) replies: Vec<A>,
    /// Whether it had memory for its replies. Without, it serves no file.
    pub(crate) served: bool,
}

/// Adds an element where there is room.
pub(crate) fn put<T: Drop>(v: &mut Vec<T>, x: T)
    requires { vec_len v.old < vec_capacity v.old }
    ensures items { v.new.items ≡ v.old.items ++ x ∷ [] }
    ensures len { vec_len v.new ≡ vec_len v.old + 1 }
    ensures room { vec_capacity v.old ≤ vec_capacity v.new }
{
    let Ok(()) = v.push(x) else { unreachable!() };
}

/// Adds an element in front where there is room.
fn put_first<T: Drop>(v: &mut Vec<T>, x: T)
    requires { vec_len v.old < vec_capacity v.old }
    ensures items { v.new.items ≡ x ∷ v.old.items }
    ensures len { vec_len v.new ≡ vec_len v.old + 1 }
    ensures room { vec_capacity v.old ≤ vec_capacity v.new }
{
    let Ok(()) = v.insert(0, x) else {
        unreachable!()
    };
}

/// Takes the first element.
pub(crate) fn take_first<T>(v: &mut Vec<T>) -> T
    requires { 0 < vec_len v.old }
    ensures items { v.old.items ≡ result ∷ v.new.items }
    ensures len { vec_len v.new + 1 ≡ vec_len v.old }
    ensures room { vec_capacity v.new ≡ vec_capacity v.old }
{
    v.remove(0)
}

/// Moves the first desks into stands.
#[tactic(auto, using(crate::proofs::Moves::moved))]
pub(crate) fn take_stands<D: Drop, A: Drop>(
    alloc: Global,
    desks: &mut Vec<D>,
    workers: u32,
    stands: &mut Vec<Stand<D, A>>,
)
    requires desks { workers ≤ vec_len desks.old }
    requires room { workers ≤ vec_capacity stands.old }
    requires none { stands.old.items ≡ [] }
    requires empty { vec_len stands.old ≡ 0 }
    ensures desks { map (λ s. s.desk) stands.new.items ++ desks.new.items ≡ desks.old.items }
    ensures count { vec_len stands.new ≡ workers }
    ensures left { vec_len desks.new + workers ≡ vec_len desks.old }
    ensures room_desks { vec_capacity desks.new ≡ vec_capacity desks.old }
{
    for _worker in 0..workers {
        let desk = take_first(desks);
        put(
            stands,
            Stand {
                desk,
                replies: Vec::new(alloc),
                served: false,
            },
        );
    }
}

/// Moves the desks back, in front of those that are left, and their replies into queues.
#[tactic(auto, using(crate::proofs::Moves::moved))]
pub(crate) fn stand_again<D: Drop, A: Drop>(
    desks: &mut Vec<D>,
    queues: &mut Vec<Vec<A>>,
    stands: Vec<Stand<D, A>>,
)
    requires room { vec_len desks.old + vec_len stands ≤ vec_capacity desks.old }
    requires room_queues { vec_len queues.old + vec_len stands ≤ vec_capacity queues.old }
    ensures desks { desks.new.items ≡ map (λ s. s.desk) stands.items ++ desks.old.items }
    ensures desks_len { vec_len desks.new ≡ vec_len desks.old + vec_len stands }
    ensures queues { queues.new.items ≡ map (λ s. s.replies) stands.items ++ queues.old.items }
    ensures queues_len { vec_len queues.new ≡ vec_len queues.old + vec_len stands }
{
    let mut stands = stands;
    while let Some(stand) = stands.pop() {
        let Stand {
            desk,
            replies,
            served: _,
        } = stand;
        put_first(desks, desk);
        put_first(queues, replies);
    }
}

/// Whether all desks have served their files.
pub(crate) fn all_served<D, A>(stands: &Vec<Stand<D, A>>) -> bool
    ensures all { result ≡ true → All (λ s. s.served ≡ true) stands.now.items }
    ensures any { result ≡ false → Any (λ s. s.served ≡ false) stands.now.items }
{
    for i in 0..stands.len() {
        if !stands[i].served {
            return false;
        }
    }
    true
}
