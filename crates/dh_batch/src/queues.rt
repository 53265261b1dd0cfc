//! The replies of the desks, put in the order of the files.

ghost use Rattle.std.specs.Prelude.{◌≡◌, ℕ, ◌+◌, ◌≤◌, ◌<◌, [], ◌∷◌, List, length, map, set, slice_index_or, vec_len, vec_capacity};
ghost use Rattle.dh_batch.specs.Dealing.{dealt};

use crate::stands::{put, take_first};

/// Takes the first reply of one queue.
fn take_reply<A>(queues: &mut Vec<Vec<A>>, at: usize) -> A
    requires at { at < vec_len queues.old }
    requires some { 0 < length (slice_index_or (map (λ q. q.items) queues.old.items) at []) }
    ensures taken { (rest : List _) × (slice_index_or (map (λ q. q.items) queues.old.items) at [] ≡ result ∷ rest) × (map (λ q. q.items) queues.new.items ≡ set (map (λ q. q.items) queues.old.items) at rest) }
    ensures len { vec_len queues.new ≡ vec_len queues.old }
{
    take_first(&mut queues[at])
}

/// Whose turn it is after this one.
fn next_turn(turn: usize, desks: usize) -> usize
    requires { turn < desks }
    ensures within { result < desks }
    ensures next { (turn + 1 ≡ desks → result ≡ 0) × (turn + 1 < desks → result ≡ turn + 1) }
{
    if turn + 1 == desks { 0 } else { turn + 1 }
}

/// The replies in the order of the files, of the queues of the replies of each desk.
pub(crate) fn gather<F, A: Drop>(
    files: &[F],
    desks: usize,
    queues: &mut Vec<Vec<A>>,
    room: Vec<A>,
) -> Vec<A>
    requires some { 0 < desks }
    requires desks { vec_len queues.old ≡ desks }
    requires counts { (i : ℕ) → i < desks → length (slice_index_or (map (λ q. q.items) queues.old.items) i []) ≡ length (dealt desks i files.now) }
    requires room { length files.now ≤ vec_capacity room }
    requires none { room.items ≡ [] }
    ensures count { length result.items ≡ length files.now }
    ensures dealt { (i : ℕ) → i < desks → dealt desks i result.items ≡ slice_index_or (map (λ q. q.items) queues.old.items) i [] }
{
    let mut replies = room;
    let mut turn = 0;
    while replies.len() < files.len() {
        let reply = take_reply(queues, turn);
        put(&mut replies, reply);
        turn = next_turn(turn, desks);
    }
    replies
}
