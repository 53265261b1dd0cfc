//! What each desk does with its files.

ghost use Rattle.std.specs.Prelude.{◌≡◌, ℕ, ◌+◌, ◌<◌, drop, length, slice_index_or, vec_len};
ghost use Rattle.dh_batch.specs.Inside.{Stood};

use crate::sessions::Session;
use crate::stands::{Stand, put};
use dh_ports::World;
use dh_shelf::{Shelf, Visit};
use std::alloc::Global;
use std::sync::Wait;
use std::thread;
use std::thread::Threads;

/// The files behind the one at this place.
fn after<F>(files: &[F], at: usize) -> &[F]
    requires { at < length files.now }
    ensures { result.now ≡ drop (at + 1) files.now }
{
    &files[at + 1..]
}

/// The desk behind `i` others serves its files, with a visit of its own, where there is memory for its replies.
#[tactic(auto, using(crate::proofs::Dealt::not_stood))]
fn serve<T: Wait, W: World, D, F, A: Drop, S: Session<W, D, F, A>>(
    rt: &T,
    alloc: Global,
    session: &S,
    shelf: &Shelf<W>,
    files: &[F],
    i: usize,
    desks: usize,
    stand: &mut Stand<D, A>,
)
    requires { 0 < desks }
    ensures { Stood (S.replies session.now) desks i files.now stand.new.served stand.old.desk stand.new.desk stand.new.replies.items }
{
    stand.replies.clear();
    stand.served = false;
    let Ok(mut visit) = Visit::new(alloc, shelf) else {
        return;
    };
    let Ok(()) = stand.replies.reserve(files.len()) else {
        return;
    };
    stand.served = true;
    let mut left = files;
    let mut at = i;
    while at < left.len() {
        let reply = session.reply(rt, alloc, &mut stand.desk, &mut visit, &left[at]);
        put(&mut stand.replies, reply);
        left = after(left, at);
        at = desks - 1;
    }
}

/// The desks of all stands serve their files, in threads.
pub(crate) fn serve_all<
    T: Threads + Wait + Sync,
    W: World + Send + Sync,
    D: Send,
    F: Sync,
    A: Send + Drop,
    S: Session<W, D, F, A> + Sync,
>(
    rt: &T,
    alloc: Global,
    session: &S,
    shelf: &Shelf<W>,
    files: &[F],
    stands: &mut [Stand<D, A>],
    workers: u32,
)
    requires some { 0 < workers }
    ensures count { length stands.new ≡ length stands.old }
    ensures each { (i : ℕ) (d : _) → i < length stands.old → Stood (S.replies session.now) workers i files.now (slice_index_or stands.new i d).served (slice_index_or stands.old i d).desk (slice_index_or stands.new i d).desk (slice_index_or stands.new i d).replies.items }
{
    let desks = workers as usize;
    thread::for_each_mut(
        rt,
        stands,
        desks,
        &|i, stand| { serve(rt, alloc, session, shelf, files, i, desks, stand) },
    );
}

/// The desks of all stands serve their files.
pub(crate) fn serve_stands<
    T: Threads + Wait + Sync,
    W: World + Send + Sync,
    D: Send,
    F: Sync,
    A: Send + Drop,
    S: Session<W, D, F, A> + Sync,
>(
    rt: &T,
    alloc: Global,
    session: &S,
    shelf: &Shelf<W>,
    files: &[F],
    stands: &mut Vec<Stand<D, A>>,
    workers: u32,
)
    requires some { 0 < workers }
    ensures count { length stands.new.items ≡ length stands.old.items }
    ensures len { vec_len stands.new ≡ vec_len stands.old }
    ensures each { (i : ℕ) (d : _) → i < length stands.old.items → Stood (S.replies session.now) workers i files.now (slice_index_or stands.new.items i d).served (slice_index_or stands.old.items i d).desk (slice_index_or stands.new.items i d).desk (slice_index_or stands.new.items i d).replies.items }
{
    serve_all(
        rt,
        alloc,
        session,
        shelf,
        files,
        stands.as_mut_slice(),
        workers,
    );
}
