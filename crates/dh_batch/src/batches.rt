//! A batch: files, the desks that serve them, and the replies.

ghost use Rattle.std.specs.Prelude.{◌≡◌, ◌≤◌, ◌<◌, drop, IfOk, OnErr, vec_len};
ghost use Rattle.dh_batch.specs.Dealing.{AreServed, HaveServed};

use crate::queues::gather;
use crate::serving::serve_stands;
use crate::sessions::Session;
use crate::stands::{all_served, stand_again, take_stands};
use dh_ports::World;
use dh_shelf::Shelf;
use std::alloc::{AllocError, Global};
use std::sync::Wait;
use std::thread::Threads;

/// Serves files at the first desks, each desk in a thread, and answers the replies in the order of the files. Of n desks the i-th serves
/// the files i, i + n and so on, one after the other, and looks on the shelf in one visit. Whatever it answers, all desks stand in
/// `desks` again in their order, and those behind the first are as they were.
pub fn serve_files<
    T: Threads + Wait + Sync,
    W: World + Send + Sync,
    D: Send + Drop,
    F: Sync,
    A: Send + Drop,
    S: Session<W, D, F, A> + Sync,
>(
    rt: &T,
    alloc: Global,
    session: &S,
    desks: &mut Vec<D>,
    workers: u32,
    shelf: &Shelf<W>,
    files: &[F],
) -> Result<Vec<A>, AllocError>
    requires some { 0 < workers }
    requires enough { workers ≤ vec_len desks.old }
    ensures count { vec_len desks.new ≡ vec_len desks.old }
    ensures idle { drop workers desks.new.items ≡ drop workers desks.old.items }
    ensures served { IfOk result (λ replies. AreServed (S.replies session.now) workers desks.old.items desks.new.items files.now replies.items) }
    ensures part { OnErr result (HaveServed (S.replies session.now) workers desks.old.items desks.new.items) }
{
    let mut stands = Vec::with_capacity(alloc, workers as usize)?;
    let mut queues = Vec::with_capacity(alloc, workers as usize)?;
    let room = Vec::with_capacity(alloc, files.len())?;
    take_stands(alloc, desks, workers, &mut stands);
    serve_stands(rt, alloc, session, shelf, files, &mut stands, workers);
    let served = all_served(&stands);
    stand_again(desks, &mut queues, stands);
    if served {
        Ok(gather(files, workers as usize, &mut queues, room))
    } else {
        Err(AllocError)
    }
}
