//! One run: workers over one table, in threads, until the root is decided.

ghost use Rattle.std.specs.Prelude.{◌≡◌, ℕ, ◌≤◌, ◌<◌, [], true, false, drop, length, map, IfOk, IfErr, IfSome, vec_len, slice_index_or};
ghost use Rattle.dh_syntax.specs.Expressions.Bridge.{term};
ghost use Rattle.dh_imports.specs.Machine.{opening};
ghost use Rattle.dh_imports.specs.Replay.{has_too_many, root_end};
ghost use Rattle.dh_imports.specs.RootEnds.{EndsBy};
ghost use Rattle.dh_table.specs.Calls.{failures};
ghost use Rattle.dh_table.specs.Kept.{IsKeeping};
ghost use Rattle.dh_record.specs.Kept.{pair_of};
ghost use Rattle.dh_table.specs.Roots.{IsEnd, IsFitEnd};
ghost use Rattle.dh_table.specs.States.{state_of};
ghost use Rattle.dh_session.specs.Ended.{Ends, NoneFell};
ghost use Rattle.dh_session.specs.Inside.{Goes};

use crate::answers::{Answered, SessionFault, answer_of};
use crate::places::{Seated, all_done, seat_desks, stand_again};
use crate::workers::worker;
use dh_ports::{Desk, Gate, World};
use dh_shared::{Blanks, Counted, Rooted, Seat, SharedTable};
use dh_shelf::{Shelf, Visit};
use dh_syntax::Expr;
use dh_table::Table;
use std::alloc::{AllocError, Global};
use std::marker::Brand;
use std::sync::Wait;
use std::thread;
use std::thread::Threads;

/// A worker at a desk, and whether it ended well.
pub(crate) fn ends_well<T: Wait, W: World, D: Desk<W>, G: Gate, Q: Rooted, N: Counted>(
    rt: &T,
    alloc: Global,
    shared: &SharedTable<W, Q, N>,
    seat: &mut Seat<N>,
    desk: &mut D,
    visit: &mut Visit<'_, W>,
    gate: &G,
) -> bool
    ensures { Goes result (D.asked desk.old) (D.asked desk.new) (D.faults desk.old) (D.faults desk.new) (D.filed desk.old) (D.filed desk.new) seat.old.shares seat.new.shares }
{
    worker(rt, alloc, shared, seat, desk, visit, gate).is_ok()
}

/// The worker of one place, which looks on the shelf in a visit of its own.
#[tactic(auto, using(crate::proofs::Counting::rests))]
fn work_at<T: Wait, W: World, D: Desk<W>, G: Gate, Q: Rooted, N: Counted>(
    rt: &T,
    alloc: Global,
    shared: &SharedTable<W, Q, N>,
    shelf: &Shelf<W>,
    place: &mut Seated<D, N>,
    gate: &G,
)
    ensures { Goes place.new.done (D.asked place.old.desk) (D.asked place.new.desk) (D.faults place.old.desk) (D.faults place.new.desk) (D.filed place.old.desk) (D.filed place.new.desk) place.old.seat.shares place.new.seat.shares }
{
    let Ok(mut visit) = Visit::new(alloc, shelf) else {
        place.done = false;
        return;
    };
    let done = ends_well(
        rt,
        alloc,
        shared,
        &mut place.seat,
        &mut place.desk,
        &mut visit,
        gate,
    );
    place.done = done;
}

/// The workers of all places, in threads.
#[tactic(auto, using(crate::proofs::Crossing::table_send))]
fn work_all<
    T: Threads + Wait + Sync,
    W: World + Send + Sync,
    D: Desk<W> + Send,
    G: Gate + Sync,
    Q: Rooted + Send + Sync,
    N: Counted + Send + Sync,
>(
    rt: &T,
    alloc: Global,
    shared: &SharedTable<W, Q, N>,
    shelf: &Shelf<W>,
    places: &mut [Seated<D, N>],
    workers: u32,
    gate: &G,
)
    requires { 0 < workers }
    ensures { (i : ℕ) (d : _) → i < length places.old → Goes (slice_index_or places.new i d).done (D.asked (slice_index_or places.old i d).desk) (D.asked (slice_index_or places.new i d).desk) (D.faults (slice_index_or places.old i d).desk) (D.faults (slice_index_or places.new i d).desk) (D.filed (slice_index_or places.old i d).desk) (D.filed (slice_index_or places.new i d).desk) (slice_index_or places.old i d).seat.shares (slice_index_or places.new i d).seat.shares }
{
    thread::for_each_mut(
        rt,
        places,
        workers as usize,
        &|_, place| work_at(rt, alloc, shared, shelf, place, gate),
    );
}

fn work_places<
    T: Threads + Wait + Sync,
    W: World + Send + Sync,
    D: Desk<W> + Send,
    G: Gate + Sync,
    Q: Rooted + Send + Sync,
    N: Counted + Send + Sync,
>(
    rt: &T,
    alloc: Global,
    shared: &SharedTable<W, Q, N>,
    shelf: &Shelf<W>,
    places: &mut Vec<Seated<D, N>>,
    workers: u32,
    gate: &G,
)
    requires { 0 < workers }
    ensures count { length places.new.items ≡ length places.old.items }
    ensures len { vec_len places.new ≡ vec_len places.old }
    ensures each { (i : ℕ) (d : _) → i < length places.old.items → Goes (slice_index_or places.new.items i d).done (D.asked (slice_index_or places.old.items i d).desk) (D.asked (slice_index_or places.new.items i d).desk) (D.faults (slice_index_or places.old.items i d).desk) (D.faults (slice_index_or places.new.items i d).desk) (D.filed (slice_index_or places.old.items i d).desk) (D.filed (slice_index_or places.new.items i d).desk) (slice_index_or places.old.items i d).seat.shares (slice_index_or places.new.items i d).seat.shares }
{
    work_all(
        rt,
        alloc,
        shared,
        shelf,
        places.as_mut_slice(),
        workers,
        gate,
    );
}

/// Works on a table of this root with one worker on each of the first desks, and closes it.
fn run<
    T: Threads + Wait + Sync,
    W: World + Send + Sync,
    D: Desk<W> + Send + Drop,
    G: Gate + Sync,
    Q: Rooted + Send + Sync,
    N: Counted + Send + Sync,
>(
    rt: &T,
    alloc: Global,
    blanks: Blanks,
    desks: &mut Vec<D>,
    workers: u32,
    shelf: &Shelf<W>,
    table: Table<W>,
    gate: &G,
) -> Result<Table<W>, AllocError>
    requires some { (0 < workers) × (workers ≤ vec_len desks.old) }
    requires fresh { (table.history ≡ []) × (failures (state_of table) ≡ 0) }
    requires root { table.root.expr ≡ Q.root }
    requires blanks { blanks ≡ N.ledgers }
    requires parts { N.ledgers.parts ≡ workers }
    ensures count { vec_len desks.new ≡ vec_len desks.old }
    ensures idle { drop workers desks.new.items ≡ drop workers desks.old.items }
    ensures filed { map (λ d. D.filed d) desks.new.items ≡ map (λ d. D.filed d) desks.old.items }
    ensures root { IfOk result (λ t. t.root.expr ≡ Q.root) }
    ensures counted { IfOk result (λ t. NoneFell (map (λ d. D.faults d) desks.old.items) (map (λ d. D.faults d) desks.new.items)) }
    ensures ends { IfOk result (λ t. Ends (λ d. D.asked d) (λ d. D.faults d) desks.old.items desks.new.items t) }
{
    let (shared, seats) = SharedTable::<W, Q, N>::open(alloc, table, workers, blanks)?;
    let mut seats = seats;
    let mut places = Vec::with_capacity(alloc, workers as usize)?;
    seat_desks(desks, &mut seats, &mut places);
    work_places(rt, alloc, &shared, shelf, &mut places, workers, gate);
    let done = all_done(&places);
    stand_again(desks, &mut seats, places);
    let table = shared.close(seats);
    if done { Ok(table) } else { Err(AllocError) }
}

/// Resolves the imports of a root ("Import resolution") with one worker on each of the first desks, and tells how the root ends, what
/// the run keeps in the cache, and the table. Whatever it answers, all desks stand in `desks` again in their order, and those that
/// have no worker are as they were. Before each fetch a worker passes the gate, and before it asks its desk for an entry of the cache it
/// looks on the shelf, where it puts what its desk has.
///
/// `TooMany` comes exactly where the root has more than 4,096 keys, and then no desk was touched; keys that become too many later are
/// the fault of the root.
pub fn resolve_all<
    R: Threads + Wait + Sync,
    W: World + Send + Sync,
    D: Desk<W> + Send + Drop,
    G: Gate + Sync,
>(
    rt: &R,
    alloc: Global,
    desks: &mut Vec<D>,
    workers: u32,
    shelf: &Shelf<W>,
    root: Expr,
    gate: &G,
) -> Result<Answered<W>, SessionFault>
    requires some { 0 < workers }
    requires enough { workers ≤ vec_len desks.old }
    ensures count { vec_len desks.new ≡ vec_len desks.old }
    ensures idle { drop workers desks.new.items ≡ drop workers desks.old.items }
    ensures filed { map (λ d. D.filed d) desks.new.items ≡ map (λ d. D.filed d) desks.old.items }
    ensures root { IfOk result (λ a. (state_of a.table).root ≡ term root) }
    ensures counted { IfOk result (λ a. NoneFell (map (λ d. D.faults d) desks.old.items) (map (λ d. D.faults d) desks.new.items)) }
    ensures ends { IfOk result (λ a. Ends (λ d. D.asked d) (λ d. D.faults d) desks.old.items desks.new.items a.table) }
    ensures ended { IfOk result (λ a. IfSome (root_end (state_of a.table)) (λ end. IsEnd end a.ended)) }
    ensures resolved { IfOk result (λ a. IfSome (root_end (state_of a.table)) (EndsBy (state_of a.table).recorded (term root))) }
    ensures fits { IfOk result (λ a. IsFitEnd (term root) a.ended) }
    ensures keeps { IfOk result (λ a. IsKeeping (state_of a.table) (root_end (state_of a.table)) (map pair_of a.keeps)) }
    ensures few { IfOk result (λ a. has_too_many (opening (term root)) ≡ false) }
    ensures too_many { IfErr result (λ f. f ≡ SessionFault.TooMany → has_too_many (opening (term root)) ≡ true) }
    ensures alone { IfErr result (λ f. f ≡ SessionFault.TooMany → desks.new.items ≡ desks.old.items) }
{
    let table = Table::open(alloc, root)?;
    let blanks = Blanks::new(u64::from(workers));
    let closed = run::<R, W, D, G, Brand, Brand>(
        rt, alloc, blanks, desks, workers, shelf, table, gate,
    )?;
    answer_of(alloc, closed)
}
