//! The table, which workers share by reference.

ghost use Rattle.std.specs.Prelude.{◌≡◌, ◌<◌, [], map, All, IfOk, vec_len};
ghost use Rattle.dh_table.specs.Calls.{failures};
ghost use Rattle.dh_table.specs.States.{state_of};
ghost use Rattle.dh_shared.specs.Closed.{Closes};
ghost use Rattle.dh_shared.specs.Held.{none_held, sum_held};
ghost use Rattle.dh_shared.specs.Turns.{Turns, Hands, Frees, Brings};

use crate::books::{Books, Seat, Shares};
use crate::ledgers::Blanks;
use crate::locks::{Locked, Wakes};
use crate::runs::{Counted, Rooted};
use crate::turns::Turn;
use dh_ports::World;
use dh_table::{News, Table, Taken, Ticket};
use std::alloc::{AllocError, Global};
use std::marker::PhantomData;
use std::sync::{Condvar, Mutex, Wait};

/// The table of one run under one lock, with its eight books. It is of the root of `Q` from its first step to its last.
#[derive(Drop)]
pub struct SharedTable<W: World, Q: Rooted, N: Counted> {
    locked: Mutex<Locked<W, Q, N>>,
    changed: Condvar,
}

impl<W: World, Q: Rooted, N: Counted> SharedTable<W, Q, N> {
    /// Puts a table before its first step under a lock, with a seat for each worker.
    pub fn open(
        alloc: Global,
        table: Table<W>,
        workers: u32,
        blanks: Blanks,
    ) -> Result<(SharedTable<W, Q, N>, Vec<Seat<N>>), AllocError>
        requires fresh { (table.history ≡ []) × (failures (state_of table) ≡ 0) }
        requires root { table.root.expr ≡ Q.root }
        requires some { 0 < workers }
        requires blanks { blanks ≡ N.ledgers }
        requires parts { N.ledgers.parts ≡ workers }
        ensures count { IfOk result (λ r. vec_len r.1 ≡ workers) }
        ensures new { IfOk result (λ r. All (λ seat. seat.shares ≡ none_held 1) r.1.items) }
    {
        let (books, mut rest) = Books::open(blanks, u64::from(workers));
        let mut seats = Vec::with_capacity(alloc, workers as usize)?;
        for worker in 0..workers {
            let shares = rest.split_one();
            seats.push(Seat { worker, shares })?;
        }
        let locked = lock_up(alloc, table, books);
        Ok((
            SharedTable {
                locked: Mutex::new(locked),
                changed: Condvar::new(),
            },
            seats,
        ))
    }

    /// One claim under the lock. Who takes a task wakes one that waits where there is another task, and who finds that there will be none
    /// wakes all, of which no clause speaks.
    pub fn claim<T: Wait>(&self, rt: &T, seat: &mut Seat<N>) -> Turn
        ensures turn { Turns seat.old.shares seat.new.shares result }
        ensures worker { seat.new.worker ≡ seat.old.worker }
    {
        let (turn, wakes) = self.claim_locked(rt, seat);
        match wakes {
            Wakes::Nobody => {}
            Wakes::One => self.changed.notify_one(),
            Wakes::All => self.changed.notify_all(),
        }
        turn
    }

    // One claim, and who is to be woken once the lock is free.
    fn claim_locked<T: Wait>(&self, rt: &T, seat: &mut Seat<N>) -> (Turn, Wakes)
        ensures turn { Turns seat.old.shares seat.new.shares result.0 }
        ensures worker { seat.new.worker ≡ seat.old.worker }
    {
        let mut locked = self.locked.lock(rt);
        let turn = locked.claim(seat);
        let wakes = locked.wakes_after(&turn);
        (turn, wakes)
    }

    /// Waits until the table is not idle. No clause says so, since none can speak of the table under the lock.
    pub fn wait<T: Wait>(&self, rt: &T, _seat: &Seat<N>) {
        let mut guard = self.locked.lock(rt);
        guard.begin_waiting();
        let mut guard = self
            .changed
            .wait_while(rt, guard, |locked| locked.is_idle());
        guard.end_waiting();
    }

    /// One delivery under the lock. Who delivers claims next, and wakes others then. Where nothing was delivered all are woken, of which no
    /// clause speaks.
    pub fn deliver<T: Wait>(&self, rt: &T, seat: &mut Seat<N>, ticket: Ticket, news: News) -> Taken
        requires { Brings W.told W.shelved news }
        ensures hands { Hands seat.old.shares seat.new.shares news result }
        ensures worker { seat.new.worker ≡ seat.old.worker }
    {
        let taken = self.locked.lock(rt).deliver(seat, ticket, news);
        match &taken {
            Taken::Kept => {}
            Taken::Late(_ticket, _serial) => self.changed.notify_all(),
            Taken::Memory(_ticket, _news) => self.changed.notify_all(),
        }
        taken
    }

    /// Gives a ticket back under the lock, which wakes who waits: one release, or none where the serial is not in flight.
    pub fn release<T: Wait>(&self, rt: &T, seat: &mut Seat<N>, ticket: Ticket)
        ensures frees { Frees seat.old.shares seat.new.shares }
        ensures worker { seat.new.worker ≡ seat.old.worker }
    {
        self.locked.lock(rt).release(seat, ticket);
        self.changed.notify_all();
    }

    /// The table, once all of its seats are back.
    pub fn close(self, seats: Vec<Seat<N>>) -> Table<W>
        requires some { 0 < vec_len seats }
        requires all { vec_len seats ≡ N.ledgers.parts }
        ensures root { result.root.expr ≡ Q.root }
        ensures closes { Closes result (sum_held (map (λ seat. seat.shares) seats.items)) }
    {
        let SharedTable { locked, changed: _ } = self;
        let all = merge_all(seats);
        audited(locked.into_inner(), all)
    }
}

fn lock_up<W: World, Q: Rooted, N: Counted>(
    alloc: Global,
    table: Table<W>,
    books: Books<N>,
) -> Locked<W, Q, N>
    requires fresh { (table.history ≡ []) × (failures (state_of table) ≡ 0) }
    requires root { table.root.expr ≡ Q.root }
    requires books { books ≡ none_held 0 }
{
    Locked {
        alloc,
        table,
        books,
        waiting: 0,
        of: PhantomData,
    }
}

fn audited<W: World, Q: Rooted, N: Counted>(locked: Locked<W, Q, N>, all: Shares<N>) -> Table<W>
    requires { all.parts ≡ N.ledgers.parts }
    ensures root { result.root.expr ≡ Q.root }
    ensures closes { Closes result all }
{
    let Locked {
        alloc: _,
        table,
        mut books,
        waiting: _,
        of: _,
    } = locked;
    let mut all = all;
    books.audit(&mut all);
    table
}

fn merge_all<N: Counted>(seats: Vec<Seat<N>>) -> Shares<N>
    requires { 0 < vec_len seats }
    ensures parts { result.parts ≡ vec_len seats }
    ensures sums { result ≡ sum_held (map (λ seat. seat.shares) seats.items) }
{
    let mut seats = seats;
    let Some(last) = seats.pop() else {
        unreachable!()
    };
    let mut all = last.into_shares();
    while let Some(seat) = seats.pop() {
        all.merge(seat.into_shares());
    }
    all
}
