//! What lies under the lock: the table, and the books of what all workers have counted.

ghost use Rattle.std.specs.Prelude.{◌≡◌, ◌+◌, ◌≤◌, ◌<◌, count_by, length, IsSome};
ghost use Rattle.std.specs.Coded.{codes};
ghost use Rattle.dh_syntax.specs.contracts.expressions.Expr as rows;
ghost use Rattle.dh_imports.specs.Replay.{root_end};
ghost use Rattle.dh_table.specs.Calls.{failures};
ghost use Rattle.dh_table.specs.States.{state_of};
ghost use Rattle.dh_shared.specs.Counting.{is_claim, is_fetch_claim, is_recorded, is_release, is_late};
ghost use Rattle.dh_shared.specs.Turns.{Turns, Hands, Frees, Brings};

use crate::books::{Books, Seat};
use crate::calls::{draw, hand_in, is_fetch, put_back, tells_failure, work_of};
use crate::runs::{Counted, Rooted};
use crate::turns::Turn;
use dh_ports::World;
use dh_table::{Claimed, News, Table, Taken, Ticket};
use std::alloc::Global;
use std::marker::PhantomData;

/// Who is to be woken after a claim.
#[derive(Clone, Copy, Debug)]
pub(crate) enum Wakes {
    Nobody,
    One,
    All,
}

/// The table of this root with the books: each book has the number of steps of its kind that the history has.
#[derive(Drop)]
pub struct Locked<W: World, Q: Rooted, N: Counted> {
    pub(crate) alloc: Global,
    pub(crate) table: Table<W>,
    pub(crate) books: Books<N>,
    // How many workers wait. No clause speaks of it.
    pub(crate) waiting: usize,
    pub(crate) of: PhantomData<Q>,
    ghost root_in: { table.root.expr ≡ Q.root } by { Prim.hlevel (codes, rows.the_row.coded) },
    ghost claims_in: { count_by is_claim table.history ≡ books.claims },
    ghost kept_in: { count_by is_recorded table.history ≡ books.kept },
    ghost releases_in: { count_by is_release table.history ≡ books.releases },
    ghost returns_in: { books.releases ≤ books.returns },
    ghost lates_in: { count_by is_late table.history ≡ books.lates },
    ghost fetches_in: { count_by is_fetch_claim table.history ≡ books.fetches },
    ghost failed_in: { failures (state_of table) ≡ books.failed },
    ghost over_in: { 0 < books.overs → IsSome (root_end (state_of table)) },
}

impl<W: World, Q: Rooted, N: Counted> Locked<W, Q, N> {
    /// One claim.
    pub(crate) fn claim(&mut self, seat: &mut Seat<N>) -> Turn
        ensures turn { Turns seat.old.shares seat.new.shares result }
        ensures worker { seat.new.worker ≡ seat.old.worker }
    {
        let Some(need) = self.table.in_flight().checked_add(3) else {
            return Turn::Memory;
        };
        if self.table.reserve(need).is_err() {
            return Turn::Memory;
        }
        self.claim_within(seat)
    }

    fn claim_within(&mut self, seat: &mut Seat<N>) -> Turn
        requires { length self.old.table.flights + 3 ≤ self.old.table.spare }
        ensures turn { Turns seat.old.shares seat.new.shares result }
        ensures worker { seat.new.worker ≡ seat.old.worker }
    {
        let Locked {
            alloc,
            table,
            books,
            waiting: _,
            of: _,
        } = self;
        match draw(table, seat.worker) {
            Claimed::Over => {
                books.add_over(&mut seat.shares);
                Turn::Over
            }
            Claimed::Idle => Turn::Idle,
            Claimed::Task(ticket) => {
                let fetch = is_fetch(&ticket);
                books.add_claim(&mut seat.shares, fetch);
                match work_of(*alloc, table, &ticket) {
                    Ok(work) => Turn::Work(ticket, work),
                    Err(_) => {
                        books.add_return(&mut seat.shares);
                        if put_back(table, ticket) {
                            books.add_release(&mut seat.shares);
                        }
                        Turn::Memory
                    }
                }
            }
        }
    }

    /// Who is to be woken after a claim that found this: one worker where there is another task, and all where the claims come to an end
    /// or this worker does.
    pub(crate) fn wakes_after(&mut self, turn: &Turn) -> Wakes {
        match turn {
            Turn::Over | Turn::Memory => Wakes::All,
            Turn::Idle => Wakes::Nobody,
            Turn::Work(_ticket, _work) => {
                if self.waiting == 0 || self.table.idle() {
                    Wakes::Nobody
                } else {
                    Wakes::One
                }
            }
        }
    }

    /// One more worker waits.
    pub(crate) fn begin_waiting(&mut self) {
        self.waiting = self.waiting.saturating_add(1);
    }

    /// One worker less waits.
    pub(crate) fn end_waiting(&mut self) {
        self.waiting = self.waiting.saturating_sub(1);
    }

    /// Whether a claim would wait.
    pub(crate) fn is_idle(&mut self) -> bool {
        self.table.idle()
    }

    /// Gives a ticket back: one release, or none where the serial is not in flight.
    pub(crate) fn release(&mut self, seat: &mut Seat<N>, ticket: Ticket)
        ensures frees { Frees seat.old.shares seat.new.shares }
        ensures worker { seat.new.worker ≡ seat.old.worker }
    {
        let Locked {
            alloc: _,
            table,
            books,
            waiting: _,
            of: _,
        } = self;
        books.add_return(&mut seat.shares);
        if put_back(table, ticket) {
            books.add_release(&mut seat.shares);
        }
    }

    /// One delivery, or none where memory is wanting.
    pub(crate) fn deliver(&mut self, seat: &mut Seat<N>, ticket: Ticket, news: News) -> Taken
        requires { Brings W.told W.shelved news }
        ensures hands { Hands seat.old.shares seat.new.shares news result }
        ensures worker { seat.new.worker ≡ seat.old.worker }
    {
        let Some(need) = self.table.in_flight().checked_add(1) else {
            return Taken::Memory(ticket, news);
        };
        if self.table.reserve(need).is_err() {
            return Taken::Memory(ticket, news);
        }
        self.deliver_within(seat, ticket, news)
    }

    fn deliver_within(&mut self, seat: &mut Seat<N>, ticket: Ticket, news: News) -> Taken
        requires brings { Brings W.told W.shelved news }
        requires room { length self.old.table.flights + 1 ≤ self.old.table.spare }
        ensures hands { Hands seat.old.shares seat.new.shares news result }
        ensures worker { seat.new.worker ≡ seat.old.worker }
    {
        let Locked {
            alloc: _,
            table,
            books,
            waiting: _,
            of: _,
        } = self;
        let failed = tells_failure(&news);
        match hand_in(table, ticket, news) {
            Taken::Kept => {
                books.add_kept(&mut seat.shares, failed);
                Taken::Kept
            }
            Taken::Late(ticket, serial) => {
                books.add_late(&mut seat.shares);
                Taken::Late(ticket, serial)
            }
            Taken::Memory(ticket, news) => Taken::Memory(ticket, news),
        }
    }
}
