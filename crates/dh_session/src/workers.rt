//! One worker: it claims tasks, works on them and delivers what it found, until the root is decided.

ghost use Rattle.std.specs.Prelude.{◌≡◌, ◌+◌, ◌≤◌, IfOk, OnOk, OnErr};
ghost use Rattle.dh_ports.specs.Counts.{one_more};
ghost use Rattle.dh_shared.specs.Turns.{Brings};
ghost use Rattle.dh_table.specs.Works.{IsFitWork};
ghost use Rattle.dh_work.specs.Brings.{IsTextAt, TellsFailure};
ghost use Rattle.dh_session.specs.Inside.{asked_after, failures_told, overs_by, AsksOnce, IsNewsOf};
ghost use Rattle.dh_session.specs.Works.{Asks, Delivers, Fails, FreesLate, GivesBack, EndsEarly};

use dh_ports::{Desk, Gate, World};
use dh_shared::{Counted, Rooted, Seat, SharedTable, Turn};
use dh_shelf::Visit;
use dh_syntax::Loc;
use dh_table::{News, Taken, Ticket, Work};
use dh_work::{fetch_text, look_up, work_item};
use std::alloc::{AllocError, Global};
use std::sync::Wait;

/// What a worker does after a turn.
pub(crate) enum Next {
    /// It claims again.
    Claim,
    /// It waits, and claims again.
    Wait,
    /// It ends: the run is over.
    End,
}

/// Passes the gate and asks the desk for a text, once.
#[tactic(auto, using(crate::proofs::Bringing::text_brings))]
fn fetch_once<W: World, D: Desk<W>, G: Gate>(
    alloc: Global,
    desk: &mut D,
    gate: &G,
    loc: Loc,
) -> Result<News, AllocError>
    ensures brings { IfOk result (Brings W.told W.shelved) }
    ensures own { IfOk result (λ news. IsTextAt loc news) }
    ensures asked { D.asked desk.new ≡ one_more (D.asked desk.old) }
    ensures filed { D.filed desk.new ≡ D.filed desk.old }
    ensures counted { D.faults desk.old ≤ D.faults desk.new }
    ensures failed { IfOk result (λ news. TellsFailure news (D.faults desk.old) (D.faults desk.new)) }
{
    gate.at_fetch(&loc);
    fetch_text(alloc, desk, loc)
}

/// What the task comes to.
#[tactic(auto, using(crate::proofs::Bringing::look_brings, crate::proofs::Bringing::outcome_tells))]
fn bring<W: World, D: Desk<W>, G: Gate>(
    alloc: Global,
    desk: &mut D,
    visit: &mut Visit<'_, W>,
    gate: &G,
    work: Work,
) -> Result<News, AllocError>
    requires { IsFitWork work }
    ensures brings { IfOk result (Brings W.told W.shelved) }
    ensures own { IfOk result (λ news. IsNewsOf work news) }
    ensures asked { D.asked desk.new ≡ asked_after work (D.asked desk.old) }
    ensures filed { D.filed desk.new ≡ D.filed desk.old }
    ensures counted { D.faults desk.old ≤ D.faults desk.new }
    ensures failed { IfOk result (λ news. TellsFailure news (D.faults desk.old) (D.faults desk.new)) }
{
    match work {
        Work::Fetch(loc) => fetch_once(alloc, desk, gate, loc),
        Work::Look(digest) => look_up(alloc, desk, visit, digest),
        Work::Finish(item) => Ok(News::Finished(work_item(alloc, item)?)),
    }
}

/// Delivers news. A ticket that comes back is given back to the table.
fn hand_in<T: Wait, W: World, Q: Rooted, N: Counted>(
    rt: &T,
    shared: &SharedTable<W, Q, N>,
    seat: &mut Seat<N>,
    ticket: Ticket,
    news: News,
) -> Result<(), AllocError>
    requires { Brings W.told W.shelved news }
    ensures frees { OnOk result (FreesLate seat.old.shares seat.new.shares) }
    ensures early { OnErr result (EndsEarly seat.old.shares seat.new.shares) }
    ensures delivers { OnOk result (seat.new.shares.kept + seat.new.shares.lates ≡ seat.old.shares.kept + seat.old.shares.lates + 1) }
    ensures returns { seat.new.shares.kept + seat.new.shares.returns ≡ seat.old.shares.kept + seat.old.shares.returns + 1 }
    ensures claims { seat.new.shares.claims ≡ seat.old.shares.claims }
    ensures fetches { seat.new.shares.fetches ≡ seat.old.shares.fetches }
    ensures overs { seat.new.shares.overs ≡ seat.old.shares.overs }
    ensures failed { seat.new.shares.failed ≤ seat.old.shares.failed + failures_told news }
    ensures worker { seat.new.worker ≡ seat.old.worker }
{
    match shared.deliver(rt, seat, ticket, news) {
        Taken::Kept => Ok(()),
        Taken::Late(ticket, _serial) => {
            shared.release(rt, seat, ticket);
            Ok(())
        }
        Taken::Memory(ticket, _news) => {
            shared.release(rt, seat, ticket);
            Err(AllocError)
        }
    }
}

/// Works on a task and delivers what it comes to. Where memory is wanting for that, the ticket is given back.
#[tactic(auto, using(crate::proofs::Counting::fails_by, crate::proofs::Counting::fails_none))]
fn carry_out<T: Wait, W: World, D: Desk<W>, G: Gate, Q: Rooted, N: Counted>(
    rt: &T,
    alloc: Global,
    shared: &SharedTable<W, Q, N>,
    seat: &mut Seat<N>,
    desk: &mut D,
    visit: &mut Visit<'_, W>,
    gate: &G,
    ticket: Ticket,
    work: Work,
) -> Result<(), AllocError>
    requires { IsFitWork work }
    ensures asked { D.asked desk.new ≡ asked_after work (D.asked desk.old) }
    ensures fails { Fails (D.faults desk.old) (D.faults desk.new) seat.old.shares seat.new.shares }
    ensures filed { D.filed desk.new ≡ D.filed desk.old }
    ensures frees { OnOk result (FreesLate seat.old.shares seat.new.shares) }
    ensures early { OnErr result (EndsEarly seat.old.shares seat.new.shares) }
    ensures delivers { OnOk result (seat.new.shares.kept + seat.new.shares.lates ≡ seat.old.shares.kept + seat.old.shares.lates + 1) }
    ensures returns { seat.new.shares.kept + seat.new.shares.returns ≡ seat.old.shares.kept + seat.old.shares.returns + 1 }
    ensures claims { seat.new.shares.claims ≡ seat.old.shares.claims }
    ensures fetches { seat.new.shares.fetches ≡ seat.old.shares.fetches }
    ensures overs { seat.new.shares.overs ≡ seat.old.shares.overs }
    ensures worker { seat.new.worker ≡ seat.old.worker }
{
    match bring(alloc, desk, visit, gate, work) {
        Ok(news) => hand_in(rt, shared, seat, ticket, news),
        Err(error) => {
            shared.release(rt, seat, ticket);
            Err(error)
        }
    }
}

/// One turn: a claim, and the work on the task that it finds. Where memory is wanting the ticket of the task is given back.
fn take_turn<T: Wait, W: World, D: Desk<W>, G: Gate, Q: Rooted, N: Counted>(
    rt: &T,
    alloc: Global,
    shared: &SharedTable<W, Q, N>,
    seat: &mut Seat<N>,
    desk: &mut D,
    visit: &mut Visit<'_, W>,
    gate: &G,
) -> Result<Next, AllocError>
    ensures overs { IfOk result (λ next. seat.new.shares.overs ≡ seat.old.shares.overs + overs_by next) }
    ensures early { OnErr result (EndsEarly seat.old.shares seat.new.shares) }
    ensures frees { OnOk result (FreesLate seat.old.shares seat.new.shares) }
    ensures delivers { OnOk result (Delivers seat.old.shares seat.new.shares) }
    ensures returns { GivesBack seat.old.shares seat.new.shares }
    ensures asks { OnOk result (AsksOnce (D.asked desk.old) (D.asked desk.new) seat.old.shares seat.new.shares) }
    ensures fails { Fails (D.faults desk.old) (D.faults desk.new) seat.old.shares seat.new.shares }
    ensures filed { D.filed desk.new ≡ D.filed desk.old }
    ensures worker { seat.new.worker ≡ seat.old.worker }
{
    match shared.claim(rt, seat) {
        Turn::Over => Ok(Next::End),
        Turn::Memory => Err(AllocError),
        Turn::Idle => Ok(Next::Wait),
        Turn::Work(ticket, work) => {
            carry_out(rt, alloc, shared, seat, desk, visit, gate, ticket, work)?;
            Ok(Next::Claim)
        }
    }
}

/// Claims tasks, passes the gate before each fetch, looks on the shelf before it asks its desk for an entry, works on each task and
/// delivers what it comes to, until a claim finds the root decided. Where memory is wanting it gives its ticket back and ends; after
/// news that came late it gives its ticket back and goes on.
pub fn worker<T: Wait, W: World, D: Desk<W>, G: Gate, Q: Rooted, N: Counted>(
    rt: &T,
    alloc: Global,
    shared: &SharedTable<W, Q, N>,
    seat: &mut Seat<N>,
    desk: &mut D,
    visit: &mut Visit<'_, W>,
    gate: &G,
) -> Result<(), AllocError>
    ensures over { OnOk result (seat.new.shares.overs ≡ seat.old.shares.overs + 1) }
    ensures early { OnErr result (EndsEarly seat.old.shares seat.new.shares) }
    ensures frees { OnOk result (FreesLate seat.old.shares seat.new.shares) }
    ensures delivers { OnOk result (Delivers seat.old.shares seat.new.shares) }
    ensures returns { GivesBack seat.old.shares seat.new.shares }
    ensures asks { OnOk result (Asks (D.asked desk.old) (D.asked desk.new) seat.old.shares seat.new.shares) }
    ensures fails { Fails (D.faults desk.old) (D.faults desk.new) seat.old.shares seat.new.shares }
    ensures filed { D.filed desk.new ≡ D.filed desk.old }
    ensures worker { seat.new.worker ≡ seat.old.worker }
{
    for _ in rt.forever() {
        match take_turn(rt, alloc, shared, seat, desk, visit, gate)? {
            Next::Claim => {}
            Next::Wait => shared.wait(rt, seat),
            Next::End => return Ok(()),
        }
    }
    unreachable!()
}
