//! The calls of a table under the lock, with what each adds to the counts.

ghost use Rattle.std.specs.Prelude.{◌≡◌, ◌+◌, ◌≤◌, cond, length, IfOk};
ghost use Rattle.dh_record.specs.Brought.{brings_failure, has_failed, news_of};
ghost use Rattle.dh_record.specs.Rows.{noted_by, parsed_by};
ghost use Rattle.dh_table.specs.Works.{IsFitWork};
ghost use Rattle.dh_shared.specs.Counting.{is_fetch};
ghost use Rattle.dh_shared.specs.Inside.{Draws, Flies, HandsIn, PutsBack};
ghost use Rattle.dh_shared.specs.Turns.{Brings, IsWorkOf, fetches_of};

use dh_ports::{Got, World};
use dh_table::{Claimed, Kind, News, Noted, Parsed, Seen, Table, Taken, Ticket, Work};
use std::alloc::{AllocError, Global};

/// Whether the task of a ticket is a fetch.
pub(crate) fn is_fetch(ticket: &Ticket) -> bool
    ensures { result ≡ is_fetch ticket.now.kind }
{
    match ticket.kind() {
        Kind::Fetch => true,
        Kind::Look | Kind::Finish => false,
    }
}

/// Whether news counts as a failure of a device: found bytes always come with what they parse to.
pub(crate) fn tells_failure(news: &News) -> bool
    ensures { result ≡ brings_failure (news_of news.now) }
{
    match news {
        News::Fetched {
            loc: _loc,
            got,
            scan,
        } => is_failed_text(got, scan),
        News::Looked {
            digest: _digest,
            look,
        } => matches!(look, Seen::Failed),
        News::Finished(_done) => false,
    }
}

fn is_failed_text(got: &Noted, scan: &Option<Parsed>) -> bool
    ensures { result ≡ has_failed (noted_by got.now (parsed_by scan.now)) }
{
    match got {
        Noted::Failed => true,
        Noted::Got(Got::Absent) => false,
        Noted::Got(Got::Broken(_)) => false,
        Noted::Got(Got::Found(_)) => match scan {
            None => true,
            Some(Parsed::Bad(_)) => false,
            Some(
                Parsed::Good {
                    expr: _expr,
                    keys: _keys,
                },
            ) => false,
        },
    }
}

/// What the task of a ticket needs.
pub(crate) fn work_of<W: World>(
    alloc: Global,
    table: &Table<W>,
    ticket: &Ticket,
) -> Result<Work, AllocError>
    requires { Flies table.now ticket.now }
    ensures own { IfOk result (λ work. IsWorkOf ticket.now work) }
    ensures fetches { IfOk result (λ work. fetches_of work ≡ cond (is_fetch ticket.now.kind) 1 0) }
    ensures fits { IfOk result IsFitWork }
{
    table.work(alloc, ticket)
}

/// One claim.
pub(crate) fn draw<W: World>(table: &mut Table<W>, worker: u32) -> Claimed
    requires { length table.old.flights + 3 ≤ table.old.spare }
    ensures { Draws table.old table.new result }
{
    table.claim(worker)
}

/// One release, or none where the serial is not in flight.
pub(crate) fn put_back<W: World>(table: &mut Table<W>, ticket: Ticket) -> bool
    ensures { PutsBack result table.old table.new ticket.serial }
{
    table.release(ticket)
}

/// One delivery.
pub(crate) fn hand_in<W: World>(table: &mut Table<W>, ticket: Ticket, news: News) -> Taken
    requires brings { Brings W.told W.shelved news }
    requires room { length table.old.flights + 1 ≤ table.old.spare }
    ensures { HandsIn news table.old table.new result }
{
    match &news {
        News::Fetched {
            loc: _loc,
            got: _got,
            scan: _scan,
        } => table.fetched(ticket, news),
        News::Looked {
            digest: _digest,
            look: _look,
        } => table.looked(ticket, news),
        News::Finished(_done) => table.finished(ticket, news),
    }
}
