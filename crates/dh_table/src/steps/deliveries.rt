//! Deliveries: what workers bring is recorded, where their ticket is in flight for it.

ghost use Rattle.std.specs.Prelude.{◌≡◌, ◌+◌, ◌≤◌, ℕ, MatchOption, length};
ghost use Rattle.dh_imports.specs.Machine.{InFlight, IsInTime};
ghost use Rattle.dh_record.specs.Brought.{BringsText, BringsLook, BringsOutcome, IsOfDigest, IsScanned, IsShelved, IsTold, news_of};
ghost use Rattle.dh_table.specs.Calls.{IsOwnSerial, IsTaken, Takes, StaysDecided, failures, new_failures};
ghost use Rattle.dh_table.specs.Inside.Recording.{task_named, IsOnly, IsFinish, IsOwnFinish};
ghost use Rattle.dh_table.specs.States.{state_of};

use crate::steps::{Flight, Name, flight_at};
use crate::tables::{Table, Ticket};
use dh_ports::World;
use dh_record::{Done, Item, News, Noted, Parsed, Seen, is_own_item};
use dh_syntax::{Digest, Loc};

/// What becomes of news.
#[derive(Debug, Drop)]
pub enum Taken {
    /// It is recorded.
    Kept,
    /// The serial in flight for what the news names is not the ticket's but this one; 0 where none is in flight.
    Late(Ticket, u64),
    /// Memory is wanting, and the table is as it was.
    Memory(Ticket, News),
}

impl<W: World> Table<W> {
    /// Records a text, and gives the keys of its imports their numbers.
    pub fn fetched(&mut self, ticket: Ticket, news: News) -> Taken
        requires room { length self.old.flights + 1 ≤ self.old.spare }
        requires brings { BringsText W.told news }
        ensures takes { Takes ticket news self.old self.new result }
        ensures decided { StaysDecided self.old self.new }
        ensures failures { failures (state_of self.new) ≡ failures (state_of self.old) + new_failures news result }
    {
        match news {
            News::Fetched { loc, got, scan } => self.take_text(ticket, loc, got, scan),
            News::Looked {
                digest: _digest,
                look: _look,
            } => unreachable!(),
            News::Finished(_done) => unreachable!(),
        }
    }

    /// Records a look.
    pub fn looked(&mut self, ticket: Ticket, news: News) -> Taken
        requires room { length self.old.flights + 1 ≤ self.old.spare }
        requires brings { BringsLook W.shelved news }
        ensures takes { Takes ticket news self.old self.new result }
        ensures decided { StaysDecided self.old self.new }
        ensures failures { failures (state_of self.new) ≡ failures (state_of self.old) + new_failures news result }
    {
        match news {
            News::Looked { digest, look } => self.take_look(ticket, digest, look),
            News::Fetched {
                loc: _loc,
                got: _got,
                scan: _scan,
            } => unreachable!(),
            News::Finished(_done) => unreachable!(),
        }
    }

    /// Records what came of a key. It takes no memory.
    pub fn finished(&mut self, ticket: Ticket, news: News) -> Taken
        requires room { length self.old.flights + 1 ≤ self.old.spare }
        requires brings { BringsOutcome news }
        ensures takes { Takes ticket news self.old self.new result }
        ensures decided { StaysDecided self.old self.new }
        ensures failures { failures (state_of self.new) ≡ failures (state_of self.old) + new_failures news result }
        ensures taken { IsTaken result }
    {
        match news {
            News::Finished(done) => self.take_outcome(ticket, done),
            News::Fetched {
                loc: _loc,
                got: _got,
                scan: _scan,
            } => unreachable!(),
            News::Looked {
                digest: _digest,
                look: _look,
            } => unreachable!(),
        }
    }

    // The delivery of an outcome.
    fn take_outcome(&mut self, ticket: Ticket, done: Done) -> Taken
        requires { length self.old.flights + 1 ≤ self.old.spare }
        ensures takes { Takes ticket (News.Finished done) self.old self.new result }
        ensures decided { StaysDecided self.old self.new }
        ensures failures { failures (state_of self.new) ≡ failures (state_of self.old) + new_failures (News.Finished done) result }
        ensures taken { IsTaken result }
    {
        let serial = ticket.serial;
        match self.own_finish(done.item()) {
            None => self.refuse_late(ticket, News::Finished(done), 0),
            Some(flight) => {
                if flight.serial != serial {
                    return self.refuse_late(ticket, News::Finished(done), flight.serial);
                }
                self.land_outcome(serial, flight.job.key, done);
                Taken::Kept
            }
        }
    }

    // The flight of the finish of a key on this item.
    fn own_finish(&self, item: &Item) -> Option<Flight>
        ensures { MatchOption result ((serial : ℕ) → ¬ IsFinish (state_of self.now) item.now serial) (λ f. IsOwnFinish self.now.keys (state_of self.now) item.now f) }
    {
        let flight = flight_at(&self.keys, self.flights.as_slice(), Name::Finish(&item.key))?;
        let texts = self.found_texts();
        let looks = self.found_looks();
        let own = is_own_item(&self.keys, &texts, &looks, flight.job.key, item);
        if own { Some(flight) } else { None }
    }

    // The serial under which a task is in flight.
    fn serial_of(&self, name: Name<'_>) -> Option<u64>
        ensures { MatchOption result ((serial : ℕ) → ¬ InFlight (state_of self.now) serial (task_named name.entry)) (λ n. IsOnly (state_of self.now) (task_named name.entry) n) }
    {
        let flight = flight_at(&self.keys, self.flights.as_slice(), name)?;
        Some(flight.serial)
    }

    // Refuses news for which this serial is in flight; 0 where none is.
    fn refuse_late(&mut self, ticket: Ticket, news: News, own: u64) -> Taken
        requires late { ¬ IsInTime (state_of self.old) ticket.serial (news_of news) }
        requires own { IsOwnSerial (state_of self.old) (news_of news) own }
        requires room { length self.old.flights + 1 ≤ self.old.spare }
        ensures takes { Takes ticket news self.old self.new result }
        ensures decided { StaysDecided self.old self.new }
        ensures failures { failures (state_of self.new) ≡ failures (state_of self.old) + new_failures news result }
        ensures taken { IsTaken result }
    {
        self.refuse(ticket.serial, news);
        Taken::Late(ticket, own)
    }

    // The delivery of a text.
    fn take_text(&mut self, ticket: Ticket, loc: Loc, got: Noted, scan: Option<Parsed>) -> Taken
        requires room { length self.old.flights + 1 ≤ self.old.spare }
        requires told { IsTold (W.told loc) got }
        requires scanned { IsScanned loc got scan }
        ensures takes { Takes ticket (News.Fetched loc got scan) self.old self.new result }
        ensures decided { StaysDecided self.old self.new }
        ensures failures { failures (state_of self.new) ≡ failures (state_of self.old) + new_failures (News.Fetched loc got scan) result }
    {
        let serial = ticket.serial;
        match self.serial_of(Name::Fetch(&loc)) {
            None => self.refuse_late(ticket, News::Fetched { loc, got, scan }, 0),
            Some(own) => {
                if own != serial {
                    return self.refuse_late(ticket, News::Fetched { loc, got, scan }, own);
                }
                match self.land_text(serial, loc, got, scan) {
                    None => Taken::Kept,
                    Some(news) => Taken::Memory(ticket, news),
                }
            }
        }
    }

    // The delivery of a look.
    fn take_look(&mut self, ticket: Ticket, digest: Digest, look: Seen) -> Taken
        requires room { length self.old.flights + 1 ≤ self.old.spare }
        requires digest { IsOfDigest digest look }
        requires shelved { IsShelved digest (W.shelved digest) look }
        ensures takes { Takes ticket (News.Looked digest look) self.old self.new result }
        ensures decided { StaysDecided self.old self.new }
        ensures failures { failures (state_of self.new) ≡ failures (state_of self.old) + new_failures (News.Looked digest look) result }
    {
        let serial = ticket.serial;
        match self.serial_of(Name::Look(&digest)) {
            None => self.refuse_late(ticket, News::Looked { digest, look }, 0),
            Some(own) => {
                if own != serial {
                    return self.refuse_late(ticket, News::Looked { digest, look }, own);
                }
                match self.land_look(serial, digest, look) {
                    None => Taken::Kept,
                    Some(news) => Taken::Memory(ticket, news),
                }
            }
        }
    }
}
