//! The steps that record news.

ghost use Rattle.std.specs.Prelude.{◌≡◌, ◌+◌, ◌<◌, ◌≤◌, ◌^◌, ◌++◌, ◌∷◌, [], if◌then◌else◌, Some, IfOk, OnOk, OnErr, MatchOption, length, vec_len, vec_capacity};
ghost use Rattle.dh_imports.specs.Machine.{IsInTime};
ghost use Rattle.dh_imports.specs.Records.{IsGood};
ghost use Rattle.dh_record.specs.Brought.{IsOfDigest, IsScanned, IsShelved, IsTold, imports_of, read_of, news_of};
ghost use Rattle.dh_table.specs.Calls.{Records, StaysDecided};
ghost use Rattle.dh_record.specs.Entering.{keys_in, entered_all, AreMore, AreEdges};
ghost use Rattle.dh_table.specs.Inside.Searching.{IsSameKnown};
ghost use Rattle.dh_record.specs.Rows.{key_named, rows_of, seen_by};
ghost use Rattle.dh_table.specs.States.{state_of};
ghost use Rattle.dh_table.specs.Tables.{IsRoomy};

use crate::search::Scratch;
use crate::steps::{Step, is_open_value};
use crate::tables::Table;
use dh_demand::{Edges, Scan};
use dh_ports::World;
use dh_record::{
    Done, Entrants, LocProbe, Look, LookProbe, News, Noted, Order, Parsed, Seen, Text, enter_all,
    imports_of, next_number, put, read_of,
};
use dh_syntax::{Digest, Key, Loc, ParseFault};
use std::alloc::AllocError;

impl<W: World> Table<W> {
    // The step that records a look. Where memory is wanting, the table stays as it was, and the look is handed back.
    pub(crate) fn land_look(&mut self, serial: u64, digest: Digest, look: Seen) -> Option<News>
        requires digest { IsOfDigest digest look }
        requires shelved { IsShelved digest (W.shelved digest) look }
        requires in_time { IsInTime (state_of self.old) serial (news_of (News.Looked digest look)) }
        requires room { length self.old.flights + 1 ≤ self.old.spare }
        ensures lands { MatchOption result (Records serial (news_of (News.Looked digest look)) self.old self.new) (λ n. (n ≡ News.Looked digest look) × (self.new ≡ self.old)) }
        ensures decided { StaysDecided self.old self.new }
    {
        let Ok(number) = next_number(&mut self.looks, &mut self.look_order) else {
            return Some(News::Looked { digest, look });
        };
        tell_good(&digest, &look);
        let probe = LookProbe {
            rows: self.looks.as_slice(),
            digest: &digest,
        };
        self.look_order.insert(&probe, number);
        put(&mut self.looks, Look { digest, look });
        self.flights.retain(|flight| flight.serial != serial);
        put(&mut self.history, Step::Looked { serial });
        None
    }

    // The step that records a text. Where memory is wanting, the table stays as it was, and the text is handed back.
    pub(crate) fn land_text(
        &mut self,
        serial: u64,
        loc: Loc,
        got: Noted,
        scan: Option<Parsed>,
    ) -> Option<News>
        requires told { IsTold (W.told loc) got }
        requires scanned { IsScanned loc got scan }
        requires in_time { IsInTime (state_of self.old) serial (news_of (News.Fetched loc got scan)) }
        requires room { length self.old.flights + 1 ≤ self.old.spare }
        ensures lands { MatchOption result (Records serial (news_of (News.Fetched loc got scan)) self.old self.new) (λ n. (n ≡ News.Fetched loc got scan) × (self.new ≡ self.old)) }
        ensures decided { StaysDecided self.old self.new }
    {
        let Table {
            keys,
            texts,
            text_order,
            scratch,
            flights,
            history,
            ..
        } = self;
        match room_for(keys, texts, text_order, scratch, &loc, imports_of(&scan)) {
            Ok((edges, number)) => {
                let rows = texts.as_slice();
                text_order.insert(&LocProbe { rows, loc: &loc }, number);
                let read = read_of(scan, edges);
                put(texts, Text { loc, got, read });
                flights.retain(|flight| flight.serial != serial);
                put(history, Step::Fetched { serial });
                None
            }
            Err(_) => Some(News::Fetched { loc, got, scan }),
        }
    }

    // The step that decides the key of this number.
    pub(crate) fn land_outcome(&mut self, serial: u64, n: u32, done: Done)
        requires inside { n < length self.old.keys }
        requires named { key_named self.old.keys n ≡ done.item.key }
        requires in_time { IsInTime (state_of self.old) serial (news_of (News.Finished done)) }
        requires room { length self.old.flights + 1 ≤ self.old.spare }
        ensures lands { Records serial (news_of (News.Finished done)) self.old self.new }
        ensures decided { StaysDecided self.old self.new }
    {
        done.by_last_step();
        done.by_value();
        let limited = done.is_limit();
        let passes = is_open_value(&done.item().key.loc, done.outcome());
        self.scratch.explored.free(n, passes);
        self.keys.decide(n, done.into_outcome());
        put(&mut self.decided, n);
        put_if(&mut self.limited, limited, n);
        self.flights.retain(|flight| flight.serial != serial);
        put(&mut self.history, Step::Finished { serial });
    }
}

// Adds a number, or not, where there is room.
fn put_if(v: &mut Vec<u32>, on: bool, n: u32)
    requires { vec_len v.old < vec_capacity v.old }
    ensures items { v.new.items ≡ (if on then v.old.items ++ n ∷ [] else v.old.items) }
    ensures len { vec_len v.new ≤ vec_len v.old + 1 }
    ensures room { vec_capacity v.old ≤ vec_capacity v.new }
{
    if on {
        put(v, n);
    }
}

// A good entry of a digest is one.
fn tell_good(digest: &Digest, look: &Seen)
    requires { IsOfDigest digest.now look.now }
    ensures { IsGood digest.now (seen_by look.now) }
{
    match look {
        Seen::Good(entry) => entry.by_digest(),
        Seen::Miss | Seen::Failed => {}
    }
}

// Room for one more text at a location, with its number, and numbers for the keys of its imports. Where memory is wanting, all
// but the room is as it was.
fn room_for(
    keys: &mut Entrants,
    texts: &mut Vec<Text>,
    order: &mut Order,
    scratch: &mut Scratch,
    loc: &Loc,
    imports: &[Key],
) -> Result<(Edges, u32), AllocError>
    requires few { length keys.old ≤ 2 ^ 32 }
    requires scratch { IsRoomy (length keys.old) scratch.old }
    ensures few { length keys.new ≤ 2 ^ 32 }
    ensures entered { OnOk result (AreMore keys.old (entered_all (keys_in keys.old) imports.now) keys.new) }
    ensures edges { IfOk result (λ r. AreEdges (Some loc.now) (rows_of keys.new) imports.now r.0) }
    ensures number { IfOk result (λ r. r.1 ≡ length texts.new.items) }
    ensures place { OnOk result (vec_len order.new.numbers < vec_capacity order.new.numbers) }
    ensures numbers { order.new.numbers.items ≡ order.old.numbers.items }
    ensures same { OnErr result (keys.new ≡ keys.old) }
    ensures items { texts.new.items ≡ texts.old.items }
    ensures len { vec_len texts.new ≡ vec_len texts.old }
    ensures room { OnOk result (vec_len texts.new < vec_capacity texts.new) }
    ensures scratch { IsRoomy (length keys.new) scratch.new }
    ensures known { IsSameKnown scratch.old.explored scratch.new.explored }
{
    let number = next_number(texts, order)?;
    let alloc = *texts.allocator();
    let count = keys.len();
    let entered = match enter_all(alloc, keys, imports, Some(loc)) {
        Ok(edges) => match scratch.grow(keys.len()) {
            Ok(()) => Ok((edges, number)),
            Err(fault) => Err(fault),
        },
        Err(fault) => Err(fault),
    };
    if entered.is_err() {
        keys.truncate(count);
    }
    entered
}
