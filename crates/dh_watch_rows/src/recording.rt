//! Texts and looks are recorded.

ghost use Rattle.std.specs.Prelude.{◌≡◌, ◌<◌, ◌≤◌, ◌^◌, Some, None, IfOk, OnOk, OnErr, length, vec_len, vec_capacity};
ghost use Rattle.dh_imports.specs.Records as found;
ghost use Rattle.dh_imports.specs.Records.{look_at, text_at};
ghost use Rattle.dh_record.specs.Brought.{IsScanned, imports_of};
ghost use Rattle.dh_record.specs.declared.news.Noted.TheVariants as noteds;
ghost use Rattle.dh_record.specs.Entering.{AreEdges, AreMore, entered_all, keys_in};
ghost use Rattle.dh_record.specs.Rows.{noted_by, parsed_by, rows_of};
ghost use Rattle.dh_watch_laws.specs.Kept.{keep_look, keep_text};
ghost use Rattle.dh_watch_rows.specs.KeptRows.{AreBehind, IsGood, kept_of};

use crate::rows::Rows;
use dh_demand::Edges;
use dh_ports::Got;
use dh_record::{
    Entrants, LocProbe, Look, LookProbe, Noted, Order, Parsed, Seen, Text, enter_all, imports_of,
    next_number, put, read_of,
};
use dh_syntax::{Digest, Key, Loc};
use std::alloc::AllocError;

impl Rows {
    /// Records that there is no entry of this digest. Where memory is wanting, what is kept stays as it was.
    pub fn record_miss(&mut self, digest: Digest) -> Result<(), AllocError>
        requires good { IsGood self.old }
        requires new { look_at (kept_of self.old).recorded digest ≡ None }
        ensures good { IsGood self.new }
        ensures kept { OnOk result (kept_of self.new ≡ keep_look (kept_of self.old) digest found.Miss) }
        ensures same { OnErr result (kept_of self.new ≡ kept_of self.old) }
        ensures keys { self.new.keys ≡ self.old.keys }
    {
        let number = next_number(&mut self.looks, &mut self.look_order)?;
        let probe = LookProbe {
            rows: self.looks.as_slice(),
            digest: &digest,
        };
        self.look_order.insert(&probe, number);
        let look = Seen::Miss;
        put(&mut self.looks, Look { digest, look });
        Ok(())
    }

    /// Records a text with what it parses to, and numbers the keys of its imports. Where memory is wanting, what is kept stays as it was.
    pub fn record_text(
        &mut self,
        loc: Loc,
        got: Got,
        scan: Option<Parsed>,
    ) -> Result<(), AllocError>
        requires good { IsGood self.old }
        requires scanned { IsScanned loc (noteds.Got got) scan }
        requires new { text_at (kept_of self.old).recorded loc ≡ None }
        ensures good { IsGood self.new }
        ensures kept { OnOk result (kept_of self.new ≡ keep_text (kept_of self.old) loc (noted_by (noteds.Got got) (parsed_by scan))) }
        ensures same { OnErr result (kept_of self.new ≡ kept_of self.old) }
        ensures keys { AreBehind self.old.keys self.new.keys }
    {
        let Rows {
            keys,
            texts,
            text_order,
            ..
        } = self;
        let (edges, number) = room_for(keys, texts, text_order, &loc, imports_of(&scan))?;
        let rows = texts.as_slice();
        text_order.insert(&LocProbe { rows, loc: &loc }, number);
        let read = read_of(scan, edges);
        let got = Noted::Got(got);
        put(texts, Text { loc, got, read });
        Ok(())
    }
}

// Room for one more text at a location, with its number, and numbers for the keys of its imports. Where memory is wanting, all
// but the room is as it was.
fn room_for(
    keys: &mut Entrants,
    texts: &mut Vec<Text>,
    order: &mut Order,
    loc: &Loc,
    imports: &[Key],
) -> Result<(Edges, u32), AllocError>
    requires few { length keys.old ≤ 2 ^ 32 }
    ensures few { length keys.new ≤ 2 ^ 32 }
    ensures entered { OnOk result (AreMore keys.old (entered_all (keys_in keys.old) imports.now) keys.new) }
    ensures edges { IfOk result (λ r. AreEdges (Some loc.now) (rows_of keys.new) imports.now r.0) }
    ensures number { IfOk result (λ r. r.1 ≡ length texts.new.items) }
    ensures place { OnOk result (vec_len order.new.numbers < vec_capacity order.new.numbers) }
    ensures numbers { order.new.numbers.items ≡ order.old.numbers.items }
    ensures same { OnErr result (keys.new ≡ keys.old) }
    ensures items { texts.new.items ≡ texts.old.items }
    ensures room { OnOk result (vec_len texts.new < vec_capacity texts.new) }
{
    let number = next_number(texts, order)?;
    let alloc = *texts.allocator();
    let count = keys.len();
    let entered = enter_all(alloc, keys, imports, Some(loc));
    if entered.is_err() {
        keys.truncate(count);
    }
    let edges = entered?;
    Ok((edges, number))
}
