//! Outcomes are forgotten that stood on texts which were taken away.

ghost use Rattle.std.specs.Prelude.{◌≡◌, ◌<◌, [], All, filter, length, map};
ghost use Rattle.dh_demand.specs.Results.{ask_of};
ghost use Rattle.dh_imports.specs.Resolver.{stage};
ghost use Rattle.dh_record.specs.Entering.{AreDistinct, IsListed, keys_in};
ghost use Rattle.dh_record.specs.Reading.{IsRead, record_by};
ghost use Rattle.dh_record.specs.Rows.{key_named, rows_of};
ghost use Rattle.dh_watch_laws.specs.Kept.{IsSound};
ghost use Rattle.dh_watch_laws.specs.Sweeping.{is_due};
ghost use Rattle.dh_watch_rows.specs.Inside.Sifting.{Sifting, has_outcome};
ghost use Rattle.dh_watch_rows.specs.KeptRows.{IsGood, kept_of};
ghost use Rattle.dh_watch_rows.specs.Leaving.{IsLeft, swept_now};

use crate::rows::Rows;
use dh_record::{Entrant, Entrants, Kind, Looks, Reach, Texts, look_ahead};

impl Rows {
    /// Forgets each outcome whose last step is not due by what is left of the earlier ones: those that stood on texts which were taken
    /// away. It takes no memory, and moves no outcome.
    pub fn sweep(&mut self)
        requires good { IsGood self.old }
        requires left { IsLeft (kept_of self.old) }
        ensures good { IsGood self.new }
        ensures kept { kept_of self.new ≡ swept_now (kept_of self.old) }
        ensures sound { IsSound (kept_of self.new) }
        ensures keys { keys_in self.new.keys ≡ keys_in self.old.keys }
    {
        let texts = Texts::of(self.texts.as_slice(), &self.text_order);
        let looks = Looks::of(self.looks.as_slice(), &self.look_order);
        sift(&mut self.keys, &texts, &looks, &mut self.found);
        keep_known(self.keys.as_slice(), &mut self.limited);
    }
}

// Looks at the keys of these numbers, the oldest first: where the last step of a key is not due, it loses its outcome, and its number is
// taken out.
fn sift(keys: &mut Entrants, texts: &Texts<'_>, looks: &Looks<'_>, found: &mut Vec<u32>)
    requires distinct { AreDistinct (keys_in keys.old) }
    requires begins { Sifting (record_by texts.now looks.now) texts.now keys.old found.old.items keys.old [] found.old.items }
    ensures { Sifting (record_by texts.now looks.now) texts.now keys.old found.old.items keys.new found.new.items [] }
{
    let mut left: usize = 0;
    for i in 0..found.len() {
        let n = found[i];
        if !is_due(keys, texts, looks, n) {
            keys.undecide(n);
            continue;
        }
        found[left] = n;
        left += 1;
    }
    found.truncate(left);
}

// Whether the last step of the key of this number is due.
fn is_due(keys: &Entrants, texts: &Texts<'_>, looks: &Looks<'_>, n: u32) -> bool
    requires inside { n < length keys.now }
    requires listed { All (IsListed (rows_of keys.now)) keys.now }
    requires read { All (IsRead (rows_of keys.now)) texts.now }
    ensures { result ≡ is_due (stage (record_by texts.now looks.now) (ask_of (rows_of keys.now)) (key_named keys.now n)) }
{
    match look_ahead(keys, texts, looks, n) {
        Reach::Due(Kind::Finish) => true,
        Reach::Due(Kind::Fetch) => false,
        Reach::Due(Kind::Look) => false,
        Reach::Wait(_) => false,
    }
}

// Keeps the numbers of keys that have outcomes.
fn keep_known(keys: &[Entrant], numbers: &mut Vec<u32>)
    ensures { numbers.new.items ≡ filter (has_outcome keys.now) numbers.old.items }
{
    numbers.retain(|n| has_outcome(keys, *n));
}

// Whether the key of this number has an outcome.
fn has_outcome(keys: &[Entrant], n: u32) -> bool
    ensures { result ≡ has_outcome keys.now n }
{
    match keys.get(n as usize) {
        Some(entrant) => entrant.outcome.is_some(),
        None => false,
    }
}
