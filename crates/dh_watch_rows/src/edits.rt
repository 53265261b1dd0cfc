//! Texts are taken away.

ghost use Rattle.std.specs.Prelude.{◌≡◌, false, map};
ghost use Rattle.dh_watch_rows.specs.KeptRows.{IsGood, kept_of};
ghost use Rattle.dh_watch_rows.specs.Inside.Gaps.{closed, lower};
ghost use Rattle.dh_watch_rows.specs.Removing.{Forgets};

use crate::rows::Rows;
use dh_record::{LocProbe, Order};
use dh_syntax::Loc;

impl Rows {
    /// Takes away what is recorded of a location. Answers whether there was anything. The outcomes stay until a sweep.
    pub fn forget_text(&mut self, loc: &Loc) -> bool
        requires good { IsGood self.old }
        ensures good { IsGood self.new }
        ensures forgets { Forgets (kept_of self.old) loc.now (kept_of self.new) }
        ensures same { result ≡ false → kept_of self.new ≡ kept_of self.old }
        ensures keys { self.new.keys ≡ self.old.keys }
    {
        let probe = LocProbe {
            rows: self.texts.as_slice(),
            loc,
        };
        let Some(number) = self.text_order.find(&probe) else {
            return false;
        };
        let _text = self.texts.remove(number as usize);
        close_gap(&mut self.text_order, number);
        true
    }
}

// The numbers without this one, those above it lowered by one.
fn close_gap(order: &mut Order, number: u32)
    ensures { order.new.numbers.items ≡ closed number order.old.numbers.items }
{
    order.numbers.retain(|n| *n != number);
    lower_all(&mut order.numbers, number);
}

// Each number, lowered by one where it is above another.
fn lower_all(numbers: &mut Vec<u32>, number: u32)
    ensures { numbers.new.items ≡ map (lower number) numbers.old.items }
{
    for i in 0..numbers.len() {
        numbers[i] = lowered(numbers[i], number);
    }
}

// A number, lowered by one where it is above another.
fn lowered(n: u32, number: u32) -> u32
    ensures { result ≡ lower number n }
{
    if n > number { n - 1 } else { n }
}
