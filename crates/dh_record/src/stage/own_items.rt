//! Whether an item is that of a key which is due.

ghost use Rattle.std.specs.Prelude.{◌≡◌, ◌<◌, All, length};
ghost use Rattle.dh_demand.specs.Results.{ask_of};
ghost use Rattle.dh_imports.specs.Resolver.{stage};
ghost use Rattle.dh_record.specs.Entering.{IsListed};
ghost use Rattle.dh_record.specs.Inside.Equal.{are_due_on_one};
ghost use Rattle.dh_record.specs.Items.{stage_of_item};
ghost use Rattle.dh_record.specs.Reading.{record_by, IsRead};
ghost use Rattle.dh_record.specs.Rows.{key_named, rows_of};

use crate::items::Item;
use crate::rows::{Entrants, Looks, Texts};
use crate::stage::{Stage, stage_at};
use dh_demand::Results;

/// Whether the key of this number is due, on this item. It takes no memory.
pub fn is_own_item(
    keys: &Entrants,
    texts: &Texts<'_>,
    looks: &Looks<'_>,
    n: u32,
    item: &Item,
) -> bool
    requires inside { n < length keys.now }
    requires listed { All (IsListed (rows_of keys.now)) keys.now }
    requires read { All (IsRead (rows_of keys.now)) texts.now }
    ensures { result ≡ are_due_on_one (stage (record_by texts.now looks.now) (ask_of (rows_of keys.now)) (key_named keys.now n)) (stage_of_item item.now) }
{
    match stage_at(keys, texts, looks, n) {
        Stage::Finish(due) => due.is_item(keys, keys.key(n), item),
        Stage::Fetch | Stage::Look => false,
        Stage::Wait(_) => false,
    }
}
