//! The item of a key whose last step is due.

ghost use Rattle.std.specs.Prelude.{◌<◌, All, length, IfOk};
ghost use Rattle.dh_demand.specs.Results.{ask_of};
ghost use Rattle.dh_imports.specs.Machine.{IsDue};
ghost use Rattle.dh_imports.specs.Resolver.{stage};
ghost use Rattle.dh_record.specs.Due.{AreSpelled, IsItem, IsValued};
ghost use Rattle.dh_record.specs.Entering.{IsListed};
ghost use Rattle.dh_record.specs.Reading.{record_by, IsRead};
ghost use Rattle.dh_record.specs.Rows.{key_named, rows_of};
ghost use Rattle.dh_record.specs.Values.{IsFit};

use crate::items::Item;
use crate::rows::{Entrants, Looks, Texts};
use crate::stage::{Stage, stage_at};
use dh_demand::Results;
use std::alloc::{AllocError, Global};

/// The item of the key of this number, whose last step is due.
pub fn due_item(
    alloc: Global,
    keys: &Entrants,
    texts: &Texts<'_>,
    looks: &Looks<'_>,
    n: u32,
) -> Result<Item, AllocError>
    requires inside { n < length keys.now }
    requires listed { All (IsListed (rows_of keys.now)) keys.now }
    requires read { All (IsRead (rows_of keys.now)) texts.now }
    requires due { IsDue (stage (record_by texts.now looks.now) (ask_of (rows_of keys.now)) (key_named keys.now n)) }
    requires valued { All IsValued keys.now }
    requires spelled { AreSpelled texts.now }
    ensures item { IfOk result (IsItem (key_named keys.now n) (stage (record_by texts.now looks.now) (ask_of (rows_of keys.now)) (key_named keys.now n))) }
    ensures fits { IfOk result (λ i. IsFit i.body) }
{
    match stage_at(keys, texts, looks, n) {
        Stage::Finish(due) => due.item(alloc, keys, keys.key(n)),
        Stage::Fetch | Stage::Look => unreachable!(),
        Stage::Wait(_) => unreachable!(),
    }
}
