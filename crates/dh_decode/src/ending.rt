//! What a place is where no item is left.
ghost use Rattle.std.specs.Prelude.{◌≡◌, IfOk, option_map};
ghost use Rattle.dh_binary.specs.Machine as machine;
ghost use Rattle.dh_binary.specs.Stubs.{stubs};
ghost use Rattle.dh_decode.specs.Inside.Views.{place_of, value_of};

use crate::entries::labels_in;
use crate::imports::path_part;
use crate::nodes::{fields_of, interpolated, operated};
use crate::places::{OpenItem, Value};
use dh_syntax::Many;
use std::alloc::{AllocError, Global};

impl<'a> OpenItem<'a> {
    /// What a place without further items is, if it is something.
    #[inline(always)]
    pub fn ended(self, alloc: Global) -> Result<Option<Value<'a>>, AllocError>
        ensures { IfOk result (λ v. option_map value_of v ≡ machine.result stubs (place_of self.entry)) }
    {
        match self {
            OpenItem::Finished(part) => Ok(Some(Value::Holds(part))),
            OpenItem::Applying(Some(part)) => Ok(Some(Value::Holds(part))),
            OpenItem::Operands(form, parts) => Ok(Some(Value::Holds(operated(
                alloc, form, parts,
            )?))),
            OpenItem::Projected(part) => {
                let labels = Many::new(alloc);
                Ok(Some(Value::Holds(fields_of(alloc, part, labels)?)))
            }
            OpenItem::Labelled(part, names) => {
                let labels = labels_in(alloc, names)?;
                Ok(Some(Value::Holds(fields_of(alloc, part, labels)?)))
            }
            OpenItem::Between(pieces, parts) => {
                Ok(Some(Value::Holds(interpolated(alloc, pieces, parts)?)))
            }
            OpenItem::Components(start, scheme, comps) => {
                Ok(Some(Value::Holds(path_part(alloc, start, scheme, comps)?)))
            }
            OpenItem::Labels(labels) => Ok(Some(Value::Path(labels))),
            OpenItem::Key(_, entries) => Ok(Some(Value::Entries(entries))),
            _ => Ok(None),
        }
    }
}
