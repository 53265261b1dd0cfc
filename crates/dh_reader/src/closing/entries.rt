//! Entries of records.
ghost use Rattle.std.specs.Prelude.{◌≡◌, IfOk, option_map};
ghost use Rattle.dh_making.specs.Words.{keys_of};

use crate::reader::Reader;
use dh_making::{Keys, Makes};
use std::alloc::AllocError;

/// One entry more, `keys = value`.
pub(crate) fn and_entry<M: Makes>(
    reader: &Reader<M>,
    so_far: Option<M::Entries>,
    keys: Keys,
    value: M::Tree,
) -> Result<M::Entries, AllocError>
    ensures { IfOk result (λ es.
        M.views.entries es ≡ (M.makes reader.now.at).add_entry (option_map M.views.entries so_far) ((M.makes reader.now.at).given (keys_of keys) (M.views.tree value))) }
{
    let entry = M::given(reader.alloc, reader.at, keys, value)?;
    M::add_entry(reader.alloc, reader.at, so_far, entry)
}
