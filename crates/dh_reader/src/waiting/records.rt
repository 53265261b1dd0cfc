//! Waits of records and record types, up to their first key, and of fields.
ghost use Rattle.std.specs.Prelude.{◌≡◌};
ghost use Rattle.dh_grammar.specs.Machine as machine;
ghost use Rattle.dh_making.specs.Words.{key_of};
ghost use Rattle.dh_reader.specs.Follows.{Follows};
ghost use Rattle.dh_reader.specs.Inside.Nexts.{next};
ghost use Rattle.dh_reader.specs.Stacks.{stack_of};
ghost use Rattle.dh_reader.specs.declared.tops.Top.TheVariants as tops;

use crate::frames::Shut;
use crate::reader::Reader;
use crate::stops::{Stop, refused};
use crate::tops::Wait;
use crate::waiting::tokens::{into_mark, is_found, mark_of};
use dh_making::{EntryKey, Keys, Makes};
use dh_syntax::{Mark, TokenKind};

/// Behind `{`.
pub(crate) fn record_start<M: Makes>(
    reader: &mut Reader<M>,
    has_leading: bool,
    kind: TokenKind,
) -> Result<(), Stop>
    requires { reader.old.top ≡ tops.Need }
    ensures { Follows M.views (next (M.makes reader.old.at) (machine.record_start has_leading) kind (stack_of M.views reader.old.frames)) reader.new result }
{
    let mark = mark_of(&kind);
    let key = EntryKey::of_token(kind);
    if is_found(mark, Mark::Comma) {
        if has_leading {
            Err(Stop::Refused)
        } else {
            reader.enter_wait(Wait::RecordStart(true))
        }
    } else if is_found(mark, Mark::Equals) {
        reader.enter_wait(Wait::RecordEquals(has_leading, false))
    } else if is_found(mark, Mark::BraceClose) {
        let made = M::record_type_none(reader.alloc, reader.at, has_leading)?;
        reader.enter_ready(made)
    } else {
        match key {
            Some(key) => {
                let keys = Keys::one(reader.alloc, key);
                reader.enter_wait(Wait::EntryKeys(has_leading, None, keys))
            }
            None => Err(Stop::Refused),
        }
    }
}

/// Behind `{ =`.
pub(crate) fn record_equals<M: Makes>(
    reader: &mut Reader<M>,
    has_leading: bool,
    ends_late: bool,
    kind: TokenKind,
) -> Result<(), Stop>
    requires { reader.old.top ≡ tops.Need }
    ensures { Follows M.views (next (M.makes reader.old.at) (machine.record_equals has_leading ends_late) kind (stack_of M.views reader.old.frames)) reader.new result }
{
    let mark = into_mark(kind);
    if is_found(mark, Mark::Comma) {
        if ends_late {
            Err(Stop::Refused)
        } else {
            reader.enter_wait(Wait::RecordEquals(has_leading, true))
        }
    } else if is_found(mark, Mark::BraceClose) {
        let made = M::record_none(reader.alloc, reader.at, has_leading, ends_late)?;
        reader.enter_ready(made)
    } else {
        Err(Stop::Refused)
    }
}

/// Behind `{`, the fields so far and `,`.
pub(crate) fn field_comma<M: Makes>(
    reader: &mut Reader<M>,
    has_leading: bool,
    fields: M::Fields,
    kind: TokenKind,
) -> Result<(), Stop>
    requires { reader.old.top ≡ tops.Need }
    ensures { Follows M.views (next (M.makes reader.old.at) (machine.field_comma has_leading (M.views.fields fields)) kind (stack_of M.views reader.old.frames)) reader.new result }
{
    let mark = mark_of(&kind);
    let key = EntryKey::of_token(kind);
    if is_found(mark, Mark::BraceClose) {
        let made = M::record_type(reader.alloc, reader.at, has_leading, fields, true)?;
        reader.enter_ready(made)
    } else {
        match key {
            Some(key) => {
                if M::has_field(reader.alloc, reader.at, &fields, &key)? {
                    return Err(refused((fields, key)));
                }
                reader.enter_wait(Wait::FieldKey(has_leading, fields, key))
            }
            None => Err(refused(fields)),
        }
    }
}

/// Behind `{`, the fields so far and `key`.
pub(crate) fn field_key<M: Makes>(
    reader: &mut Reader<M>,
    has_leading: bool,
    fields: M::Fields,
    key: EntryKey,
    kind: TokenKind,
) -> Result<(), Stop>
    requires { reader.old.top ≡ tops.Need }
    ensures { Follows M.views (next (M.makes reader.old.at) (machine.field_key has_leading (M.views.fields fields) (key_of key)) kind (stack_of M.views reader.old.frames)) reader.new result }
{
    let mark = into_mark(kind);
    if is_found(mark, Mark::Colon) {
        reader.enter_shut(Shut::FieldType(has_leading, Some(fields), key))
    } else {
        Err(refused((fields, key)))
    }
}
