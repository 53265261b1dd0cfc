//! Waits of the entries of records.
ghost use Rattle.std.specs.Prelude.{◌∷◌, ◌≡◌, IfErr, IfOk, None, option_map};
ghost use Rattle.dh_grammar.specs.Machine as machine;
ghost use Rattle.dh_grammar.specs.Machine.{field_type, need, one_of, shut, with_key};
ghost use Rattle.dh_making.specs.Words.{key_of, keys_of};
ghost use Rattle.dh_reader.specs.Follows.{Follows};
ghost use Rattle.dh_reader.specs.Inside.Nexts.{next, unless_some};
ghost use Rattle.dh_reader.specs.Stacks.{stack_of};
ghost use Rattle.dh_reader.specs.declared.tops.Top.TheVariants as tops;
ghost use Rattle.dh_reader.specs.declared.stops.Stop.TheVariants.{Memory};

use crate::frames::Shut;
use crate::reader::Reader;
use crate::stops::{Stop, refused};
use crate::tops::Wait;
use crate::waiting::tokens::{into_mark, is_found, mark_of};
use dh_making::{EntryKey, Keys, Makes};
use dh_syntax::{Mark, TokenKind};

/// Behind `{`, the entries so far and `,`.
pub(crate) fn entry_comma<M: Makes>(
    reader: &mut Reader<M>,
    has_leading: bool,
    entries: M::Entries,
    kind: TokenKind,
) -> Result<(), Stop>
    requires { reader.old.top ≡ tops.Need }
    ensures { Follows M.views (next (M.makes reader.old.at) (machine.entry_comma has_leading (M.views.entries entries)) kind (stack_of M.views reader.old.frames)) reader.new result }
{
    let mark = mark_of(&kind);
    let key = EntryKey::of_token(kind);
    if is_found(mark, Mark::BraceClose) {
        let made = M::record_of(reader.alloc, reader.at, has_leading, entries, true)?;
        reader.enter_ready(made)
    } else {
        match key {
            Some(key) => {
                let keys = Keys::one(reader.alloc, key);
                reader.enter_wait(Wait::EntryKeys(has_leading, Some(entries), keys))
            }
            None => Err(refused(entries)),
        }
    }
}

/// Behind `{`, the entries so far and `keys`.
pub(crate) fn entry_keys<M: Makes>(
    reader: &mut Reader<M>,
    has_leading: bool,
    entries: Option<M::Entries>,
    keys: Keys,
    kind: TokenKind,
) -> Result<(), Stop>
    requires { reader.old.top ≡ tops.Need }
    ensures { Follows M.views (next (M.makes reader.old.at) (machine.entry_keys has_leading (option_map M.views.entries entries) (keys_of keys)) kind (stack_of M.views reader.old.frames)) reader.new result }
{
    let mark = into_mark(kind);
    if is_found(mark, Mark::Colon) {
        first_field(reader, has_leading, entries, keys)
    } else if is_found(mark, Mark::Dot) {
        reader.enter_wait(Wait::EntryDot(has_leading, entries, keys))
    } else if is_found(mark, Mark::Equals) {
        reader.enter_shut(Shut::EntryValue(has_leading, entries, keys))
    } else if is_found(mark, Mark::Comma) {
        match keys.into_only() {
            Some(key) => {
                let entries = and_lone(reader, entries, key)?;
                reader.enter_wait(Wait::EntryComma(has_leading, entries))
            }
            None => Err(refused(entries)),
        }
    } else if is_found(mark, Mark::BraceClose) {
        match keys.into_only() {
            Some(key) => {
                let entries = and_lone(reader, entries, key)?;
                let made = M::record_of(reader.alloc, reader.at, has_leading, entries, false)?;
                reader.enter_ready(made)
            }
            None => Err(refused(entries)),
        }
    } else {
        Err(refused((entries, keys)))
    }
}

/// Behind `{`, the entries so far and `keys.`.
pub(crate) fn entry_dot<M: Makes>(
    reader: &mut Reader<M>,
    has_leading: bool,
    entries: Option<M::Entries>,
    keys: Keys,
    kind: TokenKind,
) -> Result<(), Stop>
    requires { reader.old.top ≡ tops.Need }
    ensures { Follows M.views (next (M.makes reader.old.at) (machine.entry_dot has_leading (option_map M.views.entries entries) (keys_of keys)) kind (stack_of M.views reader.old.frames)) reader.new result }
{
    let mut keys = keys;
    match EntryKey::of_token(kind) {
        Some(key) => {
            keys.push(key)?;
            reader.enter_wait(Wait::EntryKeys(has_leading, entries, keys))
        }
        None => Err(refused((entries, keys))),
    }
}

/// The keys of an entry that turn out to be the first key of a record type.
fn first_field<M: Makes>(
    reader: &mut Reader<M>,
    has_leading: bool,
    entries: Option<M::Entries>,
    keys: Keys,
) -> Result<(), Stop>
    requires { reader.old.top ≡ tops.Need }
    ensures { Follows M.views (unless_some (option_map M.views.entries entries) (with_key (λ k. need (shut (field_type has_leading None k) ∷ stack_of M.views reader.old.frames)) (one_of (keys_of keys)))) reader.new result }
{
    match entries {
        Some(_) => Err(Stop::Refused),
        None => match keys.into_only() {
            Some(key) => reader.enter_shut(Shut::FieldType(has_leading, None, key)),
            None => Err(Stop::Refused),
        },
    }
}

/// The entries so far with one more, which is a label alone.
fn and_lone<M: Makes>(
    reader: &Reader<M>,
    so_far: Option<M::Entries>,
    key: EntryKey,
) -> Result<M::Entries, Stop>
    ensures ok { IfOk result (λ es.
        M.views.entries es ≡ (M.makes reader.now.at).add_entry (option_map M.views.entries so_far) ((M.makes reader.now.at).alone (key_of key))) }
    ensures err { IfErr result (λ s. s ≡ Memory) }
{
    let entry = M::alone(reader.alloc, reader.at, key)?;
    let entries = M::add_entry(reader.alloc, reader.at, so_far, entry)?;
    Ok(entries)
}
