//! Waits of unions, and of the empty list.
ghost use Rattle.std.specs.Prelude.{◌≡◌, option_map};
ghost use Rattle.dh_grammar.specs.Machine as machine;
ghost use Rattle.dh_making.specs.Words.{key_of};
ghost use Rattle.dh_reader.specs.Follows.{Follows};
ghost use Rattle.dh_reader.specs.Inside.Nexts.{next};
ghost use Rattle.dh_reader.specs.Stacks.{stack_of};
ghost use Rattle.dh_reader.specs.declared.tops.Top.TheVariants as tops;

use crate::frames::{Open, Shut};
use crate::reader::Reader;
use crate::stops::{Stop, refused};
use crate::tops::Wait;
use crate::waiting::tokens::{into_mark, is_found, mark_of};
use dh_making::{EntryKey, Makes};
use dh_syntax::{Mark, TokenKind};

/// Behind `[ ]`.
pub(crate) fn empty<M: Makes>(
    reader: &mut Reader<M>,
    has_leading: bool,
    kind: TokenKind,
) -> Result<(), Stop>
    requires { reader.old.top ≡ tops.Need }
    ensures { Follows M.views (next (M.makes reader.old.at) (machine.empty has_leading) kind (stack_of M.views reader.old.frames)) reader.new result }
{
    let mark = into_mark(kind);
    if is_found(mark, Mark::Colon) {
        reader.enter_open(Open::Emptied(has_leading))
    } else {
        Err(Stop::Refused)
    }
}

/// Behind `<`.
pub(crate) fn union_start<M: Makes>(
    reader: &mut Reader<M>,
    has_leading: bool,
    kind: TokenKind,
) -> Result<(), Stop>
    requires { reader.old.top ≡ tops.Need }
    ensures { Follows M.views (next (M.makes reader.old.at) (machine.union_start has_leading) kind (stack_of M.views reader.old.frames)) reader.new result }
{
    let mark = mark_of(&kind);
    let key = EntryKey::of_token(kind);
    if is_found(mark, Mark::Bar) {
        if has_leading {
            Err(Stop::Refused)
        } else {
            reader.enter_wait(Wait::UnionStart(true))
        }
    } else if is_found(mark, Mark::AngleClose) {
        let made = M::union_none(reader.alloc, reader.at, has_leading)?;
        reader.enter_ready(made)
    } else {
        match key {
            Some(key) => reader.enter_wait(Wait::Alternative(has_leading, None, key)),
            None => Err(Stop::Refused),
        }
    }
}

/// Behind `<`, the alternatives so far and `key`.
pub(crate) fn alternative<M: Makes>(
    reader: &mut Reader<M>,
    has_leading: bool,
    alternatives: Option<M::Alternatives>,
    key: EntryKey,
    kind: TokenKind,
) -> Result<(), Stop>
    requires { reader.old.top ≡ tops.Need }
    ensures { Follows M.views (next (M.makes reader.old.at) (machine.alternative has_leading (option_map M.views.alternatives alternatives) (key_of key)) kind (stack_of M.views reader.old.frames)) reader.new result }
{
    let mark = into_mark(kind);
    if is_found(mark, Mark::Colon) {
        reader.enter_shut(Shut::AlternativeType(has_leading, alternatives, key))
    } else if is_found(mark, Mark::Bar) {
        let alternatives = M::add_alternative(
            reader.alloc,
            reader.at,
            alternatives,
            key,
            M::untyped(reader.at),
        )?;
        reader.enter_wait(Wait::AlternativeBar(has_leading, alternatives))
    } else if is_found(mark, Mark::AngleClose) {
        let alternatives = M::add_alternative(
            reader.alloc,
            reader.at,
            alternatives,
            key,
            M::untyped(reader.at),
        )?;
        let made = M::union(reader.alloc, reader.at, has_leading, alternatives, false)?;
        reader.enter_ready(made)
    } else {
        Err(refused((alternatives, key)))
    }
}

/// Behind `<`, the alternatives so far and `|`.
pub(crate) fn alternative_bar<M: Makes>(
    reader: &mut Reader<M>,
    has_leading: bool,
    alternatives: M::Alternatives,
    kind: TokenKind,
) -> Result<(), Stop>
    requires { reader.old.top ≡ tops.Need }
    ensures { Follows M.views (next (M.makes reader.old.at) (machine.alternative_bar has_leading (M.views.alternatives alternatives)) kind (stack_of M.views reader.old.frames)) reader.new result }
{
    let mark = mark_of(&kind);
    let key = EntryKey::of_token(kind);
    if is_found(mark, Mark::AngleClose) {
        let made = M::union(reader.alloc, reader.at, has_leading, alternatives, true)?;
        reader.enter_ready(made)
    } else {
        match key {
            Some(key) => {
                if M::has_alternative(reader.alloc, reader.at, &alternatives, &key)? {
                    return Err(refused((alternatives, key)));
                }
                reader.enter_wait(Wait::Alternative(has_leading, Some(alternatives), key))
            }
            None => Err(refused(alternatives)),
        }
    }
}
