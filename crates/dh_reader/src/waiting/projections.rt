//! Waits of selections.
ghost use Rattle.std.specs.Prelude.{◌≡◌};
ghost use Rattle.dh_grammar.specs.Machine as machine;
ghost use Rattle.dh_making.specs.Projections.{projection_of};
ghost use Rattle.dh_reader.specs.Follows.{Follows};
ghost use Rattle.dh_reader.specs.Inside.Nexts.{next};
ghost use Rattle.dh_reader.specs.Stacks.{stack_of};
ghost use Rattle.dh_reader.specs.declared.tops.Top.TheVariants as tops;

use crate::frames::Shut;
use crate::reader::Reader;
use crate::stops::{Stop, refused};
use crate::tops::Wait;
use crate::waiting::tokens::{into_mark, is_found, mark_of};
use dh_making::{EntryKey, Makes, Projection};
use dh_syntax::{Mark, TokenKind};

/// Behind `whole.`.
pub(crate) fn dotted<M: Makes>(
    reader: &mut Reader<M>,
    whole: M::Tree,
    kind: TokenKind,
) -> Result<(), Stop>
    requires { reader.old.top ≡ tops.Need }
    ensures { Follows M.views (next (M.makes reader.old.at) (machine.dotted (M.views.tree whole)) kind (stack_of M.views reader.old.frames)) reader.new result }
{
    let mark = mark_of(&kind);
    let key = EntryKey::of_token(kind);
    if is_found(mark, Mark::BraceOpen) {
        reader.enter_wait(Wait::Projecting(whole, false))
    } else if is_found(mark, Mark::ParenOpen) {
        reader.enter_shut(Shut::Selected(whole))
    } else {
        match key {
            Some(key) => {
                let made = M::field(reader.alloc, reader.at, whole, key)?;
                reader.enter_ready(made)
            }
            None => Err(refused(whole)),
        }
    }
}

/// Behind `whole.{`.
pub(crate) fn projecting<M: Makes>(
    reader: &mut Reader<M>,
    whole: M::Tree,
    has_leading: bool,
    kind: TokenKind,
) -> Result<(), Stop>
    requires { reader.old.top ≡ tops.Need }
    ensures { Follows M.views (next (M.makes reader.old.at) (machine.projecting (M.views.tree whole) has_leading) kind (stack_of M.views reader.old.frames)) reader.new result }
{
    let mark = mark_of(&kind);
    let key = EntryKey::of_token(kind);
    if is_found(mark, Mark::Comma) {
        if has_leading {
            Err(Stop::Refused)
        } else {
            reader.enter_wait(Wait::Projecting(whole, true))
        }
    } else if is_found(mark, Mark::BraceClose) {
        let made = M::project_none(reader.alloc, reader.at, whole, has_leading)?;
        reader.enter_ready(made)
    } else {
        match key {
            Some(key) => {
                let labels = Projection::one(reader.alloc, key)?;
                reader.enter_wait(Wait::Projected(whole, has_leading, labels))
            }
            None => Err(refused(whole)),
        }
    }
}

/// Behind `whole.{ labels`.
pub(crate) fn projected<M: Makes>(
    reader: &mut Reader<M>,
    whole: M::Tree,
    has_leading: bool,
    labels: Projection,
    kind: TokenKind,
) -> Result<(), Stop>
    requires { reader.old.top ≡ tops.Need }
    ensures { Follows M.views (next (M.makes reader.old.at) (machine.projected (M.views.tree whole) has_leading (projection_of labels)) kind (stack_of M.views reader.old.frames)) reader.new result }
{
    let mark = into_mark(kind);
    if is_found(mark, Mark::Comma) {
        reader.enter_wait(Wait::ProjectedComma(whole, has_leading, labels))
    } else if is_found(mark, Mark::BraceClose) {
        let made = M::project(reader.alloc, reader.at, whole, has_leading, labels, false)?;
        reader.enter_ready(made)
    } else {
        Err(refused((whole, labels)))
    }
}

/// Behind `whole.{ labels,`.
pub(crate) fn projected_comma<M: Makes>(
    reader: &mut Reader<M>,
    whole: M::Tree,
    has_leading: bool,
    labels: Projection,
    kind: TokenKind,
) -> Result<(), Stop>
    requires { reader.old.top ≡ tops.Need }
    ensures { Follows M.views (next (M.makes reader.old.at) (machine.projected_comma (M.views.tree whole) has_leading (projection_of labels)) kind (stack_of M.views reader.old.frames)) reader.new result }
{
    let mark = mark_of(&kind);
    let key = EntryKey::of_token(kind);
    if is_found(mark, Mark::BraceClose) {
        let made = M::project(reader.alloc, reader.at, whole, has_leading, labels, true)?;
        reader.enter_ready(made)
    } else {
        match key {
            Some(key) => {
                if labels.contains(reader.alloc, &key)? {
                    return Err(refused((whole, labels, key)));
                }
                let labels = labels.add(reader.alloc, key)?;
                reader.enter_wait(Wait::Projected(whole, has_leading, labels))
            }
            None => Err(refused((whole, labels))),
        }
    }
}
