//! The token of an argument, or of the second operand of `merge`.
ghost use Rattle.std.specs.Bool.{OnFalse, OnTrue};
ghost use Rattle.std.specs.Prelude.{◌∷◌, ◌≡◌, false};
ghost use Rattle.dh_grammar.specs.Machine.{argue_on, first, shut};
ghost use Rattle.dh_reader.specs.Follows.{Follows};
ghost use Rattle.dh_reader.specs.Inside.Newest.{awaits_first};
ghost use Rattle.dh_reader.specs.Stacks.{stack_of};
ghost use Rattle.dh_reader.specs.declared.tops.Top.TheVariants as tops;

use crate::frames::{Frame, Frames, Open, Shut};
use crate::levels::APPLICATION;
use crate::operands::beginning::begin;
use crate::reader::Reader;
use crate::stops::{Stop, refused};
use dh_making::Makes;
use dh_syntax::TokenKind;
use std::mem::drop;

impl<M: Makes> Frames<M> {
    /// Whether the first operand of `merge` is awaited.
    fn awaits_first(&self) -> bool
        ensures { result ≡ awaits_first (stack_of M.views self.now) }
    {
        match self.top() {
            Some(Frame::Shut(Shut::First)) => true,
            _ => false,
        }
    }

    /// Takes away the frame of the first operand of `merge`, where that is awaited.
    fn take_first(&mut self) -> bool
        ensures taken { OnTrue result (stack_of M.views self.old ≡ shut first ∷ stack_of M.views self.new) }
        ensures none { OnFalse result (awaits_first (stack_of M.views self.old) ≡ false) }
        ensures kept { OnFalse result (stack_of M.views self.new ≡ stack_of M.views self.old) }
    {
        if !self.awaits_first() {
            return false;
        }
        match self.pop() {
            Some(frame) => {
                drop(frame);
                true
            }
            None => false,
        }
    }
}

/// The token of an argument behind an operand that has been joined with the frames that bind more tightly.
pub fn argue<M: Makes>(
    reader: &mut Reader<M>,
    kind: TokenKind,
    operand: M::Tree,
) -> Result<(), Stop>
    requires { reader.old.top ≡ tops.Need }
    ensures { Follows M.views (argue_on (M.makes reader.old.at) kind (stack_of M.views reader.old.frames) (M.views.tree operand)) reader.new result }
{
    if reader.frames.take_first() {
        reader.frames.push_open(Open::Merged(operand))?;
        begin(reader, kind)
    } else {
        if reader.frames.least() > APPLICATION {
            return Err(refused((kind, operand)));
        }
        reader.frames.push_open(Open::Applied(operand))?;
        begin(reader, kind)
    }
}
