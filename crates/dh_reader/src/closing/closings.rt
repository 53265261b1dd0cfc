//! Tokens that end the place of a frame, or the text.
ghost use Rattle.std.specs.Prelude.{◌≡◌, []};
ghost use Rattle.dh_grammar.specs.Machine.{close_on, closed};
ghost use Rattle.dh_reader.specs.Closings.{closing_kind};
ghost use Rattle.dh_reader.specs.Follows.{Follows};
ghost use Rattle.dh_reader.specs.Frames.{shut_of};
ghost use Rattle.dh_reader.specs.Stacks.{stack_of};
ghost use Rattle.dh_reader.specs.declared.tops.Top.TheVariants as tops;

use crate::frames::{Frame, Shut};
use crate::reader::Reader;
use crate::stops::{Stop, refused};
use dh_making::Makes;

/// A token that ends the place of a frame, or the text.
#[derive(Clone, Copy, Debug, PartialEq, Eq)]
pub enum Closing {
    /// `)`
    Paren,
    /// `]`
    Bracket,
    /// `}`
    Brace,
    /// `>`
    Angle,
    Comma,
    /// `=`
    Equals,
    /// `|`
    Bar,
    Then,
    Else,
    Let,
    In,
    /// The `}` that ends an interpolation.
    Interpolation,
    /// The end of the text.
    End,
}

impl<M: Makes> Shut<M> {
    /// A token behind the operand in the place of the frame.
    fn closed(self, reader: &mut Reader<M>, closing: Closing, operand: M::Tree) -> Result<(), Stop>
        requires { reader.old.top ≡ tops.Need }
        ensures { Follows M.views (closed (M.makes reader.old.at) (closing_kind closing) (shut_of M.views self) (M.views.tree operand) (stack_of M.views reader.old.frames)) reader.new result }
    {
        match closing {
            Closing::Paren => self.closed_by_paren(reader, operand),
            Closing::Bracket => self.closed_by_bracket(reader, operand),
            Closing::Brace => self.closed_by_brace(reader, operand),
            Closing::Angle => self.closed_by_angle(reader, operand),
            Closing::Comma => self.closed_by_comma(reader, operand),
            Closing::Equals => self.closed_by_equals(reader, operand),
            Closing::Bar => self.closed_by_bar(reader, operand),
            Closing::Then => self.closed_by_then(reader, operand),
            Closing::Else => self.closed_by_else(reader, operand),
            Closing::Let => self.closed_by_let(reader, operand),
            Closing::In => self.closed_by_in(reader, operand),
            Closing::Interpolation => self.closed_by_interpolation(reader, operand),
            Closing::End => Err(refused((self, operand))),
        }
    }
}

/// A token that ends the place of the frame on top, or the text where there is no frame.
pub fn close<M: Makes>(
    reader: &mut Reader<M>,
    closing: Closing,
    operand: M::Tree,
) -> Result<(), Stop>
    requires { reader.old.top ≡ tops.Need }
    ensures { Follows M.views (close_on (M.makes reader.old.at) (closing_kind closing) (stack_of M.views reader.old.frames) (M.views.tree operand)) reader.new result }
{
    match reader.frames.pop() {
        Some(Frame::Shut(frame)) => frame.closed(reader, closing, operand),
        Some(Frame::Open(frame)) => Err(refused((frame, operand))),
        None => end(reader, closing, operand),
    }
}

/// A token behind an operand that stands in no frame.
fn end<M: Makes>(reader: &mut Reader<M>, closing: Closing, operand: M::Tree) -> Result<(), Stop>
    requires { reader.old.top ≡ tops.Need }
    ensures { Follows M.views (close_on (M.makes reader.old.at) (closing_kind closing) [] (M.views.tree operand)) reader.new result }
{
    match closing {
        Closing::End => reader.enter_done(operand),
        _ => Err(refused(operand)),
    }
}
