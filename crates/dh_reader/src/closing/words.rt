//! Keywords, and the ends of interpolations, that end the place of a frame.
ghost use Rattle.std.specs.Prelude.{◌≡◌};
ghost use Rattle.dh_grammar.specs.Machine.{closed};
ghost use Rattle.dh_reader.specs.Follows.{Follows};
ghost use Rattle.dh_reader.specs.Frames.{shut_of};
ghost use Rattle.dh_reader.specs.Stacks.{stack_of};
ghost use Rattle.dh_reader.specs.declared.tops.Top.TheVariants as tops;
ghost use Rattle.dh_syntax.specs.declared.tokens.Keyword.TheVariants as keywords;
ghost use Rattle.dh_syntax.specs.declared.tokens.TokenKind.TheVariants as kinds;

use crate::frames::{Open, Shut};
use crate::reader::Reader;
use crate::stops::{Stop, refused};
use crate::tops::{Front, Wait};
use dh_making::Makes;

impl<M: Makes> Shut<M> {
    /// `then` behind the operand in the place of the frame.
    pub(crate) fn closed_by_then(self, reader: &mut Reader<M>, operand: M::Tree) -> Result<(), Stop>
        requires { reader.old.top ≡ tops.Need }
        ensures { Follows M.views (closed (M.makes reader.old.at) (kinds.Keyword keywords.Then) (shut_of M.views self) (M.views.tree operand) (stack_of M.views reader.old.frames)) reader.new result }
    {
        match self {
            Shut::Condition => reader.enter_shut(Shut::Branch(operand)),
            other => Err(refused((other, operand))),
        }
    }

    /// `else` behind the operand in the place of the frame.
    pub(crate) fn closed_by_else(self, reader: &mut Reader<M>, operand: M::Tree) -> Result<(), Stop>
        requires { reader.old.top ≡ tops.Need }
        ensures { Follows M.views (closed (M.makes reader.old.at) (kinds.Keyword keywords.Else) (shut_of M.views self) (M.views.tree operand) (stack_of M.views reader.old.frames)) reader.new result }
    {
        match self {
            Shut::Branch(condition) => reader.enter_open(Open::Otherwise(condition, operand)),
            other => Err(refused((other, operand))),
        }
    }

    /// `let` behind the operand in the place of the frame.
    pub(crate) fn closed_by_let(self, reader: &mut Reader<M>, operand: M::Tree) -> Result<(), Stop>
        requires { reader.old.top ≡ tops.Need }
        ensures { Follows M.views (closed (M.makes reader.old.at) (kinds.Keyword keywords.Let) (shut_of M.views self) (M.views.tree operand) (stack_of M.views reader.old.frames)) reader.new result }
    {
        match self {
            Shut::LetValue(lets, word, note) => {
                let lets = M::add_let(reader.alloc, reader.at, lets, word, note, operand)?;
                reader.enter_wait(Wait::Letting(Some(lets)))
            }
            other => Err(refused((other, operand))),
        }
    }

    /// `in` behind the operand in the place of the frame.
    pub(crate) fn closed_by_in(self, reader: &mut Reader<M>, operand: M::Tree) -> Result<(), Stop>
        requires { reader.old.top ≡ tops.Need }
        ensures { Follows M.views (closed (M.makes reader.old.at) (kinds.Keyword keywords.In) (shut_of M.views self) (M.views.tree operand) (stack_of M.views reader.old.frames)) reader.new result }
    {
        match self {
            Shut::LetValue(lets, word, note) => {
                let lets = M::add_let(reader.alloc, reader.at, lets, word, note, operand)?;
                reader.enter_open(Open::Bound(lets))
            }
            other => Err(refused((other, operand))),
        }
    }

    /// The `}` of an interpolation behind the operand in the place of the frame.
    pub(crate) fn closed_by_interpolation(
        self,
        reader: &mut Reader<M>,
        operand: M::Tree,
    ) -> Result<(), Stop>
        requires { reader.old.top ≡ tops.Need }
        ensures { Follows M.views (closed (M.makes reader.old.at) (kinds.InterpolationClose) (shut_of M.views self) (M.views.tree operand) (stack_of M.views reader.old.frames)) reader.new result }
    {
        match self {
            Shut::Chunk(form, chunks) => {
                let front = Front::Behind(chunks, operand);
                reader.enter_wait(Wait::TextFront(form, front))
            }
            other => Err(refused((other, operand))),
        }
    }
}
