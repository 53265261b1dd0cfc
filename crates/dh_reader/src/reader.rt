//! The reader.
ghost use Rattle.std.specs.Prelude.{[], ◌∷◌, ◌≡◌};
ghost use Rattle.dh_grammar.specs.Machine.{«open», after, done, have, need, ready, shut, wait};
ghost use Rattle.dh_reader.specs.Follows.{Follows};
ghost use Rattle.dh_reader.specs.Frames.{open_of, shut_of};
ghost use Rattle.dh_reader.specs.Stacks.{stack_of};
ghost use Rattle.dh_reader.specs.States.{held_of, state_of, wait_of};
ghost use Rattle.dh_reader.specs.declared.tops.Top.TheVariants as tops;

use crate::frames::{Frames, Open, Shut};
use crate::operands::{begin, extend};
use crate::stops::{Stop, refused};
use crate::tops::{Held, Top, Wait};
use crate::waiting::waited;
use dh_making::Makes;
use dh_syntax::TokenKind;
use std::alloc::Global;

/// What reads tokens, one after the other, for what `M` builds of them.
#[derive(Drop)]
pub struct Reader<M: Makes> {
    pub alloc: Global,
    /// The number of the token that is read.
    pub at: u32,
    /// The productions that have begun.
    pub frames: Frames<M>,
    /// What stands above them. It is kept here, since to hand it from function to function takes more than what they do.
    pub top: Top<M>,
}

impl<M: Makes> Reader<M> {
    /// A reader before the first token. It takes no memory.
    pub fn new(alloc: Global) -> Reader<M>
        ensures frames { stack_of M.views result.frames ≡ [] }
        ensures top { result.top ≡ tops.Need }
    {
        Reader {
            alloc,
            at: 0,
            frames: Frames::new(alloc),
            top: Top::Need,
        }
    }

    // What follows is called where what stood above the frames has been taken away.

    /// Puts an open frame on top, in whose place an operand or an expression begins.
    pub(crate) fn enter_open(&mut self, frame: Open<M>) -> Result<(), Stop>
        requires { self.old.top ≡ tops.Need }
        ensures { Follows M.views (need («open» (open_of M.views frame) ∷ stack_of M.views self.old.frames)) self.new result }
    {
        self.frames.push_open(frame)?;
        Ok(())
    }

    /// Puts a frame on top that a token ends, in whose place an operand or an expression begins.
    pub(crate) fn enter_shut(&mut self, frame: Shut<M>) -> Result<(), Stop>
        requires { self.old.top ≡ tops.Need }
        ensures { Follows M.views (need (shut (shut_of M.views frame) ∷ stack_of M.views self.old.frames)) self.new result }
    {
        self.frames.push_shut(frame)?;
        Ok(())
    }

    /// Awaits a token of a production.
    pub(crate) fn enter_wait(&mut self, awaited: Wait<M>) -> Result<(), Stop>
        requires { self.old.top ≡ tops.Need }
        ensures { Follows M.views (wait (wait_of M.views awaited) (stack_of M.views self.old.frames)) self.new result }
    {
        self.top.put(Top::Wait(awaited));
        Ok(())
    }

    /// An operand has been read, of which more may come.
    pub(crate) fn enter_have(&mut self, held: Held<M>) -> Result<(), Stop>
        requires { self.old.top ≡ tops.Need }
        ensures { Follows M.views (have (stack_of M.views self.old.frames) (held_of M.views held)) self.new result }
    {
        self.top.put(Top::Have(held));
        Ok(())
    }

    /// An operand has been read that takes no more tokens of its own.
    pub(crate) fn enter_ready(&mut self, operand: M::Tree) -> Result<(), Stop>
        requires { self.old.top ≡ tops.Need }
        ensures { Follows M.views (have (stack_of M.views self.old.frames) (ready (M.views.tree operand))) self.new result }
    {
        self.top.put(Top::Have(Held::Ready(operand)));
        Ok(())
    }

    /// The text has ended.
    pub(crate) fn enter_done(&mut self, operand: M::Tree) -> Result<(), Stop>
        requires { self.old.top ≡ tops.Need }
        ensures { Follows M.views (done (M.views.tree operand)) self.new result }
    {
        self.top.put(Top::Done(operand));
        Ok(())
    }

    /// One token, by its kind alone.
    pub fn after(&mut self, kind: TokenKind) -> Result<(), Stop>
        ensures { Follows M.views (after (M.makes self.old.at) kind (state_of M.views self.old.frames self.old.top)) self.new result }
    {
        match &self.top {
            Top::Need => begin(self, kind),
            Top::Have(_) => extend(self, kind),
            Top::Wait(_) => waited(self, kind),
            Top::Done(_) => Err(refused(kind)),
        }
    }
}
