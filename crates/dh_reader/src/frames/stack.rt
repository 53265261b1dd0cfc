//! The stack of frames.
ghost use Rattle.dh_reader.specs.Counting.{IsCounted};

use crate::frames::piles::Pile;
use crate::frames::{Frame, Open, Shut};
use dh_making::Makes;
use std::alloc::{AllocError, Global};
use std::mem::drop;

/// The frames, the newest on top, and how many expressions stand open in the place of the newest.
#[derive(Drop)]
pub struct Frames<M: Makes> {
    pub(crate) pile: Pile<Frame<M>>,
    depth: u32,
    ghost counted: { IsCounted pile depth },
}

impl<M: Makes> Frames<M> {
    ghost use Rattle.std.specs.Prelude.{◌≡◌, [], ◌∷◌, drop, OnOk, IfSome, IfNone};
    ghost use Rattle.dh_grammar.specs.Machine as machine;
    ghost use Rattle.dh_grammar.specs.Machine.{depth_on};
    ghost use Rattle.dh_reader.specs.Frames.{frame_of, open_of, shut_of};
    ghost use Rattle.dh_reader.specs.Stacks.{stack_of};

    /// No frames. It takes no memory.
    pub fn new(alloc: Global) -> Frames<M>
        ensures { stack_of M.views result ≡ [] }
    {
        Frames {
            pile: Pile::new(alloc),
            depth: 1,
        }
    }

    /// How many expressions stand open.
    pub fn depth(&self) -> u32
        ensures { result ≡ depth_on (stack_of M.views self.now) }
    {
        self.depth
    }

    /// The newest frame.
    pub fn top(&self) -> Option<&Frame<M>>
        ensures some { IfSome result (λ f. stack_of M.views self.now ≡ frame_of M.views f.now ∷ drop 1 (stack_of M.views self.now)) }
        ensures none { IfNone result (stack_of M.views self.now ≡ []) }
    {
        self.pile.top()
    }

    /// Takes away the newest frame.
    pub fn pop(&mut self) -> Option<Frame<M>>
        ensures some { IfSome result (λ f. stack_of M.views self.old ≡ frame_of M.views f ∷ stack_of M.views self.new) }
        ensures none { IfNone result (stack_of M.views self.old ≡ []) }
        ensures left { IfNone result (stack_of M.views self.new ≡ []) }
    {
        match self.pile.pop() {
            Some(frame) => {
                self.depth -= frame.opens();
                Some(frame)
            }
            None => None,
        }
    }

    /// Puts a frame on top.
    pub fn push(&mut self, frame: Frame<M>) -> Result<(), AllocError>
        ensures { OnOk result (stack_of M.views self.new ≡ frame_of M.views frame ∷ stack_of M.views self.old) }
    {
        match self.depth.checked_add(frame.opens()) {
            Some(depth) => {
                self.pile.push(frame)?;
                self.depth = depth;
                Ok(())
            }
            None => {
                drop(frame);
                Err(AllocError)
            }
        }
    }

    /// Puts an open frame on top.
    pub fn push_open(&mut self, frame: Open<M>) -> Result<(), AllocError>
        ensures { OnOk result (stack_of M.views self.new ≡ machine.«open» (open_of M.views frame) ∷ stack_of M.views self.old) }
    {
        self.push(Frame::Open(frame))
    }

    /// Puts a frame on top that a token ends.
    pub fn push_shut(&mut self, frame: Shut<M>) -> Result<(), AllocError>
        ensures { OnOk result (stack_of M.views self.new ≡ machine.shut (shut_of M.views frame) ∷ stack_of M.views self.old) }
    {
        self.push(Frame::Shut(frame))
    }
}
