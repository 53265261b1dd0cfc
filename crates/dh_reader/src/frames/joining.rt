//! How tightly operands bind, and operands joined with the frames whose place they fill.
ghost use Rattle.std.specs.Prelude.{◌∷◌, ◌≡◌, ◌≤◌, IfErr, IfNone, IfOk, IfSome};
ghost use Rattle.dh_grammar.specs.Machine as machine;
ghost use Rattle.dh_grammar.specs.Machine.{asks, build, finish, have, join, least, level, ready, shut_asks};
ghost use Rattle.dh_reader.specs.Frames.{open_of, shut_of};
ghost use Rattle.dh_reader.specs.Inside.Joins.{IsLow, joins};
ghost use Rattle.dh_reader.specs.Stacks.{stack_of};
ghost use Rattle.dh_reader.specs.States.{held_of};
ghost use Rattle.dh_reader.specs.declared.stops.Stop.TheVariants.{Memory};

use crate::frames::{Frame, Frames, Open, Shut};
use crate::levels::{ANY, APPLICATION, IMPORT, OPERATOR};
use crate::stops::Stop;
use crate::tops::{Held, Imported};
use dh_making::Makes;
use dh_syntax::Mode;
use std::alloc::Global;
use std::mem::drop;

impl<M: Makes> Open<M> {
    /// How tightly the operand of the frame binds.
    fn level(&self) -> u32
        ensures { result ≡ level (open_of M.views self.now) }
    {
        match self {
            Open::Left(_, operator) => operator.level(),
            Open::Applied(_) | Open::Merged(_) | Open::Somed | Open::Mapped => APPLICATION,
            Open::Update(_, _) | Open::Body(_, _, _) | Open::Target(_) => ANY,
            Open::Otherwise(_, _) | Open::Bound(_) | Open::Noted(_) => ANY,
            Open::Emptied(_) | Open::Asserted => ANY,
        }
    }

    /// How tightly the place of the frame asks its operand to bind.
    fn asks(&self) -> u32
        ensures { result ≡ asks (open_of M.views self.now) }
    {
        match self {
            Open::Left(_, operator) => operator.level() + 1,
            Open::Applied(_) | Open::Merged(_) | Open::Somed | Open::Mapped => IMPORT,
            Open::Update(_, _) => OPERATOR,
            Open::Body(_, _, _) | Open::Target(_) | Open::Otherwise(_, _) => ANY,
            Open::Bound(_) | Open::Noted(_) | Open::Emptied(_) | Open::Asserted => ANY,
        }
    }

    /// The operand of the frame, whose place has been read.
    fn build(self, alloc: Global, at: u32, last: M::Tree) -> Result<M::Tree, Stop>
        ensures ok { IfOk result (λ x. M.views.tree x ≡ build (M.makes at) (open_of M.views self) (M.views.tree last)) }
        ensures err { IfErr result (λ s. s ≡ Memory) }
    {
        let built = match self {
            Open::Left(left, operator) => M::operation(alloc, at, operator, left, last)?,
            Open::Applied(function) => M::application(alloc, at, function, last)?,
            Open::Merged(handlers) => M::merging(alloc, at, handlers, last)?,
            Open::Somed => M::some_of(alloc, at, last)?,
            Open::Mapped => M::to_map(alloc, at, last)?,
            Open::Update(whole, keys) => M::updating(alloc, at, whole, keys, last)?,
            Open::Body(is_lambda, word, domain) => {
                M::quantify(alloc, at, is_lambda, word, domain, last)?
            }
            Open::Target(domain) => M::arrow(alloc, at, domain, last)?,
            Open::Otherwise(condition, yes) => { M::choice(alloc, at, condition, yes, last)? }
            Open::Bound(lets) => M::around(alloc, at, lets, last)?,
            Open::Noted(value) => M::noting(alloc, at, value, last)?,
            Open::Emptied(comma) => M::empty_list(alloc, at, comma, last)?,
            Open::Asserted => M::assertion(alloc, at, last)?,
        };
        Ok(built)
    }
}

impl<M: Makes> Shut<M> {
    /// How tightly the place of the frame asks its operand to bind.
    fn asks(&self) -> u32
        ensures { result ≡ shut_asks (shut_of M.views self.now) }
    {
        match self {
            Shut::First => IMPORT,
            Shut::Bracket | Shut::Domain(_, _) | Shut::Condition => ANY,
            Shut::Branch(_) | Shut::LetType(_, _) | Shut::LetValue(_, _, _) => ANY,
            Shut::Selected(_) | Shut::Items(_, _) | Shut::AlternativeType(_, _, _) => ANY,
            Shut::FieldType(_, _, _) | Shut::EntryValue(_, _, _) | Shut::Chunk(_, _) => ANY,
        }
    }
}

impl<M: Makes> Frames<M> {
    /// The least level of what may stand on the frames.
    pub fn least(&self) -> u32
        ensures { result ≡ least (stack_of M.views self.now) }
    {
        match self.top() {
            Some(Frame::Open(frame)) => frame.asks(),
            Some(Frame::Shut(frame)) => frame.asks(),
            None => ANY,
        }
    }

    /// Whether an open frame is on top that binds at least as tightly as the level.
    fn joins(&self, level: u32) -> bool
        ensures { result ≡ joins level (stack_of M.views self.now) }
    {
        match self.top() {
            Some(Frame::Open(frame)) => level <= frame.level(),
            Some(Frame::Shut(_)) => false,
            None => false,
        }
    }

    /// Takes away the frame on top, where it is open and binds at least as tightly as the level.
    fn pop_open(&mut self, level: u32) -> Option<Open<M>>
        ensures none { IfNone result (IsLow level (stack_of M.views self.old)) }
        ensures kept { IfNone result (stack_of M.views self.new ≡ stack_of M.views self.old) }
        ensures taken { IfSome result (λ f. stack_of M.views self.old ≡ machine.«open» (open_of M.views f) ∷ stack_of M.views self.new) }
        ensures tight { IfSome result (λ f. level ≤ machine.level (open_of M.views f)) }
    {
        if !self.joins(level) {
            return None;
        }
        match self.pop() {
            Some(Frame::Open(frame)) => Some(frame),
            Some(Frame::Shut(frame)) => {
                drop(frame);
                None
            }
            None => None,
        }
    }

    /// The operand joined with the open frames on top that bind at least as tightly as the level.
    pub fn join(
        &mut self,
        alloc: Global,
        at: u32,
        level: u32,
        operand: M::Tree,
    ) -> Result<M::Tree, Stop>
        ensures ok { IfOk result (λ x.
            join (M.makes at) level (stack_of M.views self.old) (M.views.tree operand) ≡ have (stack_of M.views self.new) (ready (M.views.tree x))) }
        ensures err { IfErr result (λ s. s ≡ Memory) }
    {
        let mut operand = operand;
        while let Some(frame) = self.pop_open(level) {
            operand = frame.build(alloc, at, operand)?;
        }
        Ok(operand)
    }
}

impl<M: Makes> Held<M> {
    /// The operand, where no more of it comes.
    pub fn finish(self, alloc: Global, at: u32) -> Result<M::Tree, Stop>
        ensures ok { IfOk result (λ x. M.views.tree x ≡ finish (M.makes at) (held_of M.views self)) }
        ensures err { IfErr result (λ s. s ≡ Memory) }
    {
        match self {
            Held::Named(word) => Ok(M::variable(alloc, at, word, None)?),
            Held::Imported(Imported { source, digest }) => Ok(M::import(
                alloc,
                at,
                source,
                digest,
                Mode::Code,
            )?),
            Held::Ready(operand) => Ok(operand),
        }
    }
}
