//! Operators, `.`, `→`, `:` and `with` behind an operand that has been joined with the frames that bind more tightly.
ghost use Rattle.std.specs.Prelude.{◌∷◌, ◌≡◌, IfNone, IfSome, false};
ghost use Rattle.dh_grammar.specs.Machine.{annotate, have, operate, point, ready, select, start_update, update, «open»};
ghost use Rattle.dh_making.specs.Words.{keys_of};
ghost use Rattle.dh_reader.specs.Follows.{Follows};
ghost use Rattle.dh_reader.specs.Inside.Newest.{updates};
ghost use Rattle.dh_reader.specs.Stacks.{stack_of};
ghost use Rattle.dh_reader.specs.declared.tops.Top.TheVariants as tops;

use crate::frames::{Frame, Frames, Open};
use crate::levels::{ANY, IMPORT, SELECTION};
use crate::reader::Reader;
use crate::stops::{Stop, refused};
use crate::tops::Wait;
use dh_making::{Keys, Makes};
use dh_syntax::BinOp;
use std::mem::drop;

/// An operator.
pub fn operate<M: Makes>(
    reader: &mut Reader<M>,
    operator: BinOp,
    operand: M::Tree,
) -> Result<(), Stop>
    requires { reader.old.top ≡ tops.Need }
    ensures { Follows M.views (operate (M.makes reader.old.at) operator (have (stack_of M.views reader.old.frames) (ready (M.views.tree operand)))) reader.new result }
{
    if operator.left_level() <= M::binds(reader.at, &operand)
        && reader.frames.least() <= operator.level()
    {
        reader.enter_open(Open::Left(operand, operator))
    } else {
        Err(refused(operand))
    }
}

/// `.`
pub fn select<M: Makes>(reader: &mut Reader<M>, operand: M::Tree) -> Result<(), Stop>
    requires { reader.old.top ≡ tops.Need }
    ensures { Follows M.views (select (M.makes reader.old.at) (have (stack_of M.views reader.old.frames) (ready (M.views.tree operand)))) reader.new result }
{
    if M::binds(reader.at, &operand) < SELECTION {
        return Err(refused(operand));
    }
    reader.enter_wait(Wait::Dotted(operand))
}

/// `→`
pub fn point<M: Makes>(reader: &mut Reader<M>, operand: M::Tree) -> Result<(), Stop>
    requires { reader.old.top ≡ tops.Need }
    ensures { Follows M.views (point (M.makes reader.old.at) (have (stack_of M.views reader.old.frames) (ready (M.views.tree operand)))) reader.new result }
{
    if reader.frames.least() > ANY {
        return Err(refused(operand));
    }
    reader.enter_open(Open::Target(operand))
}

/// `:`
pub fn annotate<M: Makes>(reader: &mut Reader<M>, operand: M::Tree) -> Result<(), Stop>
    requires { reader.old.top ≡ tops.Need }
    ensures { Follows M.views (annotate (M.makes reader.old.at) (have (stack_of M.views reader.old.frames) (ready (M.views.tree operand)))) reader.new result }
{
    if reader.frames.least() > ANY {
        return Err(refused(operand));
    }
    reader.enter_open(Open::Noted(operand))
}

impl<M: Makes> Frames<M> {
    /// Whether the value of an update is awaited.
    fn updates(&self) -> bool
        ensures { result ≡ updates (stack_of M.views self.now) }
    {
        match self.top() {
            Some(Frame::Open(Open::Update(_, _))) => true,
            _ => false,
        }
    }

    /// Takes away the update whose value is awaited.
    fn take_update(&mut self) -> Option<(M::Tree, Keys)>
        ensures taken { IfSome result (λ u. stack_of M.views self.old ≡ «open» (update (M.views.tree u.0) (keys_of u.1)) ∷ stack_of M.views self.new) }
        ensures none { IfNone result (updates (stack_of M.views self.old) ≡ false) }
        ensures kept { IfNone result (stack_of M.views self.new ≡ stack_of M.views self.old) }
    {
        if !self.updates() {
            return None;
        }
        match self.pop() {
            Some(Frame::Open(Open::Update(whole, keys))) => Some((whole, keys)),
            other => {
                drop(other);
                None
            }
        }
    }
}

/// `with`. Behind the value of an update it goes on with the whole update.
pub fn renew<M: Makes>(reader: &mut Reader<M>, operand: M::Tree) -> Result<(), Stop>
    requires { reader.old.top ≡ tops.Need }
    ensures { Follows M.views (start_update (M.makes reader.old.at) (stack_of M.views reader.old.frames) (M.views.tree operand)) reader.new result }
{
    match reader.frames.take_update() {
        Some((whole, keys)) => {
            let updated = M::updating(reader.alloc, reader.at, whole, keys, operand)?;
            reader.enter_wait(Wait::WithStart(updated))
        }
        None => start_update(reader, operand),
    }
}

/// `with` behind anything else.
fn start_update<M: Makes>(reader: &mut Reader<M>, operand: M::Tree) -> Result<(), Stop>
    requires bare { updates (stack_of M.views reader.old.frames) ≡ false }
    requires need { reader.old.top ≡ tops.Need }
    ensures { Follows M.views (start_update (M.makes reader.old.at) (stack_of M.views reader.old.frames) (M.views.tree operand)) reader.new result }
{
    if M::binds(reader.at, &operand) < IMPORT {
        return Err(Stop::Refused);
    }
    if reader.frames.least() > ANY {
        return Err(refused(operand));
    }
    reader.enter_wait(Wait::WithStart(operand))
}
