//! The parts of a node, gathered one at a time.
ghost use Rattle.std.specs.Prelude.{◌≡◌, OnOk};
ghost use Rattle.dh_grammar.specs.Stubs as stubs;
ghost use Rattle.dh_grammar.specs.Stubs.{unbound, and_typed};
ghost use Rattle.dh_operands.specs.Inside.Nodes.{gathered_of, nothing, and_part, and_parts};
ghost use Rattle.dh_operands.specs.Operands.{part_of};
ghost use Rattle.dh_syntax.specs.Expressions.Bridge.{term};
ghost use Rattle.dh_syntax.specs.Expressions.Tree.{Node};
ghost use Rattle.std.specs.Prelude.{map, option_map, []};

use crate::parts::Part;
use dh_syntax::{Expr, Kid, Kids, Label, MOST_NESTING, Op};
use std::alloc::{AllocError, Global};

/// The parts of a node so far, from left to right, and how deep a node of them nests.
#[derive(Drop)]
pub struct Gathering {
    pub kids: Kids,
    pub nests: u32,
}

impl Gathering {
    /// No parts.
    pub fn new(alloc: Global) -> Gathering
        ensures { gathered_of result ≡ nothing }
    {
        Gathering {
            kids: Kids::new(alloc),
            nests: 0,
        }
    }

    /// One part more, under the variable that the node binds in it, if it binds one.
    pub fn push(&mut self, binder: Option<Label>, part: Part) -> Result<(), AllocError>
        ensures { OnOk result (gathered_of self.new ≡ and_part (gathered_of self.old) binder (part_of part)) }
    {
        let Part { expression, nests } = part;
        self.kids.push(Kid {
            binder,
            body: expression,
        })?;
        self.nests = self.nests.max(nests + 1);
        Ok(())
    }

    /// The part, where there is one.
    pub fn push_if(&mut self, part: Option<Part>) -> Result<(), AllocError>
        ensures { OnOk result (gathered_of self.new ≡ and_parts (gathered_of self.old) (and_typed (option_map part_of part) [])) }
    {
        match part {
            Some(part) => self.push(None, part),
            None => Ok(()),
        }
    }

    /// Several parts more.
    pub fn push_all(&mut self, parts: Vec<Part>) -> Result<(), AllocError>
        ensures { OnOk result (gathered_of self.new ≡ and_parts (gathered_of self.old) (unbound (map part_of parts.items))) }
    {
        for part in parts {
            self.push(None, part)?;
        }
        Ok(())
    }

    /// The node that has these parts.
    pub fn finish(self, alloc: Global, op: Op) -> Part
        ensures { part_of result ≡ stubs.kept (Node op (gathered_of self).parts) (gathered_of self).nests }
    {
        let Gathering { kids, nests } = self;
        kept(alloc, Expr::Node(op, kids), nests)
    }
}

/// The part that an expression is, which nests so deep.
pub fn kept(alloc: Global, expression: Expr, nests: u32) -> Part
    ensures { part_of result ≡ stubs.kept (term expression) nests }
{
    if nests <= MOST_NESTING {
        Part { expression, nests }
    } else {
        stub(alloc)
    }
}

/// What stands in place of an expression that nests too deep. It takes no memory.
fn stub(alloc: Global) -> Part
    ensures { part_of result ≡ stubs.stub }
{
    Part {
        expression: Expr::Node(Op::Bool(true), Kids::new(alloc)),
        nests: 501,
    }
}
