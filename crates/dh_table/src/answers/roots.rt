//! How the root ends.

ghost use Rattle.std.specs.Prelude.{◌≡◌, IsSome, IfOk, IfSome};
ghost use Rattle.dh_imports.specs.Replay.{root_end};
ghost use Rattle.dh_table.specs.Roots.{IsEnd, IsFitEnd};
ghost use Rattle.dh_table.specs.States.{state_of};

use crate::tables::Table;
use dh_demand::{Next, assemble};
use dh_imports::{Blame, Why};
use dh_ports::World;
use dh_record::blame_at;
use dh_syntax::{Expr, MOST_KEYS};
use std::alloc::{AllocError, Global};

/// How the root of a run ends.
#[derive(Debug)]
pub enum Ended {
    /// Each import that the root asks has a value: the root with the values in their places.
    Ready(Expr),
    Bad(Blame),
}

// Written by hand: a derived one puts every arm inline wherever a value may die.
impl Drop for Ended {
    fn drop(self) {
        match self {
            Ended::Ready(_) => {}
            Ended::Bad(_) => {}
        }
    }
}

impl<W: World> Table<W> {
    /// How the root ends, once that is decided: with its values, with the fault that decides it, or with `TooMany`.
    pub fn root(&self, alloc: Global) -> Result<Ended, AllocError>
        requires { IsSome (root_end (state_of self.now)) }
        ensures ended { IfOk result (λ e. IfSome (root_end (state_of self.now)) (λ end. IsEnd end e)) }
        ensures fits { IfOk result (IsFitEnd (state_of self.now).root) }
    {
        if self.keys.len() > MOST_KEYS {
            return Ok(Ended::Bad(Blame {
                at: None,
                why: Why::TooMany,
            }));
        }
        match self.root_next() {
            Next::Ready => Ok(Ended::Ready(assemble(alloc, &self.root, self)?)),
            Next::Fault(edge) => Ok(Ended::Bad(blame_at(alloc, &self.keys, edge, None)?)),
            Next::Need(_) => unreachable!(),
        }
    }
}
