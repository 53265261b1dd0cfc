//! What a run answers.

ghost use Rattle.std.specs.Prelude.{◌≡◌, map, IsSome, IfOk, IfErr, IfSome};
ghost use Rattle.dh_imports.specs.Replay.{root_end};
ghost use Rattle.dh_imports.specs.RootEnds.{EndsBy};
ghost use Rattle.dh_table.specs.Kept.{IsKeeping};
ghost use Rattle.dh_record.specs.Kept.{pair_of};
ghost use Rattle.dh_table.specs.Roots.{IsEnd, IsFitEnd};
ghost use Rattle.dh_table.specs.States.{state_of};

use dh_ports::{Cache, World};
use dh_table::{Ended, OpenFault, Table};
use std::alloc::{AllocError, Global};

/// What a run answers.
#[derive(Drop)]
pub struct Answered<W: World> {
    /// How the root ends.
    pub ended: Ended,
    /// The entries for the cache, by ascending digest.
    pub keeps: Cache,
    /// The table, closed.
    pub table: Table<W>,
}

/// Why a run answers nothing.
#[derive(Clone, Copy, Debug, PartialEq, Eq)]
pub enum SessionFault {
    /// The root has more than 4,096 keys.
    TooMany,
    Memory,
}

impl From<AllocError> for SessionFault {
    ghost use Rattle.dh_session.specs.declared.answers.SessionFault.TheVariants.{Memory};

    ghost from_gives = { λ _ e. e ≡ Memory };

    fn from(_e: AllocError) -> SessionFault {
        SessionFault::Memory
    }
}

impl From<OpenFault> for SessionFault {
    ghost use Rattle.dh_session.specs.Inside.{fault_of};

    ghost from_gives = { λ o e. e ≡ fault_of o };

    fn from(e: OpenFault) -> SessionFault {
        match e {
            OpenFault::TooMany => SessionFault::TooMany,
            OpenFault::Memory => SessionFault::Memory,
        }
    }
}

/// What a closed table, whose root is decided, answers.
#[tactic(auto, using(crate::proofs::Resolving::resolves))]
pub(crate) fn answer_of<W: World>(
    alloc: Global,
    table: Table<W>,
) -> Result<Answered<W>, SessionFault>
    requires { IsSome (root_end (state_of table)) }
    ensures same { IfOk result (λ a. a.table ≡ table) }
    ensures ended { IfOk result (λ a. IfSome (root_end (state_of a.table)) (λ end. IsEnd end a.ended)) }
    ensures resolved { IfOk result (λ a. IfSome (root_end (state_of a.table)) (EndsBy (state_of a.table).recorded (state_of a.table).root)) }
    ensures fits { IfOk result (λ a. IsFitEnd (state_of a.table).root a.ended) }
    ensures keeps { IfOk result (λ a. IsKeeping (state_of a.table) (root_end (state_of a.table)) (map pair_of a.keeps)) }
    ensures memory { IfErr result (λ f. f ≡ SessionFault.Memory) }
{
    table.by_history();
    let ended = table.root(alloc)?;
    let keeps = table.keeps(alloc)?;
    Ok(Answered {
        ended,
        keeps,
        table,
    })
}
