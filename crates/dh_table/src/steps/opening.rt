//! A table of a run that begins.

ghost use Rattle.std.specs.Prelude.{◌≡◌, ◌<◌, ◌≤◌, [], true, false, IfOk, IfErr, MatchResult};
ghost use Rattle.dh_syntax.specs.Expressions.Bridge.{term};
ghost use Rattle.dh_imports.specs.Machine.{opening};
ghost use Rattle.dh_imports.specs.Replay.{has_too_many};
ghost use Rattle.dh_table.specs.Calls.{IsOpened};

use crate::search::Scratch;
use crate::tables::Table;
use dh_demand::{Marks, Scan, import_keys};
use dh_ports::World;
use dh_record::{Entrants, Order, enter_few};
use dh_syntax::{Expr, MOST_KEYS};
use std::alloc::{AllocError, Global};
use std::marker::PhantomData;

/// Why no table opens.
#[derive(Clone, Copy, Debug, PartialEq, Eq)]
pub enum OpenFault {
    /// The root has more than 4,096 keys.
    TooMany,
    Memory,
}

impl From<AllocError> for OpenFault {
    ghost use Rattle.dh_table.specs.declared.steps.opening.OpenFault.TheVariants.{Memory};

    ghost from_gives = { λ _ e. e ≡ Memory };

    fn from(_e: AllocError) -> OpenFault {
        OpenFault::Memory
    }
}

impl<W: World> Table<W> {
    /// The table of a run of this root, before its first step.
    pub fn open(alloc: Global, root: Expr) -> Result<Table<W>, OpenFault>
        ensures opened { IfOk result (λ t. IsOpened (term root) t) }
        ensures few { IfOk result (λ t. has_too_many (opening (term root)) ≡ false) }
        ensures too_many { IfErr result (λ e. e ≡ OpenFault.TooMany → has_too_many (opening (term root)) ≡ true) }
    {
        let imports = import_keys(alloc, &root, None)?;
        let mut keys = Entrants::new(alloc);
        let entered = enter_few(alloc, &mut keys, imports.as_slice(), MOST_KEYS)?;
        let Some(edges) = entered else {
            return Err(OpenFault::TooMany);
        };
        let scratch = Scratch::for_keys(alloc, keys.len())?;
        let root = Scan { expr: root, edges };
        Ok(Table {
            root,
            keys,
            texts: Vec::new(alloc),
            looks: Vec::new(alloc),
            text_order: Order::new(alloc),
            look_order: Order::new(alloc),
            decided: Vec::new(alloc),
            limited: Vec::new(alloc),
            flights: Vec::new(alloc),
            drawn: Vec::new(alloc),
            history: Vec::new(alloc),
            refused: Vec::new(alloc),
            scratch,
            world: PhantomData,
        })
    }
}
