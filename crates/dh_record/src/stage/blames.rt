//! The fault at which a walk ends.

ghost use Rattle.std.specs.Prelude.{◌≡◌, ◌<◌, length, IfOk};
ghost use Rattle.std.specs.Option.{option_copied};
ghost use Rattle.dh_demand.specs.Nexts.{IsNext};
ghost use Rattle.dh_demand.specs.Scans.{text_key};
ghost use Rattle.dh_syntax.specs.Expressions.Tree.{Term};
ghost use Rattle.dh_imports.specs.Walk.{Walked};
ghost use Rattle.dh_record.specs.Due.{IsBlame};
ghost use Rattle.dh_record.specs.Rows.{rows_of};

use crate::rows::Entrants;
use crate::stage::reason_at;
use dh_demand::{Edge, Next};
use dh_imports::Blame;
use dh_syntax::{Key, Loc, Mode};
use std::alloc::{AllocError, Global};

/// The fault at which the walk of a text at this parent ends, whose import this is; of a loop that of its least key.
pub fn blame_at(
    alloc: Global,
    keys: &Entrants,
    edge: Edge,
    parent: Option<&Loc>,
) -> Result<Blame, AllocError>
    requires inside { edge.key < length keys.now }
    requires ends { (w : Walked Term) × IsNext (option_copied parent) (rows_of keys.now) w (Next.Fault edge) }
    ensures { IfOk result (λ b. (w : Walked Term) → IsNext (option_copied parent.entry) (rows_of keys.now) w (Next.Fault edge) → IsBlame w b) }
{
    let reason = reason_at(keys, edge);
    match parent {
        Some(loc) => {
            let key = Key {
                loc: loc.copied(alloc)?,
                mode: Mode::Code,
                digest: None,
            };
            reason.blame(alloc, Some(&key))
        }
        None => reason.blame(alloc, None),
    }
}
