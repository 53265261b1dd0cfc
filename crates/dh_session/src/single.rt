//! A run of one worker, in the thread of its caller.

ghost use Rattle.std.specs.Prelude.{◌≡◌, ◌≤◌, [], ◌∷◌, false, map, IfOk, IfErr, IfSome, true};
ghost use Rattle.dh_syntax.specs.Expressions.Bridge.{term};
ghost use Rattle.dh_imports.specs.Machine.{opening};
ghost use Rattle.dh_imports.specs.Replay.{has_too_many, root_end};
ghost use Rattle.dh_imports.specs.RootEnds.{EndsBy};
ghost use Rattle.dh_table.specs.Calls.{failures};
ghost use Rattle.dh_table.specs.Kept.{IsKeeping};
ghost use Rattle.dh_record.specs.Kept.{pair_of};
ghost use Rattle.dh_table.specs.Roots.{IsEnd, IsFitEnd};
ghost use Rattle.dh_table.specs.States.{state_of};
ghost use Rattle.dh_session.specs.Ended.{Ends};

use crate::answers::{Answered, SessionFault, answer_of};
use crate::runs::ends_well;
use dh_ports::{Desk, Gate, World};
use dh_shared::{Blanks, Counted, Rooted, SharedTable};
use dh_shelf::Visit;
use dh_syntax::Expr;
use dh_table::Table;
use std::alloc::{AllocError, Global};
use std::marker::Brand;
use std::sync::Wait;

/// Works on a table of this root with one worker, and closes it.
fn run_one<T: Wait, W: World, D: Desk<W>, G: Gate, Q: Rooted, N: Counted>(
    rt: &T,
    alloc: Global,
    blanks: Blanks,
    desk: &mut D,
    visit: &mut Visit<'_, W>,
    table: Table<W>,
    gate: &G,
) -> Result<Table<W>, AllocError>
    requires fresh { (table.history ≡ []) × (failures (state_of table) ≡ 0) }
    requires root { table.root.expr ≡ Q.root }
    requires blanks { blanks ≡ N.ledgers }
    requires parts { N.ledgers.parts ≡ 1 }
    ensures filed { D.filed desk.new ≡ D.filed desk.old }
    ensures counted { D.faults desk.old ≤ D.faults desk.new }
    ensures root { IfOk result (λ t. t.root.expr ≡ Q.root) }
    ensures ends { IfOk result (λ t. Ends (λ d. D.asked d) (λ d. D.faults d) (desk.old ∷ []) (desk.new ∷ []) t) }
{
    let (shared, seats) = SharedTable::<W, Q, N>::open(alloc, table, 1, blanks)?;
    let mut seats = seats;
    let done = ends_well(rt, alloc, &shared, &mut seats[0], desk, visit, gate);
    let table = shared.close(seats);
    if done { Ok(table) } else { Err(AllocError) }
}

/// Resolves the imports of a root as `resolve_all` does, with one worker, which is the caller.
pub fn resolve_one<T: Wait, W: World, D: Desk<W>, G: Gate>(
    rt: &T,
    alloc: Global,
    desk: &mut D,
    visit: &mut Visit<'_, W>,
    root: Expr,
    gate: &G,
) -> Result<Answered<W>, SessionFault>
    ensures filed { D.filed desk.new ≡ D.filed desk.old }
    ensures root { IfOk result (λ a. (state_of a.table).root ≡ term root) }
    ensures counted { D.faults desk.old ≤ D.faults desk.new }
    ensures ends { IfOk result (λ a. Ends (λ d. D.asked d) (λ d. D.faults d) (desk.old ∷ []) (desk.new ∷ []) a.table) }
    ensures ended { IfOk result (λ a. IfSome (root_end (state_of a.table)) (λ end. IsEnd end a.ended)) }
    ensures resolved { IfOk result (λ a. IfSome (root_end (state_of a.table)) (EndsBy (state_of a.table).recorded (term root))) }
    ensures fits { IfOk result (λ a. IsFitEnd (term root) a.ended) }
    ensures keeps { IfOk result (λ a. IsKeeping (state_of a.table) (root_end (state_of a.table)) (map pair_of a.keeps)) }
    ensures few { IfOk result (λ a. has_too_many (opening (term root)) ≡ false) }
    ensures too_many { IfErr result (λ f. f ≡ SessionFault.TooMany → has_too_many (opening (term root)) ≡ true) }
    ensures alone { IfErr result (λ f. f ≡ SessionFault.TooMany → desk.new ≡ desk.old) }
{
    let table = Table::open(alloc, root)?;
    let blanks = Blanks::new(1);
    let closed = run_one::<T, W, D, G, Brand, Brand>(rt, alloc, blanks, desk, visit, table, gate)?;
    answer_of(alloc, closed)
}
