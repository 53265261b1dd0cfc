//! The bindings of `let`.
ghost use Rattle.std.specs.Prelude.{◌≡◌, IfOk, map, option_map};
ghost use Rattle.dh_grammar.specs.Placing.{placing, pending, add_let};
ghost use Rattle.dh_places.specs.Parts.{placed_of, note_of, pending_of, lets_of};
ghost use Rattle.dh_syntax.specs.Text.Noting.{lets_round};

use crate::annotations::{before_note, note_nodes};
use crate::nodes::back;
use crate::notes::Notes;
use crate::parts::{Lets, Pending, Placed, Row};
use std::alloc::{AllocError, Global};

/// `let name : annotation = value`
pub fn pending<N: Notes>(
    alloc: Global,
    note: Option<Row<N::Row>>,
    value: Placed<N::Row>,
) -> Result<Pending<N::Row>, AllocError>
    ensures { IfOk result (λ p.
        pending_of N.noting N.view p ≡ pending N.noting (note_of N.noting N.view note) (placed_of N.noting N.view value)) }
{
    let from = before_note::<N>(3, &note, back(3, value.first));
    let parts = N::joined(note_nodes::<N>(alloc, note), value.nodes)?;
    Ok(Pending { from, parts })
}

/// One binding more behind those that there are.
pub fn add_let<N: Notes>(
    alloc: Global,
    so_far: Option<Lets<N::Row>>,
    binding: Pending<N::Row>,
) -> Result<Lets<N::Row>, AllocError>
    ensures { IfOk result (λ ls.
        lets_of N.noting N.view ls ≡ add_let N.noting (option_map (lets_of N.noting N.view) so_far) (pending_of N.noting N.view binding)) }
{
    match so_far {
        Some(
            Lets {
                first,
                mut pendings,
            },
        ) => {
            pendings.push(binding)?;
            Ok(Lets { first, pendings })
        }
        None => {
            let first = binding.from;
            let mut pendings = Vec::new(alloc);
            pendings.push(binding)?;
            Ok(Lets { first, pendings })
        }
    }
}

/// The bindings round a body, each with the stretch from its own `let` to the end of the body; which token is read tells nothing,
/// so the clause has 0 for its number.
pub fn around<N: Notes>(
    alloc: Global,
    lets: Lets<N::Row>,
    body: Placed<N::Row>,
) -> Result<Placed<N::Row>, AllocError>
    ensures { IfOk result (λ x.
        placed_of N.noting N.view x ≡ (placing N.noting 0).lets (lets_of N.noting N.view lets) (placed_of N.noting N.view body)) }
{
    let Placed { last, nodes, .. } = body;
    Ok(Placed {
        first: lets.first,
        last,
        nodes: lets_round::<N>(alloc, lets.pendings, last, nodes)?,
        level: 0,
        special: false,
    })
}

/// What is noted of bindings round a body.
fn lets_round<N: Notes>(
    alloc: Global,
    mut pendings: Vec<Pending<N::Row>>,
    last: u32,
    body: N::Row,
) -> Result<N::Row, AllocError>
    ensures { IfOk result (λ made.
        N.view made ≡ lets_round N.noting (map (pending_of N.noting N.view) pendings.items) last (N.view body)) }
{
    let mut nodes = body;
    while let Some(binding) = pendings.pop() {
        let parts = N::joined(binding.parts, nodes)?;
        nodes = N::node(alloc, binding.from, last, parts)?;
    }
    Ok(nodes)
}
