//! Annotations.
ghost use Rattle.std.specs.Prelude.{◌≡◌, IfOk};
ghost use Rattle.dh_grammar.specs.Placing.{note_nodes, before_note, noted};
ghost use Rattle.dh_places.specs.Parts.{placed_of, note_of};

use crate::nodes::{back, node, two};
use crate::notes::Notes;
use crate::parts::{Placed, Row};
use std::alloc::{AllocError, Global};

/// `value : annotation`. That of `merge` or `toMap` without brackets is a part of their own node.
pub fn noted<N: Notes>(
    alloc: Global,
    value: Placed<N::Row>,
    annotation: Placed<N::Row>,
) -> Result<Placed<N::Row>, AllocError>
    ensures { IfOk result (λ x.
        placed_of N.noting N.view x ≡ noted N.noting value.special (placed_of N.noting N.view value) (placed_of N.noting N.view annotation)) }
{
    if value.special {
        let parts = N::joined(N::parts(alloc, value.nodes), annotation.nodes)?;
        node::<N>(alloc, 0, value.first, annotation.last, parts)
    } else {
        two::<N>(alloc, 0, value, annotation)
    }
}

/// What is noted of an annotation, where there is one.
pub fn note_nodes<N: Notes>(alloc: Global, note: Option<Row<N::Row>>) -> N::Row
    ensures { N.view result ≡ note_nodes N.noting (note_of N.noting N.view note) }
{
    match note {
        Some(note) => note.nodes,
        None => N::none(alloc),
    }
}

/// Where a part begins that stands so many tokens before its annotation, or before `at` where there is none.
pub fn before_note<N: Notes>(count: u32, note: &Option<Row<N::Row>>, at: u32) -> u32
    ensures { result ≡ before_note N.noting count (note_of N.noting N.view note.now) at }
{
    match note {
        Some(note) => back(count, note.first),
        None => at,
    }
}
