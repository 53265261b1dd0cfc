//! Where the imports of an expression stand.
ghost use Rattle.std.specs.Prelude.{◌≡◌, IfOk};
ghost use Rattle.dh_syntax.specs.Text.Offsets.{offsets_after};

use crate::deques::joined;
use crate::notes::Notes;
use crate::tokens::end_of;
use dh_syntax::Token;
use std::alloc::{AllocError, Global};
use std::collections::VecDeque;

/// Of imports, the numbers of their locations, in the order of the nodes; of other nodes nothing.
#[derive(Drop)]
pub struct Locations;

impl Notes for Locations {
    ghost use Rattle.dh_syntax.specs.Text.Offsets.{locating};

    type Row = VecDeque<u32>;

    ghost noting = { locating };

    ghost view = { λ row. row.items };

    fn none(alloc: Global) -> VecDeque<u32> {
        VecDeque::new(alloc)
    }

    fn joined(left: VecDeque<u32>, right: VecDeque<u32>) -> Result<VecDeque<u32>, AllocError> {
        joined(left, right)
    }

    fn node(
        _alloc: Global,
        _first: u32,
        _last: u32,
        parts: VecDeque<u32>,
    ) -> Result<VecDeque<u32>, AllocError> {
        Ok(parts)
    }

    fn import_node(alloc: Global, first: u32, _last: u32) -> Result<VecDeque<u32>, AllocError> {
        let mut row = VecDeque::new(alloc);
        row.push_back(first)?;
        Ok(row)
    }

    fn parts(_alloc: Global, node: VecDeque<u32>) -> VecDeque<u32> {
        node
    }
}

/// The offsets after the locations of these numbers, for the tokens of the text.
pub fn offsets_after(
    alloc: Global,
    tokens: &[Token],
    numbers: VecDeque<u32>,
) -> Result<Vec<u32>, AllocError>
    ensures { IfOk result (λ made. made.items ≡ offsets_after tokens.now numbers.items) }
{
    let numbers = numbers.into_vec();
    let mut offsets = Vec::with_capacity(alloc, numbers.len())?;
    for number in numbers.as_slice() {
        offsets.push(end_of(tokens, *number))?;
    }
    Ok(offsets)
}
