//! The items of lists.
ghost use Rattle.std.specs.Prelude.{◌≡◌, false, IfOk, option_map};
ghost use Rattle.dh_grammar.specs.Stubs.{stubs};
ghost use Rattle.dh_operands.specs.Operands.{operand_of, items_of};

use crate::nodes::several;
use crate::operands::Operand;
use crate::parts::Part;
use dh_syntax::{Many, Op};
use std::alloc::{AllocError, Global};

/// The items of a list, in their order.
#[derive(Drop)]
pub struct Items {
    parts: Many<Part>,
}

impl Items {
    /// One item more behind those that there are.
    pub fn add(alloc: Global, so_far: Option<Items>, item: Operand) -> Result<Items, AllocError>
        ensures { IfOk result (λ is. items_of is ≡ stubs.add_item (option_map items_of so_far) (operand_of item)) }
    {
        let mut items = match so_far {
            Some(items) => items,
            None => Items {
                parts: Many::new(alloc),
            },
        };
        items.parts.push(item.part)?;
        Ok(items)
    }

    /// The list.
    pub fn list(self, alloc: Global) -> Result<Operand, AllocError>
        ensures { IfOk result (λ x. operand_of x ≡ stubs.list false (items_of self) false) }
    {
        let part = several(alloc, Op::List, self.parts.into_vec())?;
        Ok(Operand { part, level: 17 })
    }
}
