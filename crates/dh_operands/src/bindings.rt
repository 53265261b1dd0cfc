//! The bindings of `let`.
ghost use Rattle.std.specs.Prelude.{◌≡◌, IfOk, option_map};
ghost use Rattle.dh_grammar.specs.Stubs.{stubs, let_part};
ghost use Rattle.dh_operands.specs.Operands.{part_of, note_of, operand_of, lets_of, binding_of};
ghost use Rattle.dh_making.specs.Words.{word_of};

use crate::nodes::{three, two};
use crate::operands::Operand;
use crate::parts::Part;
use dh_making::Word;
use dh_syntax::{Label, Many, Op};
use std::alloc::{AllocError, Global};

/// `let name : annotation = value`
#[derive(Drop)]
pub struct Binding {
    pub name: Label,
    pub annotation: Option<Part>,
    pub value: Part,
}

/// The bindings that share one `in`, the outermost first.
#[derive(Drop)]
pub struct Lets {
    bindings: Many<Binding>,
}

impl Lets {
    /// One binding more behind those that there are.
    pub fn add(
        alloc: Global,
        so_far: Option<Lets>,
        word: Word,
        annotation: Option<Part>,
        value: Operand,
    ) -> Result<Lets, AllocError>
        ensures { IfOk result (λ ls.
            lets_of ls ≡ stubs.add_let (option_map lets_of so_far) (word_of word) (note_of annotation) (operand_of value)) }
    {
        let mut lets = match so_far {
            Some(lets) => lets,
            None => Lets {
                bindings: Many::new(alloc),
            },
        };
        lets.bindings.push(Binding {
            name: word.into_label(),
            annotation,
            value: value.part,
        })?;
        Ok(lets)
    }

    /// The bindings round a body.
    pub fn around(self, alloc: Global, body: Operand) -> Result<Operand, AllocError>
        ensures { IfOk result (λ x. operand_of x ≡ stubs.lets (lets_of self) (operand_of body)) }
    {
        let mut part = body.part;
        let mut bindings = self.bindings.into_vec();
        while let Some(binding) = bindings.pop() {
            part = binding.around(alloc, part)?;
        }
        Ok(Operand { part, level: 0 })
    }
}

impl Binding {
    /// The binding round a body.
    fn around(self, alloc: Global, body: Part) -> Result<Part, AllocError>
        ensures { IfOk result (λ p.
            part_of p ≡ let_part (binding_of self).name (binding_of self).annotation (binding_of self).value (part_of body)) }
    {
        let Binding {
            name,
            annotation,
            value,
        } = self;
        match annotation {
            Some(annotation) => three(alloc, Op::Let(true), annotation, value, Some(name), body),
            None => two(alloc, Op::Let(false), value, Some(name), body),
        }
    }
}
