//! Operands, and the levels of operators.
ghost use Rattle.std.specs.Prelude.{◌≡◌};
ghost use Rattle.dh_grammar.specs.Stubs.{stubs};
ghost use Rattle.dh_operands.specs.Operands.{operand_of, note_of};
ghost use Rattle.dh_syntax.specs.Expressions.Levels.{level_of, left_level};

use crate::parts::Part;
use dh_syntax::BinOp;

/// A part, and how tightly it binds.
#[derive(Drop)]
pub struct Operand {
    pub part: Part,
    pub level: u32,
}

impl Operand {
    /// `(e)`
    pub fn bracketed(self) -> Operand
        ensures { operand_of result ≡ stubs.brackets (operand_of self) }
    {
        Operand {
            part: self.part,
            level: 17,
        }
    }

    /// The annotation that an operand is.
    pub fn into_note(self) -> Option<Part>
        ensures { note_of result ≡ stubs.typed (operand_of self) }
    {
        Some(self.part)
    }
}

/// The level of an operator.
pub fn level_of(operator: BinOp) -> u32
    ensures { result ≡ level_of operator }
{
    match operator {
        BinOp::Equivalent => 1,
        BinOp::Fallback => 2,
        BinOp::Or => 3,
        BinOp::Plus => 4,
        BinOp::TextAppend => 5,
        BinOp::ListAppend => 6,
        BinOp::And => 7,
        BinOp::Combine => 8,
        BinOp::Prefer => 9,
        BinOp::CombineTypes => 10,
        BinOp::Times => 11,
        BinOp::Equal => 12,
        BinOp::NotEqual => 13,
        BinOp::Complete => 15,
    }
}

/// The least level of the left part of an operator.
pub fn left_level(operator: BinOp) -> u32
    ensures { result ≡ left_level operator }
{
    match operator {
        BinOp::Complete => 16,
        BinOp::Equivalent => 1,
        BinOp::Fallback => 2,
        BinOp::Or => 3,
        BinOp::Plus => 4,
        BinOp::TextAppend => 5,
        BinOp::ListAppend => 6,
        BinOp::And => 7,
        BinOp::Combine => 8,
        BinOp::Prefer => 9,
        BinOp::CombineTypes => 10,
        BinOp::Times => 11,
        BinOp::Equal => 12,
        BinOp::NotEqual => 13,
    }
}
