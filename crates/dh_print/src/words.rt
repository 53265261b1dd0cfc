//! The words and the marks of the language, as they are printed.
ghost use Rattle.std.specs.Prelude.{◌≡◌};
ghost use Rattle.dh_syntax.specs.Text.Printed.{truth};
ghost use Rattle.dh_print.specs.Inside.Parts.{mark_between};

use dh_syntax::BinOp;

/// A truth value (`dhall.abnf`, "True" and "False").
pub fn truth(value: bool) -> &'static str
    ensures { result.now ≡ truth value }
{
    if value { "True" } else { "False" }
}

/// An operator with the spaces round it, of which `::` has none.
pub fn mark(operator: BinOp) -> &'static str
    ensures { result.now ≡ mark_between operator }
{
    match operator {
        BinOp::Equivalent => " ≡ ",
        BinOp::Fallback => " ? ",
        BinOp::Or => " || ",
        BinOp::Plus => " + ",
        BinOp::TextAppend => " ++ ",
        BinOp::ListAppend => " # ",
        BinOp::And => " && ",
        BinOp::Combine => " ∧ ",
        BinOp::Prefer => " ⫽ ",
        BinOp::CombineTypes => " ⩓ ",
        BinOp::Times => " * ",
        BinOp::Equal => " == ",
        BinOp::NotEqual => " != ",
        BinOp::Complete => "::",
    }
}
