//! Names and labels in the binary form.

ghost use Rattle.std.specs.Prelude.{◌≡◌, ◌++◌, codes, map, OnOk};
ghost use Rattle.std.specs.List.{concat};
ghost use Rattle.dh_syntax.specs.Bytes.Cbor.{text};
ghost use Rattle.dh_syntax.specs.Bytes.Binary.{variable_item};
ghost use Rattle.dh_syntax.specs.Expressions.Numbers.{bytes_eq};
ghost use Rattle.dh_syntax.specs.Expressions.Operators.{op_code};

use crate::writer::Writer;
use dh_syntax::{BinOp, Label};
use std::alloc::AllocError;

impl Writer {
    /// A variable: its index alone where the name is `_`.
    pub(crate) fn push_variable(&mut self, name: &Label, index: u32) -> Result<(), AllocError>
        ensures { OnOk result (self.new ≡ self.old ++ variable_item (record { name = name.now; index = index })) }
    {
        if is_underscore(name) {
            return self.push_code(index);
        }
        self.push_head(4, 2)?;
        self.push_label(name)?;
        self.push_code(index)
    }

    pub(crate) fn push_label(&mut self, label: &Label) -> Result<(), AllocError>
        ensures { OnOk result (self.new ≡ self.old ++ text label.now) }
    {
        self.push_text(label.as_str())
    }

    /// Labels, one after the other.
    pub(crate) fn push_labels(&mut self, labels: &[Label]) -> Result<(), AllocError>
        ensures { OnOk result (self.new ≡ self.old ++ concat (map text labels.now)) }
    {
        for label in labels {
            self.push_label(label)?;
        }
        Ok(())
    }
}

/// Whether the label is `_`, which is not written.
pub(crate) fn is_underscore(label: &Label) -> bool
    ensures { result ≡ bytes_eq label.now (codes "_") }
{
    label.as_str() == "_"
}

/// The code of an operator (the standard's "Binary encoding", "Operators").
pub(crate) fn code_of(operator: BinOp) -> u32
    ensures { result ≡ op_code operator }
{
    u32::from(operator.code())
}
