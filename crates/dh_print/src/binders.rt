//! The names under which parts stand.
ghost use Rattle.std.specs.Prelude.{◌≡◌, ◌++◌, OnOk, string_bytes};
ghost use Rattle.std.specs.Option.{option_copied};
ghost use Rattle.dh_syntax.specs.Expressions.Bridge.{row_of};
ghost use Rattle.dh_print.specs.Inside.Binders.{last_binder, binder_text, is_blank};

use crate::labels::write_label;
use dh_syntax::{Kid, Label};
use std::alloc::AllocError;

/// The name that the last part stands under, if it stands under one.
fn binder(kids: &[Kid]) -> Option<&Label>
    ensures { option_copied result ≡ last_binder (row_of kids.now) }
{
    match kids.split_last() {
        Some((last, _)) => last.binder.as_ref(),
        None => None,
    }
}

/// A text, and after it the name that the last part stands under.
pub fn write_binder(text: &mut String, before: &str, kids: &[Kid]) -> Result<(), AllocError>
    ensures { OnOk result (string_bytes text.new
        ≡ string_bytes text.old ++ (before.now ++ binder_text (last_binder (row_of kids.now)))) }
{
    text.push_str(before)?;
    match binder(kids) {
        Some(name) => write_label(text, name),
        None => Ok(()),
    }
}

/// Whether the last part stands under the name `_`, which `A → B` leaves out.
pub fn binds_blank(kids: &[Kid]) -> bool
    ensures { result ≡ is_blank (last_binder (row_of kids.now)) }
{
    match binder(kids) {
        Some(name) => name.as_str() == "_",
        None => false,
    }
}
