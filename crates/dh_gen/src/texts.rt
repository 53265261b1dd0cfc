//! The generated texts, and the list of their imports.

ghost use Rattle.std.specs.Prelude.{◌≡◌, ◌++◌, ◌+◌, ◌<◌, ◌≤◌, OnOk, IfOk, codes, decimal, string_bytes};
ghost use Rattle.dh_gen.specs.Generated.{import_text, imports_to, list_text, text_of};
ghost use Rattle.dh_gen.specs.Numbers.{most_number};

use std::alloc::{AllocError, Global};

/// Adds a number in decimal.
fn push_number(text: &mut String, number: u32) -> Result<(), AllocError>
    ensures { OnOk result (string_bytes text.new ≡ string_bytes text.old ++ decimal number) }
{
    text.push_str(itoa::Buffer::new().format(number))
}

/// Adds the import of the text of this number.
fn push_import(text: &mut String, number: u32) -> Result<(), AllocError>
    ensures { OnOk result (string_bytes text.new ≡ string_bytes text.old ++ import_text number) }
{
    text.push_str("./g")?;
    push_number(text, number)
}

/// The text at `./gK`.
pub fn text_of(alloc: Global, number: u32) -> Result<String, AllocError>
    ensures { IfOk result (λ t. string_bytes t ≡ text_of number) }
{
    if number < 2 {
        return String::from_str(alloc, if number == 0 { "0" } else { "1" });
    }
    let mut text = String::new(alloc);
    push_import(&mut text, number / 2)?;
    text.push_str(" + ")?;
    push_import(&mut text, number / 3)?;
    text.push_str(" + ")?;
    push_number(&mut text, number)?;
    Ok(text)
}

/// Adds a comma and an import.
fn push_next(text: &mut String, number: u32) -> Result<(), AllocError>
    ensures { OnOk result (string_bytes text.new ≡ string_bytes text.old ++ codes ", " ++ import_text number) }
{
    text.push_str(", ")?;
    push_import(text, number)
}

/// The text that lists the imports `./g0` to `./gN`.
pub fn list_text(alloc: Global, last: u32) -> Result<String, AllocError>
    requires { last ≤ most_number }
    ensures { IfOk result (λ t. string_bytes t ≡ list_text last) }
{
    let mut text = String::from_str(alloc, "[")?;
    push_import(&mut text, 0)?;
    for number in 0..last {
        push_next(&mut text, number + 1)?;
    }
    text.push_str("]")?;
    Ok(text)
}
