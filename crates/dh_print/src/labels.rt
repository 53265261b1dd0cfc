//! Labels, in backticks where a name would not be read as a label (`dhall.abnf`, "label").
ghost use Rattle.std.specs.Prelude.{◌≡◌, ◌++◌, map, OnOk, bytes_eq, codes, string_bytes};
ghost use Rattle.std.specs.List.{list_all, list_any};
ghost use Rattle.dh_syntax.specs.Text.Characters as characters;
ghost use Rattle.dh_syntax.specs.Text.Printed.{is_plain_label, label, projection_text, separated, variable};
ghost use Rattle.dh_print.specs.Inside.Names.{spells_name};

use dh_literals::push_natural;
use dh_syntax::Label;
use std::alloc::AllocError;

/// The keywords and the built-in names, those that are left out among them.
static RESERVED: [&str; 59] = [
    "if",
    "then",
    "else",
    "let",
    "in",
    "missing",
    "assert",
    "as",
    "merge",
    "Some",
    "toMap",
    "with",
    "forall",
    "True",
    "False",
    "Type",
    "Kind",
    "Sort",
    "Bool",
    "Natural",
    "Integer",
    "Text",
    "List",
    "Optional",
    "None",
    "Natural/fold",
    "Natural/build",
    "Natural/isZero",
    "Natural/even",
    "Natural/odd",
    "Natural/toInteger",
    "Natural/show",
    "Natural/subtract",
    "Integer/show",
    "Integer/negate",
    "Integer/clamp",
    "List/build",
    "List/fold",
    "List/length",
    "List/head",
    "List/last",
    "List/indexed",
    "List/reverse",
    "Text/show",
    "Text/replace",
    "Double",
    "Double/show",
    "Integer/toDouble",
    "Date",
    "Date/show",
    "Time",
    "Time/show",
    "TimeZone",
    "TimeZone/show",
    "Bytes",
    "showConstructor",
    "using",
    "Infinity",
    "NaN",
];

/// A variable with its index, which is left out where it is 0.
pub fn write_variable(text: &mut String, name: &Label, index: u32) -> Result<(), AllocError>
    ensures { OnOk result (string_bytes text.new
        ≡ string_bytes text.old ++ variable (record { name = name.now; index = index })) }
{
    write_label(text, name)?;
    if index != 0 {
        text.push_str("@")?;
        push_natural(text, u128::from(index))?;
    }
    Ok(())
}

/// A label, between backticks where it would not be read as one without them.
pub fn write_label(text: &mut String, name: &Label) -> Result<(), AllocError>
    ensures { OnOk result (string_bytes text.new ≡ string_bytes text.old ++ label name.now) }
{
    if is_plain(name.as_str()) {
        text.push_str(name.as_str())?;
    } else {
        text.push_str("`")?;
        text.push_str(name.as_str())?;
        text.push_str("`")?;
    }
    Ok(())
}

/// Labels in a row, with a text between each two.
pub fn write_labels(text: &mut String, between: &str, labels: &[Label]) -> Result<(), AllocError>
    ensures { OnOk result (string_bytes text.new
        ≡ string_bytes text.old ++ separated between.now (map label labels.now)) }
{
    let mut before = "";
    for name in labels {
        text.push_str(before)?;
        write_label(text, name)?;
        before = between;
    }
    Ok(())
}

/// A label behind the `.` of its selection.
pub fn write_selected(text: &mut String, name: &Label) -> Result<(), AllocError>
    ensures { OnOk result (string_bytes text.new
        ≡ string_bytes text.old ++ (codes "." ++ label name.now)) }
{
    text.push_str(".")?;
    write_label(text, name)
}

/// The labels of a projection in their braces, behind its `.`.
pub fn write_projection(text: &mut String, labels: &[Label]) -> Result<(), AllocError>
    ensures { OnOk result (string_bytes text.new
        ≡ string_bytes text.old ++ (codes "." ++ projection_text labels.now)) }
{
    if labels.is_empty() {
        return text.push_str(".{}");
    }
    text.push_str(".{ ")?;
    write_labels(text, ", ", labels)?;
    text.push_str(" }")
}

/// Whether a name is read as a label where it stands without backticks.
fn is_plain(name: &str) -> bool
    ensures { result ≡ is_plain_label name.now }
{
    spells_name(name.as_bytes()) && !is_among(&RESERVED, name)
}

/// Whether the bytes are those of a name ("simple-label", "keyword" and "builtin").
fn spells_name(bytes: &[u8]) -> bool
    ensures { result ≡ spells_name bytes.now }
{
    match bytes {
        [] => false,
        [first, ..] => is_name_start(*first) && are_name_bytes(bytes),
    }
}

fn is_among(words: &[&str], name: &str) -> bool
    ensures { result ≡ list_any (λ w. bytes_eq w.now name.now) words.now }
{
    words.iter().any(|word| *word == name)
}

fn are_name_bytes(bytes: &[u8]) -> bool
    ensures { result ≡ list_all characters.is_name_byte bytes.now }
{
    bytes.iter().all(|b| is_name_byte(*b))
}

fn is_name_start(b: u8) -> bool
    ensures { result ≡ characters.is_name_start b }
{
    b.is_ascii_alphabetic() || b == b'_'
}

fn is_name_byte(b: u8) -> bool
    ensures { result ≡ characters.is_name_byte b }
{
    b.is_ascii_alphanumeric() || b == b'-' || b == b'/' || b == b'_'
}
