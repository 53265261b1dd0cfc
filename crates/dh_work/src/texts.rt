//! The last step of a text that is imported as text.

ghost use Rattle.std.specs.Prelude.{◌≡◌, IfOk};
ghost use Rattle.dh_syntax.specs.Expressions.Forms as form;
ghost use Rattle.dh_imports.specs.LastStep as last;
ghost use Rattle.dh_imports.specs.Outcomes.{Good, plain};
ghost use Rattle.dh_imports.specs.declared.outcomes.Origin.TheVariants as origins;
ghost use Rattle.dh_record.specs.Values.{HasValue};

use crate::literals::plain_text;
use crate::outcomes::{fetched, own_fault};
use dh_imports::{Outcome, Why};
use dh_syntax::{Bytes, Key, MOST_BYTES, ParseFault};
use std::alloc::{AllocError, Global};

/// The text as a value.
fn text_value(alloc: Global, text: &str, allow: &Option<Bytes>) -> Result<Outcome, AllocError>
    ensures outcome { IfOk result (λ o. plain o ≡ Good (form.plain_text text.now) (origins.Fetched allow.now)) }
    ensures value { IfOk result HasValue }
{
    let origin = fetched(alloc, allow)?;
    let value = plain_text(alloc, text)?;
    Ok(Outcome::Good { value, origin })
}

/// What comes of a text. It has at most 1,048,576 bytes, which is looked at first, and is UTF-8.
pub(crate) fn text_outcome(
    alloc: Global,
    key: &Key,
    bytes: &[u8],
    allow: &Option<Bytes>,
) -> Result<Outcome, AllocError>
    ensures outcome { IfOk result (λ o. plain o ≡ last.text_outcome key.now bytes.now allow.now) }
    ensures value { IfOk result HasValue }
{
    if bytes.len() > MOST_BYTES {
        return own_fault(alloc, key, Why::Parse(ParseFault::TooLarge));
    }
    match str::from_utf8(bytes) {
        Ok(text) => text_value(alloc, text, allow),
        Err(fault) => {
            let at = fault.valid_up_to() as u32;
            own_fault(alloc, key, Why::Parse(ParseFault::NotUtf8(at)))
        }
    }
}
