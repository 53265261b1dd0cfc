//! One line of a script.

ghost use Rattle.std.specs.Prelude.{◌≡◌, ◌++◌, codes, IfOk, IfSome};
ghost use Rattle.dh_script.specs.Reads.{IsOrderRead};
ghost use Rattle.dh_script.specs.Orders.{IsFit};

use crate::locations::read_location;
use crate::orders::Order;
use crate::pieces::{at_last_blank, behind, decoded};
use std::alloc::{AllocError, Global};

/// What stands behind `set `: a location, a blank, and the bytes.
fn read_set(alloc: Global, rest: &[u8]) -> Result<Option<Order>, AllocError>
    ensures order { IfOk result (IsOrderRead (codes "set " ++ rest.now)) }
    ensures fit { IfOk result (λ o. IfSome o IsFit) }
{
    let Some((text, digits)) = at_last_blank(rest) else {
        return Ok(None);
    };
    let Some(bytes) = decoded(alloc, digits)? else {
        return Ok(None);
    };
    match read_location(alloc, text)? {
        Some(loc) => Ok(Some(Order::Set(loc, bytes))),
        None => Ok(None),
    }
}

/// What stands behind `drop `: a location.
fn read_drop(alloc: Global, text: &[u8]) -> Result<Option<Order>, AllocError>
    ensures order { IfOk result (IsOrderRead (codes "drop " ++ text.now)) }
    ensures fit { IfOk result (λ o. IfSome o IsFit) }
{
    match read_location(alloc, text)? {
        Some(loc) => Ok(Some(Order::Drop(loc))),
        None => Ok(None),
    }
}

/// What stands behind `ask `: a location.
fn read_ask(alloc: Global, text: &[u8]) -> Result<Option<Order>, AllocError>
    ensures order { IfOk result (IsOrderRead (codes "ask " ++ text.now)) }
    ensures fit { IfOk result (λ o. IfSome o IsFit) }
{
    match read_location(alloc, text)? {
        Some(loc) => Ok(Some(Order::Ask(loc))),
        None => Ok(None),
    }
}

/// The order of a line, where it is one.
pub(crate) fn read_line(alloc: Global, line: &[u8]) -> Result<Option<Order>, AllocError>
    ensures order { IfOk result (IsOrderRead line.now) }
    ensures fit { IfOk result (λ o. IfSome o IsFit) }
{
    if let Some(rest) = behind(line, b"set ") {
        return read_set(alloc, rest);
    }
    if let Some(text) = behind(line, b"drop ") {
        return read_drop(alloc, text);
    }
    if let Some(text) = behind(line, b"ask ") {
        return read_ask(alloc, text);
    }
    Ok(None)
}
