//! A whole script.

ghost use Rattle.std.specs.Prelude.{◌≡◌, ◌≤◌, ◌<◌, All, IfErr, IfOk, length, vec_len};
ghost use Rattle.dh_watch_laws.specs.ScriptLines.{AreOrders, IsScript, lines_of};
ghost use Rattle.dh_script.specs.Faults.{AreRefused, IsRefused};
ghost use Rattle.dh_script.specs.Orders.{IsFit, orders_of};
ghost use Rattle.dh_syntax.specs.Limits.{most_bytes};

use crate::faults::ScriptFault;
use crate::lines::read_line;
use crate::orders::Order;
use crate::pieces::first_line;
use dh_syntax::MOST_BYTES;
use std::alloc::Global;

/// The orders of the lines of a text, or the number of the first line that is none.
fn read_lines(alloc: Global, text: &[u8]) -> Result<Vec<Order>, ScriptFault>
    requires { length text.now ≤ most_bytes }
    ensures orders { IfOk result (λ orders. AreOrders (lines_of text.now) (orders_of orders.items)) }
    ensures refused { IfErr result (AreRefused (lines_of text.now)) }
    ensures fit { IfOk result (λ orders. All IsFit orders.items) }
{
    let mut orders = Vec::new(alloc);
    let mut rest = text;
    let mut number: u32 = 0;
    while !rest.is_empty() {
        let (line, more) = first_line(rest);
        number += 1;
        match read_line(alloc, line) {
            Ok(Some(order)) => orders.push(order)?,
            Ok(None) => return Err(ScriptFault::Line(number)),
            Err(_) => return Err(ScriptFault::Memory),
        }
        rest = more;
    }
    Ok(orders)
}

/// The orders of a script, or its fault: it is too large, it is no UTF-8, or it has a line that is no order, of which the first is told.
pub fn read_script(alloc: Global, bytes: &[u8]) -> Result<Vec<Order>, ScriptFault>
    ensures script { IfOk result (λ orders. IsScript bytes.now (orders_of orders.items)) }
    ensures refused { IfErr result (IsRefused bytes.now) }
    ensures fit { IfOk result (λ orders. All IsFit orders.items) }
{
    if bytes.len() > MOST_BYTES {
        return Err(ScriptFault::TooLarge);
    }
    match str::from_utf8(bytes) {
        Ok(_) => read_lines(alloc, bytes),
        Err(fault) => Err(ScriptFault::NotUtf8(fault.valid_up_to() as u32)),
    }
}
