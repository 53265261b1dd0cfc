//! One more thing at the end of a vector that has room for it.

ghost use Rattle.std.specs.Prelude.{◌≡◌, ◌+◌, ◌<◌, ◌≤◌, ◌++◌, ◌∷◌, [], IfOk, OnOk, length, vec_len, vec_capacity};

use crate::rows::Order;
use std::alloc::AllocError;

/// Adds an element where there is room.
pub fn put<T: Drop>(v: &mut Vec<T>, x: T)
    requires { vec_len v.old < vec_capacity v.old }
    ensures items { v.new.items ≡ v.old.items ++ x ∷ [] }
    ensures len { vec_len v.new ≡ vec_len v.old + 1 }
    ensures room { vec_capacity v.old ≤ vec_capacity v.new }
{
    let Ok(()) = v.push(x) else { unreachable!() };
}

/// The number of one more thing, and room for it, among the things and in their order.
pub fn next_number<T>(rows: &mut Vec<T>, order: &mut Order) -> Result<u32, AllocError>
    ensures items { rows.new.items ≡ rows.old.items }
    ensures len { vec_len rows.new ≡ vec_len rows.old }
    ensures numbers { order.new.numbers.items ≡ order.old.numbers.items }
    ensures number { IfOk result (λ n. n ≡ length rows.new.items) }
    ensures room { OnOk result (vec_len rows.new < vec_capacity rows.new) }
    ensures place { OnOk result (vec_len order.new.numbers < vec_capacity order.new.numbers) }
{
    rows.reserve(1)?;
    order.reserve()?;
    let count = rows.len();
    if count > u32::MAX as usize {
        return Err(AllocError);
    }
    Ok(count as u32)
}
