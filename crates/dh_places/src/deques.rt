//! Rows that grow at either end.
ghost use Rattle.std.specs.Prelude.{◌≡◌, ◌++◌, IfOk};

use std::alloc::AllocError;
use std::collections::VecDeque;

/// Some items and then others. The fewer are moved to the more.
pub fn joined<T: Drop>(
    mut left: VecDeque<T>,
    mut right: VecDeque<T>,
) -> Result<VecDeque<T>, AllocError>
    ensures { IfOk result (λ made. made.items ≡ left.items ++ right.items) }
{
    if right.len() <= left.len() {
        left.append(&mut right)?;
        return Ok(left);
    }
    while let Some(item) = left.pop_back() {
        right.push_front(item)?;
    }
    Ok(right)
}
