ghost use Rattle.std.specs.Prelude.{◌≡◌, ◌*◌, ◌<◌, ◌≤◌, [], length, vec_capacity, IfOk};

use std::alloc::{AllocError, Global};

/// An empty list with room for so many elements of `size` bytes each in the file, and for no more than
/// the bytes that are left can hold.
pub fn with_room<T: Drop>(
    alloc: Global,
    count: u32,
    size: usize,
    bytes: &[u8],
) -> Result<Vec<T>, AllocError>
    requires { 0 < size }
    ensures none { IfOk result (λ values. values.items ≡ []) }
    ensures room { IfOk result (λ values. vec_capacity values * size ≤ length bytes.now) }
{
    let room = (count as usize).min(bytes.len() / size);
    let values = Vec::with_capacity(alloc, room)?;
    Ok(values)
}
