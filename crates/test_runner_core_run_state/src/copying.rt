// Copies of lists.
ghost use Rattle.std.specs.Prelude.{◌≤◌, IfOk, vec_capacity};
ghost use Rattle.std.specs.List.{AllZip};

use std::alloc::{AllocError, Global};

// Copies of these elements, with room for so many in all.
pub(crate) fn copied<T: Clone + Drop>(
    alloc: Global,
    elements: &[T],
    room: usize,
) -> Result<Vec<T>, AllocError>
    ensures each { IfOk result (λ copy. AllZip T.is_clone elements.now copy.items) }
    ensures room { IfOk result (λ copy. room ≤ vec_capacity copy) }
{
    let mut copy = Vec::with_capacity(alloc, room)?;
    copy.extend_with_clones(elements)?;
    Ok(copy)
}
