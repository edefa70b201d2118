//! A list that grows by one.
ghost use Rattle.std.specs.Prelude.{◌≡◌, ◌++◌, ◌∷◌, [], OnOk};

use std::alloc::{AllocError, Allocator};

/// Appends an item. Fails where memory is refused.
pub(crate) fn add<T: Copy, A: Allocator>(items: &mut Vec<T, A>, item: &T) -> Result<(), AllocError>
    ensures { OnOk result (items.new.items ≡ items.old.items ++ item.now ∷ []) }
{
    items.push(*item)?;
    Ok(())
}

/// Appends what holds memory. Fails where memory is refused.
pub(crate) fn add_held<T: Drop, A: Allocator>(
    items: &mut Vec<T, A>,
    item: T,
) -> Result<(), AllocError>
    ensures { OnOk result (items.new.items ≡ items.old.items ++ item ∷ []) }
{
    items.push(item)?;
    Ok(())
}
