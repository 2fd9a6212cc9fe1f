//! Vectors that are filled.

ghost use Rattle.std.specs.Prelude.{◌≡◌, ◌≤◌, ◌++◌, ◌∷◌, [], OnOk};
ghost use Rattle.prefix_table.specs.declared.link.TheConstants.{NONE};
ghost use Rattle.prefix_table.specs.Numbers.{HasRoom};

use crate::link::NONE;
use std::alloc::AllocError;

/// Adds an item at the end.
pub(crate) fn add<T: Drop>(items: &mut Vec<T>, item: T) -> Result<(), AllocError>
    ensures { OnOk result (items.new.items ≡ items.old.items ++ item ∷ []) }
{
    items.push(item)?;
    Ok(())
}

/// Makes space for so many items more, each of which has a number below `NONE`. The items stay.
pub(crate) fn make_room<T>(items: &mut Vec<T>, more: u32) -> Result<(), AllocError>
    requires { more ≤ NONE }
    ensures items { items.new.items ≡ items.old.items }
    ensures room { OnOk result (HasRoom items.new more) }
{
    if items.len() > (NONE - more) as usize {
        return Err(AllocError);
    }
    items.reserve(more as usize)
}
