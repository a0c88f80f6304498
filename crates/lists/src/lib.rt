//! Lists that seldom grow. A list that grows by one asks for memory at lengths 4, 8, 16 and so on, and where threads hand lists to one
//! another each of these requests may wait for another thread.
#![tactic(auto)]

ghost use Rattle.std.specs.Prelude.{◌≡◌, ◌++◌, [], ◌∷◌, OnOk, OnErr};

use std::alloc::AllocError;

/// For how many a list gets room with its first element.
pub const FIRST_ROOM: usize = 16;

/// A list in which nothing is has room for so many.
///
/// # Errors
///
/// `AllocError`: there is no memory for them.
pub fn make_room<E: Drop>(list: &mut Vec<E>, room: usize) -> Result<(), AllocError>
    ensures { list.new.items ≡ list.old.items }
{
    if list.is_empty() && list.capacity() < room {
        *list = Vec::with_capacity(*list.allocator(), room)?;
    }
    Ok(())
}

/// Appends an element. A list without room gets room for 16 at once.
///
/// # Errors
///
/// `AllocError`: there is no memory for one more. The same elements stand in the list then.
pub fn push_with_room<E: Drop>(list: &mut Vec<E>, element: E) -> Result<(), AllocError>
    ensures ok { OnOk result (list.new.items ≡ list.old.items ++ element ∷ []) }
    ensures err { OnErr result (list.new.items ≡ list.old.items) }
{
    make_room(list, FIRST_ROOM)?;
    list.push(element)?;
    Ok(())
}
