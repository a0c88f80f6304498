ghost use Rattle.std.specs.Prelude.{◌≡◌, ◌∷◌, ◌++◌, [], true, OnOk};
ghost use Rattle.events.specs.Names.{is_name, with_name};

use crate::names::number;
use events::Names;
use std::alloc::{AllocError, Global};

/// Puts a name and the row that it names last. A name that is held already is not put twice.
pub fn add_row<T: Drop>(
    alloc: Global,
    names: &mut Names,
    rows: &mut Vec<T>,
    name: &[u8],
    row: T,
) -> Result<(), AllocError>
    requires { is_name name.now ≡ true }
    ensures names { OnOk result (names.new ≡ with_name names.old name.now) }
    ensures rows { OnOk result (rows.new.items ≡ rows.old.items ++ row ∷ []) }
{
    number(alloc, names, name)?;
    rows.push(row)?;
    Ok(())
}
