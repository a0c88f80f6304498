ghost use Rattle.std.specs.Prelude.{◌≡◌, length};

use events::Names;

/// The values of rows, with a name each.
#[derive(Drop)]
pub struct Table<T> {
    pub names: Names,
    pub rows: Vec<T>,
    pub ghost each: { length names ≡ length rows.items },
}
