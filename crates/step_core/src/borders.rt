//! Where a partition stands among the neighbours of another one.

ghost use Rattle.std.specs.Prelude.{◌≡◌, ◌≢◌, ℕ, ◌<◌, length, IfNone, IfSome};
ghost use Rattle.step_core.specs.Exchanges.{Ascend, IsPlaceOf, neighbour_at};

use crate::part::Border;

/// The place of a partition among these neighbours, where it is one of them. It is sought backwards from the place of its own number, since
/// it is no further: where most partitions are neighbours it is found at once.
pub fn place_of(borders: &[Border], partition: u32) -> Option<usize>
    requires { Ascend borders.now }
    ensures none { IfNone result ((k : ℕ) → k < length borders.now → neighbour_at borders.now k ≢ partition) }
    ensures some { IfSome result (IsPlaceOf borders.now partition) }
{
    let mut behind = borders.len().min(partition as usize + 1);
    'places: while behind > 0 {
        let place = behind - 1;
        let neighbour = borders[place].neighbour;
        if neighbour == partition {
            return Some(place);
        }
        if neighbour < partition {
            return None;
        }
        behind = place;
    }
    None
}
