//! The numbers of a link.

ghost use Rattle.std.specs.Prelude.{◌≡◌, ◌≤◌};
ghost use Rattle.limits.specs.declared.TheConstants.{MAX_PERMILLE};
ghost use Rattle.rows.specs.Networks.{IsMeasured};
ghost use Rattle.queue_link.specs.Numbers.{numbers_of, AreNumbers};

use fixed_flow::{buffer_room, credit_per_second, free_seconds, storage};
use rows::{LinkRow, TrafficSettings};

/// What a link's vehicles meet of its row and of the settings.
#[derive(Clone, Copy, Debug, PartialEq, Eq)]
pub struct LinkNumbers {
    pub link: u32,
    /// The seconds that it takes at its free speed.
    pub seconds: u32,
    /// How many places its queue has.
    pub storage: u32,
    /// How many vehicles its buffer takes.
    pub room: u32,
    /// The credit that it gains in a second.
    pub gain: u32,
    /// In vehicles an hour: its weight where it is drawn at its end node.
    pub capacity: u32,
}

/// The numbers of a link, by its row of links.csv and the settings of traffic.
#[tactic(auto, unfolding(crate::specs::Numbers::numbers_of))]
pub fn numbers_of(link: u32, row: &LinkRow, settings: &TrafficSettings) -> LinkNumbers
    requires measured { IsMeasured row.now }
    requires flow { settings.now.flow_permille ≤ MAX_PERMILLE }
    requires space { settings.now.storage_permille ≤ MAX_PERMILLE }
    ensures value { result ≡ numbers_of link row.now settings.now }
    ensures near { AreNumbers result }
{
    let seconds = free_seconds(row.length, row.speed);
    let gain = credit_per_second(row.capacity, settings.flow_permille);
    let places = storage(
        row.length,
        row.lanes,
        settings.storage_permille,
        seconds,
        gain,
    );
    LinkNumbers {
        link,
        seconds,
        storage: places,
        room: buffer_room(gain),
        gain,
        capacity: row.capacity,
    }
}
