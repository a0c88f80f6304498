//! The links of a town by their numbers, and for how long a place that was left on one stays taken.

ghost use Rattle.std.specs.Prelude.{◌≡◌, ◌<◌, length, get_or};
ghost use Rattle.rows.specs.Networks.{IsMeasured};
ghost use Rattle.traffic.specs.Setup.{link_row, hole_of};
ghost use Rattle.town.specs.Views.{setup};

use rows::{LinkList, LinkRow};
use town::DayInput;
use vehicles::hole_seconds;

/// The row of a link.
fn row_at(links: &LinkList, link: u32) -> LinkRow
    requires { link < length links.now }
    ensures { result ≡ get_or links.now link result }
{
    links.rows[link as usize]
}

/// A link of the town: its numbers are in their ranges, and the nodes where it begins and ends are there.
pub fn link_row(day: &DayInput, link: u32) -> LinkRow
    requires { link < length day.now.town.now.network.links }
    ensures row { link_row (setup day.now) link ≡ result }
    ensures measures { IsMeasured result }
    ensures from { result.from < length day.now.town.now.network.nodes }
    ensures to { result.to < length day.now.town.now.network.nodes }
{
    row_at(&day.town.network.links, link)
}

/// For how many seconds a place that was left on the link stays taken.
pub fn hole_of(day: &DayInput, link: u32) -> u32
    requires { link < length day.now.town.now.network.links }
    ensures { result ≡ hole_of (setup day.now) link }
{
    let row = link_row(day, link);
    hole_seconds(row.length, day.town.settings.hole_speed)
}
