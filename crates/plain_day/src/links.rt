//! The numbers of links.

ghost use Rattle.std.specs.Prelude.{◌≡◌, ◌<◌, ◌≤◌, length};
ghost use Rattle.limits.specs.declared.TheConstants.{MAX_LENGTH};
ghost use Rattle.fixed_flow.specs.declared.TheConstants.{MAX_PER_SECOND};
ghost use Rattle.traffic.specs.{Links.rules, Setup.link_row, Setup.seconds_of, Setup.gain_of, Setup.storage_of};
ghost use Rattle.rows.specs.Settings.{IsDwelling};
ghost use Rattle.town.specs.Views.{setup};

use fixed_flow::{buffer_room, credit_per_second, free_seconds, storage};
use person_moves::link_row;
use town::DayInput;
use traffic::Rules;

/// The seconds that the link takes at its free speed.
pub(crate) fn seconds_of(day: &DayInput, link: u32) -> u32
    requires { link < length day.now.town.now.network.links }
    ensures value { result ≡ seconds_of (setup day.now) link }
    ensures most { result ≤ MAX_LENGTH }
{
    let row = link_row(day, link);
    free_seconds(row.length, row.speed)
}

/// The credit that the link gains in a second.
pub(crate) fn gain_of(day: &DayInput, link: u32) -> u32
    requires { link < length day.now.town.now.network.links }
    ensures value { result ≡ gain_of (setup day.now) link }
    ensures most { result ≤ MAX_PER_SECOND }
{
    let row = link_row(day, link);
    credit_per_second(row.capacity, day.town.settings.flow_permille)
}

/// How many taken places the queue of the link may have.
pub(crate) fn storage_of(day: &DayInput, link: u32) -> u32
    requires { link < length day.now.town.now.network.links }
    ensures { result ≡ storage_of (setup day.now) link }
{
    let row = link_row(day, link);
    let seconds = seconds_of(day, link);
    let gain = gain_of(day, link);
    storage(
        row.length,
        row.lanes,
        day.town.settings.storage_permille,
        seconds,
        gain,
    )
}

/// The numbers that the turn of the link takes.
pub(crate) fn rules(day: &DayInput, link: u32) -> Rules
    requires { link < length day.now.town.now.network.links }
    ensures value { result ≡ rules (setup day.now) link }
    ensures dwell { IsDwelling result.dwell }
{
    let gain = gain_of(day, link);
    Rules {
        room: buffer_room(gain),
        gain,
        dwell: day.town.settings.dwell,
    }
}
