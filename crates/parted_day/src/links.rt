//! The links of a part at the start of a day.

ghost use Rattle.std.specs.Prelude.{◌≡◌, ◌<◌, length, map, IfOk};
ghost use Rattle.calendar.specs.Due.{AreIn};
ghost use Rattle.town.specs.Views.{setup};
ghost use Rattle.parted_day.specs.Empty.{empty_link};

use person_moves::link_row;
use queue_link::{LinkState, numbers_of};
use std::alloc::{AllocError, Global};
use town::DayInput;

/// A link on which no vehicle is and which has credit for one.
#[tactic(auto, unfolding(town::specs::Setups::setup_of))]
fn empty_link(alloc: Global, day: &DayInput, link: u32) -> LinkState
    requires { link < length day.now.town.now.network.links }
    ensures { result ≡ empty_link (setup day.now) link }
{
    let row = link_row(day, link);
    let numbers = numbers_of(link, &row, &day.town.settings);
    LinkState::new(alloc, numbers)
}

/// These links, in order: no vehicle is on them, and each has credit for one.
pub(crate) fn empty_links(
    alloc: Global,
    day: &DayInput,
    numbers: &[u32],
) -> Result<Vec<LinkState>, AllocError>
    requires { AreIn (length day.now.town.now.network.links) numbers.now }
    ensures { IfOk result (λ links. links.items ≡ map (empty_link (setup day.now)) numbers.now) }
{
    let mut links = Vec::new(alloc);
    let mut rest = numbers;
    while let [link, later @ ..] = rest {
        links.push(empty_link(alloc, day, *link))?;
        rest = later;
    }
    Ok(links)
}
