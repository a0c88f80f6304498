//! Vehicles come to the wait lists of links. A row names its link by the slot in which the link stands: in the whole network that is the
//! number of the link.

ghost use Rattle.std.specs.Prelude.{◌≡◌, length, OnOk};
ghost use Rattle.part_seconds.specs.Starting.{started, all_started, woken_for, woken_for_all};

use calendar::Wakes;
use queue_link::LinkState;
use std::alloc::AllocError;
use traffic::Row;

/// A vehicle comes to the end of the wait list of its link, which is woken in this second.
fn start(
    second: u32,
    row: Row,
    links: &mut [LinkState],
    wakes: &mut Wakes,
) -> Result<(), AllocError>
    requires wakes { length wakes.old ≡ length links.old }
    ensures links { OnOk result (links.new ≡ started row links.old) }
    ensures wakes { OnOk result (wakes.new ≡ woken_for second row wakes.old) }
{
    let Row {
        vehicle,
        link,
        stage: _stage,
        second: _second,
    } = row;
    let place = link as usize;
    if place >= links.len() {
        return Ok(());
    }
    links[place].depart(vehicle)?;
    wakes.wake(link, second)?;
    Ok(())
}

/// These vehicles come to the wait lists of their links, in order, and the links are woken in this second.
///
/// # Errors
///
/// `AllocError`: there is no memory for a row. The links are then of no use.
pub(crate) fn start_all(
    second: u32,
    rows: Vec<Row>,
    links: &mut [LinkState],
    wakes: &mut Wakes,
) -> Result<(), AllocError>
    requires wakes { length wakes.old ≡ length links.old }
    ensures links { OnOk result (links.new ≡ all_started rows.items links.old) }
    ensures wakes { OnOk result (wakes.new ≡ woken_for_all second rows.items wakes.old) }
{
    for row in rows {
        start(second, row, links, wakes)?;
    }
    Ok(())
}
