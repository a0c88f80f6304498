//! The parcels of all neighbours come to a part.

ghost use Rattle.std.specs.Prelude.{◌≡◌, ◌<◌, length, OnOk};
ghost use Rattle.limits.specs.declared.TheConstants.{LAST_SECOND};
ghost use Rattle.divided_day.specs.Borders.{borders_of};
ghost use Rattle.law_own_worlds.specs.Days.{world_before};
ghost use Rattle.law_parcels.specs.Worlds.{world_held};
ghost use Rattle.partition.specs.Owned.{owner_in};
ghost use Rattle.parts.specs.Parts.{held, ready};
ghost use Rattle.part_seconds.specs.{Parcels.nothing, Stands.AreaStands};
ghost use Rattle.step_core.specs.Views.{AreEmpty, HasHeard};
ghost use Rattle.town.specs.Views.{setup};
ghost use Rattle.parted_day.specs.Absorbed.{IsRight};

use crate::absorbing_parcel::absorb_parcel;
use crate::neighbours::neighbours_of;
use law_parcels::{own_worlds_go_on, parcels_make_ready};
use part_seconds::{Area, Mailbox, Run};
use std::alloc::AllocError;

/// A part absorbs the parcels of its neighbours before a second, in their order: of each the one that was sent as many seconds before as
/// the lag from it has, where that is a second of the day. The part is then what it has to be as its second begins, and nothing is in the
/// parcels any more. Those alone are looked at in which something may be.
///
/// # Errors
///
/// `AllocError`: there is no memory for a row, a vehicle or a person. The part is then of no use.
pub(crate) fn absorb(
    area: &mut Area,
    run: &Run,
    partition: u32,
    second: u32,
    inbox: &mut Mailbox,
) -> Result<(), AllocError>
    requires second_in { second < LAST_SECOND }
    requires in_day { second < run.now.day.now.town.now.settings.end_second }
    requires there { partition < run.now.owner.now.parts }
    requires stands { let own = owner_in run.now.owner.now.of_node in let S = setup run.now.day.now in
        AreaStands run.now.day.now own partition second second second area.old (held S own partition second)
        (world_held S own partition second) }
    requires heard { let own = owner_in run.now.owner.now.of_node in let S = setup run.now.day.now in
        HasHeard nothing (IsRight S own) partition second (borders_of S own run.now.owner.now.parts partition) inbox.old }
    requires places { let own = owner_in run.now.owner.now.of_node in let S = setup run.now.day.now in
        length inbox.old ≡ length (borders_of S own run.now.owner.now.parts partition) }
    ensures stands { let own = owner_in run.now.owner.now.of_node in let S = setup run.now.day.now in
        OnOk result (AreaStands run.now.day.now own partition second second second area.new (ready S own partition second)
        (world_before S own partition second)) }
    ensures empty { OnOk result (AreEmpty nothing (length inbox.old) inbox.new) }
{
    parcels_make_ready();
    own_worlds_go_on();
    let borders = neighbours_of(run, partition);
    let mut from = 0;
    while let Some(place) = inbox.next(from) {
        let parcel = inbox.take(place);
        let sent = second.saturating_sub(borders[place].lag);
        absorb_parcel(area, run, sent, parcel)?;
        from = place + 1;
    }
    Ok(())
}
