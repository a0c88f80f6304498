//! One partition of the day of a town.

ghost use Rattle.std.specs.Prelude.{◌≡◌, ◌++◌, [], true, refl, if◌then◌else◌, IfOk};
ghost use Rattle.divided_day.specs.Days.{net_in, borders_in};
ghost use Rattle.parted_day.specs.{Absorbed.IsRight, Parts.view_of, Parts.IsPartOf};
ghost use Rattle.part_seconds.specs.Parcels as contents;
ghost use Rattle.partition.specs.Owned.{owner_in};
ghost use Rattle.town.specs.Views.{setup};

use crate::beginnings::begin;
use crate::ends::end_events;
use crate::neighbours::neighbours_of;
use crate::quiet::{quiet_until, rest_changes_nothing};
use crate::straying::Stray;
use crate::turns::{forget_told, send_parcels, take_turns};
use divided_day::DayPart;
use events::{Event, EventList, Rows};
use part_links::Told;
use part_seconds::{Area, Mailbox, Parcel, Run};
use std::alloc::{AllocError, Global};
use std::marker::PhantomData;
use step_core::{BorderList, Part};

/// A partition of the day of a town.
#[derive(Drop)]
pub struct TownPart<'a> {
    pub(crate) number: u32,
    /// How many seconds it has done.
    pub(crate) done: u32,
    /// Nobody of it has anything to do before this second, unless something comes from a neighbour.
    pub(crate) quiet_until: u32,
    /// Whether it found no memory in a second: it is of no use then.
    pub(crate) spent: bool,
    /// Its share of the network, and who is there.
    pub(crate) area: Area,
    /// By neighbour, ascending, what came from it and is to be absorbed before the next second.
    pub(crate) inbox: Mailbox,
    /// By neighbour what goes to it.
    pub(crate) outbox: Mailbox,
    /// What it told, or what it told in the second that it did last.
    pub(crate) told: Told,
    /// Who is in parcels that come when the day is over.
    pub(crate) strays: Vec<Stray>,
    /// For its type alone: a part belongs to runs that live as long as `'a`.
    pub(crate) of: PhantomData<&'a u32>,
}

/// What a part told in its seconds, where that was not taken as the day went on, and then what it tells of the end of the day.
fn told_at_last(told: Told, streams: bool, ended: Vec<Event>) -> Result<Vec<Event>, AllocError>
    ensures { IfOk result (λ all. all.items ≡ (if streams then ended.items else told.events.items ++ ended.items)) }
{
    if streams {
        return Ok(ended);
    }
    let Told {
        mut events,
        said: _said,
    } = told;
    events.extend_from_slice(&ended)?;
    Ok(events)
}

/// For how many events all parts of a day together are given room as they start, and an eighth more: about a gibibyte.
const MOST_ROOM: usize = 1 << 24;

/// All of these numbers together.
fn sum_of(numbers: &[usize]) -> usize {
    let mut sum = 0usize;
    for number in numbers {
        sum = sum.saturating_add(*number);
    }
    sum
}

/// For how many events a part gets room as it starts: for those that it is expected to tell and an eighth more, or for an equal share of
/// them in each part where more are expected of all than there is to be room for. It gets none where events are taken as the day goes on.
fn room_of(run: &Run, number: u32) -> usize {
    let place = number as usize;
    if run.streams || place >= run.loads.len() {
        return 0;
    }
    let shares = sum_of(run.loads) / MOST_ROOM + 1;
    let expected = run.loads[place] / shares;
    expected.saturating_add(expected / 8)
}

/// A list for what a part tells, with room for so many events, so that it need not be moved as it grows: that takes long where several
/// threads do it. Where the system gives no such room, the list begins without.
fn list_with_room(alloc: Global, room: usize) -> Vec<Event>
    ensures { result.items ≡ [] }
{
    match Vec::with_capacity(alloc, room) {
        Ok(events) => events,
        Err(_) => Vec::new(alloc),
    }
}

impl<'a> Part for TownPart<'a> {
    type Run = Run<'a>;

    type Parcel = Parcel;

    ghost nothing = { contents.nothing };

    ghost net = { λ run. net_in run.day.now run.owner.now };

    ghost borders = { λ run p. borders_in run.day.now run.owner.now p };

    ghost see = { view_of };

    ghost stands = { IsPartOf };

    ghost spent = { λ x. x.spent ≡ true };

    ghost right = { λ run. IsRight (setup run.day.now) (owner_in run.owner.now.of_node) };

    fn nothing() -> Parcel
        ensures { result ≡ contents.nothing }
    {
        Parcel::new()
    }

    fn is_nothing(parcel: &Parcel) -> bool
        ensures { result ≡ true → parcel.now ≡ contents.nothing }
    {
        parcel.is_nothing()
    }

    fn count(run: &Run<'a>) -> u32 {
        run.owner.parts
    }

    fn end(run: &Run<'a>) -> u32 {
        run.day.town.settings.end_second
    }

    fn borders(alloc: Global, run: &Run<'a>, number: u32) -> Result<BorderList, AllocError> {
        let rows = Vec::from_slice(alloc, neighbours_of(run, number))?;
        Ok(Rows { rows })
    }

    fn start(alloc: Global, run: &Run<'a>, number: u32) -> Result<TownPart<'a>, AllocError> {
        let area = begin(run, number)?;
        let count = neighbours_of(run, number).len();
        let inbox = Mailbox::new(alloc, count)?;
        let outbox = Mailbox::new(alloc, count)?;
        let told = Told {
            events: list_with_room(alloc, room_of(run, number)),
            said: Vec::new(alloc),
        };
        Ok(TownPart {
            number,
            done: 0,
            quiet_until: 0,
            spent: false,
            area,
            inbox,
            outbox,
            told,
            strays: Vec::new(alloc),
            of: PhantomData,
        })
    }

    fn absorb(&mut self, place: usize, parcel: Parcel) {
        self.inbox.put(place, parcel);
    }

    fn second(&mut self, run: &Run<'a>) -> Result<(), AllocError> {
        forget_told(run, &mut self.told);
        rest_changes_nothing();
        let came = self.inbox.has_some();
        self.quiet_until = quiet_until(&self.area, self.done, self.quiet_until, came);
        if !came && self.done < self.quiet_until {
            self.done += 1;
            return Ok(());
        }
        self.quiet_until = 0;
        self.spent = true;
        let leaving = take_turns(
            run,
            self.number,
            self.done,
            &mut self.area,
            &mut self.inbox,
            &mut self.told,
        )?;
        send_parcels(
            run,
            self.number,
            self.done,
            leaving,
            &mut self.area,
            &mut self.outbox,
            &mut self.strays,
        )?;
        self.done += 1;
        self.spent = false;
        Ok(())
    }

    fn next_parcel(&self, from: usize) -> Option<usize> {
        self.outbox.next(from)
    }

    fn outbox(&mut self, place: usize) -> Parcel {
        self.outbox.take(place)
    }
}

impl<'a> DayPart for TownPart<'a> {
    ghost day = { λ run. run.day.now };

    ghost owner = { λ run. run.owner.now };

    ghost streams = { λ run. run.streams };

    ghost nets = { λ _. refl };

    ghost neighbours = { λ _ _. refl };

    fn told(&self, _run: &Run<'a>) -> &[Event] {
        &self.told.events
    }

    fn finish(self, _alloc: Global, run: &Run<'a>) -> Result<EventList, AllocError> {
        let TownPart {
            number,
            done: _done,
            quiet_until: _quiet_until,
            spent: _spent,
            area,
            inbox: _inbox,
            outbox: _outbox,
            told,
            strays,
            of: _of,
        } = self;
        let ended = end_events(run, number, area, strays)?;
        let rows = told_at_last(told, run.streams, ended)?;
        Ok(Rows { rows })
    }
}
