//! What a partition sends to a neighbour in a second.

ghost use Rattle.std.specs.Prelude.{◌≡◌, true, IfOk, OnOk, MatchOption};
ghost use Rattle.part_seconds.specs.{Parcels.nothing, Sending.with_item};

use events::Rows;
use std::alloc::{AllocError, Global};
use std::marker::Model;
use traffic::Vehicle;

/// A vehicle that crosses a border, with the elements of its riders. Its row follows from the vehicle and the second.
#[derive(Drop)]
pub struct Moved {
    /// The vehicle, its place in the route being that of the link which it enters.
    pub vehicle: Vehicle,
    /// At which elements of their plans its riders are, in their order.
    pub elements: Rows<u32>,
}

/// The vehicles that cross a border in a second, in order.
pub type MovedList = Rows<Moved>;

/// A person who teleports over a border since the second of the parcel.
#[derive(Clone, Copy, Debug, PartialEq, Eq)]
pub struct Teleported {
    /// The number of the person.
    pub person: u32,
    /// At which element of the plan the person is.
    pub element: u32,
}

/// The persons who teleport over a border since a second, by number.
pub type TeleportedList = Rows<Teleported>;

/// How many vehicles left the queue of a link.
#[derive(Clone, Copy, Debug, PartialEq, Eq)]
pub struct FreedPlaces {
    /// The number of the link.
    pub link: u32,
    /// How many vehicles left its queue: one place each.
    pub count: usize,
}

/// Links whose queues vehicles left in a second, by number.
pub type FreedList = Rows<FreedPlaces>;

/// One thing that goes over a border.
#[derive(Drop)]
pub enum ParcelItem {
    /// A vehicle that enters a link of the neighbour.
    Vehicle(Moved),
    /// A person whose teleported leg goes to a link of the neighbour.
    Teleported(Teleported),
    /// A link that begins at a node of the neighbour, of which places were left.
    Freed(FreedPlaces),
}

/// What goes over a border in one second.
#[derive(Drop)]
pub struct Contents {
    /// The vehicles that enter links of the neighbour.
    pub vehicles: MovedList,
    /// The persons whose teleported leg goes to a link of the neighbour.
    pub teleported: TeleportedList,
    /// The links that begin at nodes of the neighbour, of which places were left.
    pub freed: FreedList,
}

impl Contents {
    /// Nothing yet.
    fn new(alloc: Global) -> Contents
        ensures { result ≡ nothing }
    {
        Contents {
            vehicles: Rows {
                rows: Vec::new(alloc),
            },
            teleported: Rows {
                rows: Vec::new(alloc),
            },
            freed: Rows {
                rows: Vec::new(alloc),
            },
        }
    }

    /// One thing more.
    fn add(&mut self, item: ParcelItem) -> Result<(), AllocError>
        ensures { OnOk result (self.new ≡ with_item item self.old) }
    {
        match item {
            ParcelItem::Vehicle(moved) => self.vehicles.rows.push(moved)?,
            ParcelItem::Teleported(teleported) => self.teleported.rows.push(teleported)?,
            ParcelItem::Freed(freed) => self.freed.rows.push(freed)?,
        }
        Ok(())
    }
}

/// The parcel of one second. In most seconds nothing goes over a border, and a parcel with nothing in it takes no memory of its own.
/// Contracts see a parcel as what is in it.
#[derive(Drop)]
pub struct Parcel {
    contents: Option<Box<Contents>>,
}

impl Model for Parcel {
    ghost use Rattle.part_seconds.specs.{Parcels.contents_in, declared.contents.Contents.Contents};

    ghost Value = { Contents };

    ghost view = { λ p. contents_in p.contents };
}

impl Parcel {
    /// A parcel with nothing in it. It takes no memory.
    pub fn new() -> Parcel
        ensures { result ≡ nothing }
    {
        Parcel { contents: None }
    }

    /// Whether it is seen at once that nothing is in the parcel.
    pub fn is_nothing(&self) -> bool
        ensures { result ≡ true → self.now ≡ nothing }
    {
        self.contents.is_none()
    }

    /// Takes what is in the parcel out, to be filled and put back.
    fn take(&mut self, alloc: Global) -> Result<Box<Contents>, AllocError>
        ensures { IfOk result (λ contents. contents.value ≡ self.old) }
    {
        match self.contents.take() {
            Some(contents) => Ok(contents),
            None => Ok(Box::new(alloc, Contents::new(alloc))?),
        }
    }

    /// One thing more goes with the parcel.
    pub(crate) fn add(&mut self, alloc: Global, item: ParcelItem) -> Result<(), AllocError>
        ensures { OnOk result (self.new ≡ with_item item self.old) }
    {
        let mut contents = self.take(alloc)?;
        contents.add(item)?;
        self.contents = Some(contents);
        Ok(())
    }

    /// What is in the parcel; `None`: nothing.
    pub fn contents(&self) -> Option<&Contents>
        ensures { MatchOption result (self.now ≡ nothing) (λ contents. contents.now ≡ self.now) }
    {
        match &self.contents {
            Some(contents) => Some(&**contents),
            None => None,
        }
    }

    /// What was in the parcel; `None`: nothing.
    pub fn into_contents(self) -> Option<Contents>
        ensures { MatchOption result (self ≡ nothing) (λ contents. contents ≡ self) }
    {
        match self.contents {
            Some(contents) => Some(Box::into_inner(contents)),
            None => None,
        }
    }
}
