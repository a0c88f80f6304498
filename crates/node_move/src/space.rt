use std::marker::Model;
use std::mem::size_of;
use traffic::OutLink;

const _: () = prove!(size_of::<Entry>() == 24);

/// The places of a link.
#[derive(Clone, Copy)]
pub(crate) struct Entry {
    /// The number of the link.
    pub(crate) link: u32,
    /// How many of its places were left and are not free yet.
    pub(crate) holes: u32,
    /// Its places.
    pub(crate) places: OutLink,
}

/// The places of links: how many are taken, how many there are, and the seconds along the link; and how many of those that are taken are
/// holes: places that were left and are not free yet. Contracts see its rows, and ask these for the places and the holes of a link.
///
/// Of 16 links that follow one another by number the entries stand side by side, from when one of them has an entry on, and it is known
/// where they begin: so of a link one number and its entry are looked at. Where another link's entry stands in its place, or none, the
/// link has no entry.
#[derive(Drop)]
pub struct Space {
    /// Where the entries of each block of 16 links begin.
    pub(crate) starts: Vec<u32>,
    pub(crate) entries: Vec<Entry>,
}

impl Model for Space {
    ghost use Rattle.node_move.specs.{Entries.SpaceRows, SpaceViews.space_view, SpaceViews.is_in_blocks};

    ghost Value = { SpaceRows };

    ghost view = { space_view };

    ghost invariant = { is_in_blocks };
}
