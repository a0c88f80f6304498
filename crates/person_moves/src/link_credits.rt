//! The credits of the links of a world.

ghost use Rattle.std.specs.Prelude.{◌≡◌, get_or, set, replicate, OnOk};
ghost use Rattle.fixed_flow.specs.declared.TheConstants.{VEHICLE_COST};
ghost use Rattle.person_moves.specs.Credits.{credits_in};

use fixed_flow::VEHICLE_COST;
use std::alloc::{AllocError, Global};
use std::marker::Model;

/// The credit of each of so many links, in units of which a vehicle costs `VEHICLE_COST`. Contracts see it as the list of these, by number.
///
/// At first each link has credit for one vehicle. That is not written out before a credit changes. In the world of a part's persons none
/// does, as no link has a turn there.
#[derive(Drop)]
pub struct LinkCredits {
    /// How many links.
    links: usize,
    /// All of them, or nothing while none has changed.
    each: Vec<u32>,
}

impl Model for LinkCredits {
    ghost use Rattle.std.specs.Prelude.{ℕ, List};
    ghost use Rattle.person_moves.specs.CreditsViews.{credits_view};

    ghost Value = { List ℕ };

    ghost view = { credits_view };
}

/// All credits are written out.
fn write_out(links: usize, each: &mut Vec<u32>) -> Result<(), AllocError>
    ensures { OnOk result (each.new.items ≡ credits_in links each.old.items) }
{
    if each.is_empty() {
        each.resize(links, VEHICLE_COST)?;
    }
    Ok(())
}

/// A link has this credit, where there is such a link.
#[tactic(auto, using(std::proofs::lemmas::List::set_past))]
fn put(each: &mut Vec<u32>, link: usize, credit: u32)
    ensures { each.new.items ≡ set each.old.items link credit }
{
    if link < each.len() {
        each[link] = credit;
    }
}

impl LinkCredits {
    /// Each of so many links has credit for one vehicle.
    pub fn new(alloc: Global, links: usize) -> LinkCredits
        ensures { result ≡ replicate links VEHICLE_COST }
    {
        LinkCredits {
            links,
            each: Vec::new(alloc),
        }
    }

    /// The credit of a link, 0 where there is no such link.
    pub fn credit(&self, link: u32) -> u32
        ensures { result ≡ get_or self.now link 0 }
    {
        let place = link as usize;
        if place < self.each.len() {
            return self.each[place];
        }
        if self.each.is_empty() && place < self.links {
            return VEHICLE_COST;
        }
        0
    }

    /// A link has this credit from now on, where there is such a link.
    ///
    /// # Errors
    ///
    /// `AllocError`: there is no memory for the credits, which are then of no use.
    pub fn put(&mut self, link: u32, credit: u32) -> Result<(), AllocError>
        ensures { OnOk result (self.new ≡ set self.old link credit) }
    {
        write_out(self.links, &mut self.each)?;
        put(&mut self.each, link as usize, credit);
        Ok(())
    }
}
