//! Which links are always green.

ghost use Rattle.std.specs.Prelude.{◌≡◌, ◌<◌, false, get_or, length, map, IfOk};
ghost use Rattle.part_nodes.specs.{Steady.AreSteady, Turns.always_in, Turns.covers, Turns.is_always};

use crate::node_turns::NodePhase;
use rows::{Green, GreenList};
use std::alloc::{AllocError, Global};
use std::marker::Model;

/// Of each link by number whether its light is always green: it has no signal, or one span of its signal is the whole of the cycle. In each
/// turn of a node this is asked of those links into it in whose buffers somebody is, and stands side by side for that; what a signal shows
/// in a second is then asked of those alone that are not always green. Contracts see the list.
#[derive(Drop)]
pub struct SteadyLights {
    rows: Vec<bool>,
}

impl Model for SteadyLights {
    ghost use Rattle.std.specs.Prelude.{Bool, List};

    ghost Value = { List Bool };

    ghost view = { λ s. s.rows.items };
}

/// Whether a span is the whole of a cycle.
fn covers(cycle: u32, span: (u32, u32)) -> bool
    ensures { result ≡ covers cycle span }
{
    span.0 == 0 && 0 < cycle && cycle <= span.1
}

/// Whether one span of a signal is the whole of its cycle.
#[tactic(auto, unfolding(crate::specs::Turns::is_always))]
fn is_always(green: &Green) -> bool
    ensures { result ≡ is_always green.now }
{
    let cycle = green.cycle;
    green.spans.rows.iter().any(|&span| covers(cycle, span))
}

impl SteadyLights {
    /// Those of links with these signals.
    ///
    /// # Errors
    ///
    /// `AllocError`: there is no memory for them.
    pub fn new(alloc: Global, greens: &GreenList) -> Result<SteadyLights, AllocError>
        ensures { IfOk result (λ steady. AreSteady greens.now steady) }
    {
        let mut rows = Vec::new(alloc);
        let mut rest: &[Green] = &greens.rows;
        while let [green, later @ ..] = rest {
            rows.push(is_always(green))?;
            rest = later;
        }
        Ok(SteadyLights { rows })
    }

    /// Whether a link is always green; a link that is not there is not.
    pub(crate) fn is_steady(&self, link: u32) -> bool
        ensures { result ≡ get_or self.now link false }
    {
        let place = link as usize;
        place < self.rows.len() && self.rows[place]
    }
}

/// Whether a link of the town is always green.
#[tactic(auto, using(crate::proofs::Lit::steady_at))]
pub(crate) fn is_always_green(phase: &NodePhase, link: u32) -> bool
    requires { link < length phase.now.day.now.town.now.network.links }
    ensures { result ≡ always_in phase.now.day.now.town.now.greens link }
{
    phase.steady.is_steady(link)
}
