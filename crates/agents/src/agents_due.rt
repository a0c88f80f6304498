use calendar::Calendar;
use std::marker::Model;

/// Whose activity and whose teleported leg end in which second.
#[derive(Drop)]
pub struct Agents {
    pub(crate) ends: Calendar,
    pub(crate) flights: Calendar,
}

impl Model for Agents {
    ghost use Rattle.agents.specs.{AgentsViews.agents_view, Due.AgentsView};

    ghost Value = { AgentsView };

    ghost view = { agents_view };
}
