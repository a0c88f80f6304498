ghost use Rattle.std.specs.{List.list_any, Prelude.◌≡◌, Prelude.◌<◌, Prelude.◌≤◌, Prelude.◌+◌, Prelude.◌^◌};
ghost use Rattle.std.specs.{Prelude.length};
ghost use Rattle.rows.specs.Greens.{holds, phase_of, is_green, green_at};

use events::Rows;
use std::marker::Model;

/// Spans of seconds of a cycle, each from its first second to the one behind its last.
pub type SpanList = Rows<(u32, u32)>;

/// When a link is green: its signal repeats after `cycle` seconds, of 1 to `MAX_CYCLE`, is shifted by `offset` seconds,
/// fewer than these, and is green in the spans of the cycle.
#[derive(Debug, Drop)]
pub struct Green {
    pub cycle: u32,
    pub offset: u32,
    pub spans: SpanList,
}

impl Model for Green {
    ghost use Rattle.rows.specs.{GreenViews.phases_of, GreenViews.is_lawful, Greens.Phases};

    ghost Value = { Phases };

    ghost view = { phases_of };

    ghost invariant = { is_lawful };
}

/// The signals of links, by the links' numbers.
pub type GreenList = Rows<Green>;

fn holds(second: u32, span: (u32, u32)) -> bool
    ensures { result ≡ holds second span }
{
    span.0 <= second && second < span.1
}

/// Whether the signal is green in a second of the day.
#[tactic(auto, unfolding(crate::specs::Greens::is_green))]
fn is_green(green: &Green, second: u32) -> bool
    requires { second < 2 ^ 31 }
    ensures { result ≡ is_green green.now second }
{
    let place = (second + green.cycle - green.offset) % green.cycle;
    green.spans.rows.iter().any(|&span| holds(place, span))
}

/// Whether the link is green in a second of the day.
pub fn green_in(greens: &GreenList, link: u32, second: u32) -> bool
    requires there { link < length greens.now }
    requires within { second < 2 ^ 31 }
    ensures { result ≡ is_green (green_at greens.now link) second }
{
    is_green(&greens.rows[link as usize], second)
}
