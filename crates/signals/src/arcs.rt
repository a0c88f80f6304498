//! Spans of two signals that repeat after different cycles. A second of the one span and a second of the other are one second of some day
//! exactly where they leave the same over of the greatest common divisor of the cycles. So the spans are compared as arcs of a circle of so
//! many seconds.

ghost use Rattle.std.specs.{Int.IsGcd, Prelude.◌≡◌, Prelude.◌<◌, Prelude.◌≤◌};
ghost use Rattle.limits.specs.declared.TheConstants.{MAX_CYCLE};
ghost use Rattle.signals.specs.Arcs.{IsBetween, arc_of, seconds_to, meet, meets_some, some_meet};

use rows::Green;

/// Seconds in a row on a circle: where they begin, and how many they are.
#[derive(Clone, Copy)]
pub struct Arc {
    pub start: u32,
    pub seconds: u32,
}

/// The greatest common divisor of two cycles.
pub fn common_divisor(first: u32, second: u32) -> u32
    requires first { 0 < first }
    requires second { 0 < second }
    ensures divisor { IsGcd first second result }
    ensures between { IsBetween first second result }
    ensures some { 0 < result }
    ensures most { result ≤ first }
{
    let mut larger = first;
    let mut smaller = second;
    while smaller != 0 {
        let rest = larger % smaller;
        larger = smaller;
        smaller = rest;
    }
    larger
}

/// A span of a signal on a circle of so many seconds.
#[tactic(auto, unfolding(crate::specs::Arcs::arc_of))]
fn arc_of(circle: u32, green: &Green, span: (u32, u32)) -> Arc
    requires some { 0 < circle }
    requires most { circle ≤ MAX_CYCLE }
    ensures arc { result ≡ arc_of circle green.now span }
    ensures within { result.start < circle }
{
    Arc {
        start: (span.0 % circle + green.offset) % circle,
        seconds: span.1.min(green.cycle).saturating_sub(span.0),
    }
}

/// From one second of the circle on to the other.
fn seconds_to(circle: u32, here: u32, there: u32) -> u32
    requires here { here < circle }
    requires there { there < circle }
    ensures { result ≡ seconds_to circle here there }
{
    if here <= there {
        return there - here;
    }
    circle - here + there
}

/// Whether two arcs have a second of the circle in common.
#[tactic(auto, unfolding(crate::specs::Arcs::meet))]
fn meet(circle: u32, first: Arc, second: Arc) -> bool
    requires first { first.start < circle }
    requires second { second.start < circle }
    ensures { result ≡ meet circle first second }
{
    first.seconds > 0
        && second.seconds > 0
        && (seconds_to(circle, first.start, second.start) < first.seconds
            || seconds_to(circle, second.start, first.start) < second.seconds)
}

/// Whether an arc meets that of some span of a signal.
fn meets_some(circle: u32, arc: Arc, green: &Green) -> bool
    requires start { arc.start < circle }
    requires most { circle ≤ MAX_CYCLE }
    ensures { result ≡ meets_some circle arc green.now }
{
    for span in &green.spans.rows {
        if meet(circle, arc, arc_of(circle, green, *span)) {
            return true;
        }
    }
    false
}

/// Whether some span of the one signal meets some span of the other.
pub fn some_meet(circle: u32, first: &Green, second: &Green) -> bool
    requires some { 0 < circle }
    requires most { circle ≤ MAX_CYCLE }
    ensures { result ≡ some_meet circle first.now second.now }
{
    for span in &first.spans.rows {
        if meets_some(circle, arc_of(circle, first, *span), second) {
            return true;
        }
    }
    false
}
