//! How a day is cut into spans.

ghost use Rattle.std.specs.Prelude.{◌≡◌, ◌+◌, ◌<◌, ◌≤◌};

/// The seconds of a span, but for the last one of a day, which ends with it: span after span is computed, and then taken.
pub const SPAN_SECONDS: u32 = 64;

/// The second up to which partitions run next: to the end of a span, or of the day, where that comes before it.
pub(crate) fn span_end(second: u32, end: u32) -> u32
    requires { second < end }
    ensures later { second < result }
    ensures within { (result ≤ end) × (result ≤ second + SPAN_SECONDS) }
    ensures whole { result < end → result ≡ second + SPAN_SECONDS }
{
    if end - second <= SPAN_SECONDS {
        return end;
    }
    second + SPAN_SECONDS
}
