ghost use Rattle.std.specs.{List.list_all, Prelude.◌≡◌, Prelude.◌<◌, Prelude.◌≤◌, Prelude.length, Prelude.true};
ghost use Rattle.scoring.specs.Points.{is_point, are_rising, on_line, value, along};
ghost use Rattle.scoring.specs.{Ranges.IsWithin, declared.TheConstants.MAX_WORTH};

/// What is reached at a second by the points of a table, in micro-utils: along straight lines from
/// point to point, rounded down, and beyond the first and the last point what is reached there.
pub fn value(points: &[(u32, i64)], seconds: u32) -> i64
    requires some { 1 ≤ length points.now }
    requires within { list_all is_point points.now ≡ true }
    requires rising { are_rising points.now ≡ true }
    ensures value { result ≡ value points.now seconds }
    ensures within { IsWithin MAX_WORTH result }
{
    let first = points[0];
    if seconds < first.0 {
        return first.1;
    }
    along(first, &points[1..], seconds)
}

// The value at a second that is not before a point, by the points behind it.
fn along(first: (u32, i64), later: &[(u32, i64)], seconds: u32) -> i64
    requires first_in { is_point first ≡ true }
    requires later_in { list_all is_point later.now ≡ true }
    requires reached { first.0 ≤ seconds }
    ensures { result ≡ along first later.now seconds }
{
    let mut before = first;
    for next in later {
        if seconds < next.0 {
            return on_line(before, *next, seconds);
        }
        before = *next;
    }
    before.1
}

// The height of the straight line from one point to another, rounded down.
fn on_line(from: (u32, i64), to: (u32, i64), seconds: u32) -> i64
    requires from_in { is_point from ≡ true }
    requires to_in { is_point to ≡ true }
    requires reached { from.0 ≤ seconds }
    requires not_passed { seconds < to.0 }
    ensures { result ≡ on_line from to seconds }
{
    let rise = (to.1 - from.1) * i64::from(seconds - from.0);
    from.1 + rise.div_euclid(i64::from(to.0 - from.0))
}
