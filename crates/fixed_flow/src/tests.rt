ghost use Rattle.std.specs.Prelude.{◌<◌, ◌≤◌};

use crate::*;
use limits::{LAST_SECOND, MAX_CAPACITY, MAX_LANES, MAX_LENGTH, MAX_PERMILLE};

// A link's free seconds, what it gains a second, its storage and its buffer's room; both factors
// are `permille`.
fn numbers(length: u32, speed: u32, capacity: u32, lanes: u32, permille: u32) -> [u32; 4]
    requires speed_in { 0 < speed }
    requires length_in { (1 ≤ length) × (length ≤ MAX_LENGTH) }
    requires capacity_in { capacity ≤ MAX_CAPACITY }
    requires lanes_in { lanes ≤ MAX_LANES }
    requires permille_in { permille ≤ MAX_PERMILLE }
{
    let seconds = free_seconds(length, speed);
    let per_second = credit_per_second(capacity, permille);
    let held = storage(length, lanes, permille, seconds, per_second);
    [seconds, per_second, held, buffer_room(per_second)]
}

// The expected numbers are worked out by hand from the rules.
#[test]
fn numbers_of_links(rt: HostRuntime) {
    let cases = [
        (
            "shorter than a cell",
            numbers(50, 1000, 3600, 1, 1000),
            [1, 3_600_000, 1, 1],
        ),
        (
            "a tenth of the traffic",
            numbers(50_000, 1389, 2000, 2, 100),
            [35, 200_000, 13, 1],
        ),
        (
            "of a grid",
            numbers(30_000, 1389, 1000, 1, 100),
            [21, 100_000, 4, 1],
        ),
        (
            "at every limit",
            numbers(10_000_000, 1, 100_000, 20, 2000),
            [10_000_000, 200_000_000, 555_555_556, 56],
        ),
    ];
    for (name, found, wanted) in &cases {
        assert_eq!(rt; *found, *wanted, "{name}");
    }
}

// At 1,800 vehicles an hour half a vehicle is gained each second, and every second one passes.
#[test]
fn every_other_second(rt: HostRuntime) {
    let half = 1_800_000;
    let mut credit = Credit::start();
    for passes in [true, false, true, false, true] {
        credit.raise_by(half, 1);
        assert_eq!(rt; credit.can_pass(), passes);
        if credit.can_pass() {
            credit.pay();
        }
    }
    credit.raise_by(half, 1);
    assert_eq!(rt; credit.can_pass(), false);
    credit.raise_by(half, LAST_SECOND);
    assert_eq!(rt;
        credit,
        Credit::start(),
        "no more is kept than one vehicle costs"
    );
    assert_eq!(rt; most_passing(half, 5), 3);
}
