// What the partitions of the tests send to one another.
use cells::Exchange;

/// An exchange whose run and parcels are numbers. The right parcel of run `r` from partition `q` in second `s` is
/// `1,000,000 * r + 10,000 * q + s`, whoever receives it; where `q + s` leaves 2 when it is divided by 3, none is right.
pub struct Numbers;

impl Exchange for Numbers {
    ghost use Rattle.cell_tests.specs.Numbers.{IsNumber};

    type Run = u64;

    type Parcel = u64;

    ghost right = { IsNumber };
}
