//! What holds of travel times. Each law is the contract of a call that does nothing.

ghost use Rattle.std.specs.Prelude.{◌≡◌, List, [], ◌∷◌};
ghost use Rattle.rows.specs.declared.network.LinkRow.{LinkRow};
ghost use Rattle.walks.specs.{Alike.TakesAlike, Arrivals.IsFifo};
ghost use Rattle.travel_times.specs.{Observed.observed, Observed.observed_time, Times.LinkProfile, Times.arrival_by, Times.arrivals};
ghost use Rattle.travel_times.specs.{Times.free_times, Worked.slow_first, Worked.some_seen, Worked.ten_seconds};

/// Whatever is known of links, an arrival is later than the entry, and who enters later arrives no earlier.
pub fn links_are_first_in_first_out()
    ensures { (times : List LinkProfile) → IsFifo (arrivals times) }
{}

/// Links at their free speed take as long whenever they are entered.
pub fn free_links_take_alike()
    ensures { (links : List LinkRow) → TakesAlike (arrivals (free_times links)) }
{}

/// What the definitions give of a link that takes 1,000 seconds in the first quarter of an hour and 20 later, computed from them
/// alone: who enters it behind the slow ones arrives no earlier than the last of them does.
pub fn worked_arrivals()
    ensures last_slow { arrival_by slow_first 899 ≡ 1899 }
    ensures first_held { arrival_by slow_first 900 ≡ 1899 }
    ensures held { arrival_by slow_first 1000 ≡ 1899 }
    ensures last_held { arrival_by slow_first 1879 ≡ 1899 }
    ensures free { arrival_by slow_first 1880 ≡ 1900 }
{}

/// What the definitions give of the events of some vehicles on a link that takes ten seconds at its free speed, computed from them
/// alone: two cars are observed, a transit vehicle and a car that ends on the link are not, nor does a car that leaves without
/// having entered count.
pub fn worked_observations()
    ensures two_cars { observed 0 0 some_seen ≡ 1000 ∷ 21 ∷ [] }
    ensures average { observed_time ten_seconds some_seen 0 0 ≡ 510 }
    ensures no_car { observed_time ten_seconds some_seen 0 1 ≡ 10 }
{}
