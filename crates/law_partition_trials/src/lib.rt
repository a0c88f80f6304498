//! Small days in parts, computed from the definitions alone.
#![tactic(auto)]

ghost use Rattle.std.specs.Prelude.{◌≡◌, [], ◌∷◌, length, map, true};
ghost use Rattle.traffic.specs.{Day.day, Worked.bus, Worked.narrow};
ghost use Rattle.parts.specs.{Owners.lag, Parts.out, Parts.ready};
ghost use Rattle.law_partitions.specs.Alone.{parcel_to};
ghost use Rattle.law_partition_trials.specs.Trials.{whereabouts, once, told_in_parts, each_node, mixed, of_car, of_walker, of_place};
ghost use Rattle.law_partition_trials.specs.Trials.{of_nothing, places_apart, rows_in, holes_in};
ghost use Rattle.partition.specs.{Cuts.nodes_before, Cuts.cuts, declared.axes.Axis.TheVariants.X, declared.axes.Axis.TheVariants.Y};

/// Three small days whose nodes are partitions of their own: one who drives over three links and one who
/// walks over two borders; two passengers and a bus of one seat; and three cars, of which two are pushed
/// into a short link. In each of these seconds each person is in one part or in one parcel that is not
/// absorbed, and the partitions tell as many events as the day.
pub fn worked_days_in_parts()
    ensures lags { lag mixed each_node 0 1 ∷ lag mixed each_node 1 2 ∷ lag mixed each_node 0 2
        ∷ lag mixed each_node 2 0 ∷ lag mixed each_node 1 3 ∷ lag mixed each_node 3 1
        ∷ lag mixed each_node 1 0 ∷ lag mixed each_node 2 1 ∷ []
        ≡ 3 ∷ 2 ∷ 32 ∷ 32 ∷ 2 ∷ 9 ∷ 1 ∷ 1 ∷ [] }
    ensures mixed_places { whereabouts mixed each_node 4 2 (0 ∷ 1 ∷ 2 ∷ 3 ∷ 4 ∷ 5 ∷ 6 ∷ 7 ∷ 8 ∷ [])
        ≡ once 2 (0 ∷ 1 ∷ 2 ∷ 3 ∷ 4 ∷ 5 ∷ 6 ∷ 7 ∷ 8 ∷ []) }
    ensures bus_places { whereabouts bus each_node 4 2 (1 ∷ 2 ∷ 3 ∷ 6 ∷ 7 ∷ 8 ∷ 11 ∷ [])
        ≡ once 2 (1 ∷ 2 ∷ 3 ∷ 6 ∷ 7 ∷ 8 ∷ 11 ∷ []) }
    ensures narrow_places { whereabouts (narrow true) each_node 4 3 (0 ∷ 1 ∷ 2 ∷ 3 ∷ 4 ∷ 5 ∷ 6 ∷ [])
        ≡ once 3 (0 ∷ 1 ∷ 2 ∷ 3 ∷ 4 ∷ 5 ∷ 6 ∷ []) }
    ensures events { map (λ S. told_in_parts S each_node 4) (mixed ∷ bus ∷ narrow true ∷ [])
        ≡ map (λ S. length (day S)) (mixed ∷ bus ∷ narrow true ∷ []) }
{}

/// Parcels of the first of these days: the car enters the second link in second 1, with its driver on his
/// first leg, and drives there until second 3; the walk that begins in second 0 is over in second 2; in
/// second 3 the car leaves its place in the queue of the second link, and in second 2 nothing is sent back.
/// A partition by itself makes the same ones.
pub fn worked_parcels()
    ensures sent { out mixed each_node 1 2 1 ∷ out mixed each_node 1 3 0 ∷ out mixed each_node 2 1 3
        ∷ out mixed each_node 2 1 2 ∷ [] ≡ of_car ∷ of_walker ∷ of_place ∷ of_nothing ∷ [] }
    ensures alone { parcel_to mixed each_node 1 1 (ready mixed each_node 1 1) 2
        ∷ parcel_to mixed each_node 2 3 (ready mixed each_node 2 3) 1 ∷ []
        ≡ of_car ∷ of_place ∷ [] }
{}

/// The first of these days again, where its partitions stand at different seconds: partition by partition at 1, 2, 4 and 4, and at 4, 3, 2
/// and 4. Each of the two persons is in one part or in one parcel that is not absorbed.
pub fn worked_moments()
    ensures early { places_apart mixed each_node 4 (1 ∷ 2 ∷ 4 ∷ 4 ∷ []) 0
        ∷ places_apart mixed each_node 4 (1 ∷ 2 ∷ 4 ∷ 4 ∷ []) 1 ∷ []
        ≡ 1 ∷ 1 ∷ [] }
    ensures late { places_apart mixed each_node 4 (4 ∷ 3 ∷ 2 ∷ 4 ∷ []) 0
        ∷ places_apart mixed each_node 4 (4 ∷ 3 ∷ 2 ∷ 4 ∷ []) 1 ∷ []
        ≡ 1 ∷ 1 ∷ [] }
{}

/// Five partitions are parted by four cuts: two of them from three by x, each of the two and one of the three by y, and the last two by x.
/// Of seven nodes they get 1, 1, 2, 1 and 2.
pub fn worked_cuts()
    ensures five { cuts 5 ≡ record { axis = X; first = 0; middle = 2; end = 5 } ∷ record { axis = Y; first = 0; middle = 1; end = 2 }
        ∷ record { axis = Y; first = 2; middle = 3; end = 5 } ∷ record { axis = X; first = 3; middle = 4; end = 5 } ∷ [] }
    ensures seven { map (nodes_before 7 5) (0 ∷ 1 ∷ 2 ∷ 3 ∷ 4 ∷ 5 ∷ []) ≡ 0 ∷ 1 ∷ 2 ∷ 4 ∷ 5 ∷ 7 ∷ [] }
{}

/// The own worlds of a partition in the first of these days: before second 1 it has the car on its link, and before second 2 no row;
/// but then a place of the next link, which ends in another partition, is taken, as if it had been left in this second. Before second 4
/// it knows that the place was left in second 3.
pub fn worked_own_worlds()
    ensures rows { rows_in 1 0 ∷ rows_in 1 1 ∷ rows_in 1 2 ∷ [] ≡ 0 ∷ 1 ∷ 0 ∷ [] }
    ensures holes { holes_in 1 1 ∷ holes_in 1 2 ∷ holes_in 1 4 ∷ [] ≡ [] ∷ (2 ∷ []) ∷ (3 ∷ []) ∷ [] }
{}
