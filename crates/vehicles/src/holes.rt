//! For how long a place that a vehicle left stays taken.

ghost use Rattle.std.specs.Prelude.{◌≡◌, true};
ghost use Rattle.rows.specs.Settings.{is_hole_speed};
ghost use Rattle.traffic.specs.Setup.{hole_seconds};

/// The seconds for which a place that was left on a link of this length (cm) stays taken, by the speed of holes (cm/s): one second where
/// there is none. It is also what a hole takes from the end of a link to its begin.
#[tactic(auto, unfolding(traffic::specs::Setup::hole_seconds))]
pub fn hole_seconds(length: u32, speed: Option<u32>) -> u32
    requires { is_hole_speed speed ≡ true }
    ensures { result ≡ hole_seconds length speed }
{
    match speed {
        None => 1,
        Some(speed) => (length / speed).max(1),
    }
}
