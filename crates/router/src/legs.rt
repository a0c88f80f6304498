//! Copies of legs.

ghost use Rattle.std.specs.Prelude.{◌≡◌, IfOk};

use rows::Leg;
use std::alloc::{AllocError, Global};

/// A copy of a leg.
pub fn copied_leg(leg: &Leg) -> Result<Leg, AllocError>
    ensures { IfOk result (λ copy. copy ≡ leg.now) }
{
    match leg {
        Leg::Car { route } => {
            let route = route.try_clone()?;
            Ok(Leg::Car { route })
        }
        Leg::Teleport { mode, seconds } => Ok(Leg::Teleport {
            mode: *mode,
            seconds: *seconds,
        }),
        Leg::Transit {
            line,
            access,
            egress,
        } => Ok(Leg::Transit {
            line: *line,
            access: *access,
            egress: *egress,
        }),
    }
}

/// Copies of legs.
pub fn copied_legs(alloc: Global, legs: &[Leg]) -> Result<Vec<Leg>, AllocError>
    ensures { IfOk result (λ copies. copies.items ≡ legs.now) }
{
    let mut copies = Vec::new(alloc);
    for leg in legs {
        copies.push(copied_leg(leg)?)?;
    }
    Ok(copies)
}
