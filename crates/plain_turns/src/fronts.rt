//! The moves of the first row of a list of a link.

ghost use Rattle.std.specs.Prelude.{◌≡◌, ◌++◌, ◌∷◌, [], OnOk};
ghost use Rattle.traffic.specs.declared.moves.Move.TheVariants.{Transfer, Remove};

use std::alloc::AllocError;
use traffic::{Move, Row, Stage};

/// The first row of a list of link `l` goes to another list.
pub(crate) fn push_transfer(
    l: u32,
    stage: Stage,
    was: Row,
    now: Row,
    out: &mut Vec<Move>,
) -> Result<(), AllocError>
    ensures { OnOk result (out.new.items ≡ out.old.items ++ Transfer l stage 0 was now ∷ []) }
{
    out.push(Move::Transfer {
        link: l,
        stage,
        place: 0,
        was,
        now,
    })?;
    Ok(())
}

/// The first row of a list of link `l` leaves it for good.
pub(crate) fn push_removal(
    l: u32,
    stage: Stage,
    was: Row,
    out: &mut Vec<Move>,
) -> Result<(), AllocError>
    ensures { OnOk result (out.new.items ≡ out.old.items ++ Remove l stage 0 was ∷ []) }
{
    out.push(Move::Remove {
        link: l,
        stage,
        place: 0,
        was,
    })?;
    Ok(())
}
