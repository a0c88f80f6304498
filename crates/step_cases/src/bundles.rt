//! A bundle of one.

ghost use Rattle.std.specs.Prelude.{◌≡◌, ℕ, ◌<◌, [], ◌∷◌, IfOk};
ghost use Rattle.step_core.specs.Nets.{IsNet, AreBorders};

use edge_files::OpenGate;
use std::alloc::{AllocError, Global};
use step_core::Part;
use workers::{Bundle, Member, new_board, run_bundle};

/// A bundle of this member.
fn bundle_of<T: Part>(alloc: Global, member: Member<T>) -> Result<Bundle<T>, AllocError>
where
    T::Parcel: Send,
    ensures { IfOk result (λ bundle. bundle.members.items ≡ member ∷ []) }
{
    let mut members = Vec::new(alloc);
    members.push(member)?;
    Ok(Bundle { members })
}

/// How many seconds a partition comes to in a bundle of its own, while its neighbours stand still at their start; none where memory is
/// wanting.
pub fn alone<T: Part>(alloc: Global, run: &T::Run, number: u32) -> Option<u32>
where
    T::Parcel: Send,
    requires net { IsNet (T.net run.now) }
    requires borders { (p : ℕ) → p < (T.net run.now).parts → AreBorders (T.net run.now) p (T.borders run.now p) }
    requires there { number < (T.net run.now).parts }
{
    let Ok((board, mut hub)) = new_board::<T>(alloc, run) else {
        return None;
    };
    let Ok(member) = Member::<T>::start(alloc, run, &board, &mut hub, number) else {
        return None;
    };
    let Ok(bundle) = bundle_of(alloc, member) else {
        return None;
    };
    let ran = run_bundle(&OpenGate, run, &board, bundle);
    match ran.members.first() {
        Some(member) => Some(member.done()),
        None => None,
    }
}
