ghost use Rattle.std.specs.Prelude.{◌≡◌, true, false, IfOk, IfErr, IfSome, OnOk, codes, is_some, map, option_map, Some};
ghost use Rattle.std.specs.List.{list_all};
ghost use Rattle.events.specs.Words.{mode_text};
ghost use Rattle.scoring.specs.Limits.{is_mode};
ghost use Rattle.serde_json.specs.{Find.get_member, View.view, View.members_view};
ghost use Rattle.settings.specs.{Keys.is_bad, Looking.or_default, Modes.mode_in, Modes.modes_in, Modes.modes_of, Modes.usual_mode};
ghost use Rattle.settings.specs.Scoring.{modes_given};

use crate::looking::{member, signed_or};
use edge_files::Reason;
use events::Mode;
use scoring::{MAX_PER_SECOND, MAX_WORTH, ModeScore};
use serde_json::{Map, Value};

/// What a second of a leg is worth without a key, in micro-utils.
const USUAL_PER_SECOND: i64 = -1_666;

fn usual_mode() -> ModeScore
    ensures mode { result ≡ usual_mode }
    ensures within { is_mode result ≡ true }
{
    ModeScore {
        constant: 0,
        per_second: USUAL_PER_SECOND,
    }
}

/// What the object of a mode says, or `None` exactly where it is none or says something that it may
/// not.
#[tactic(auto, unfolding(crate::specs::Modes::mode_in))]
fn mode_in(value: &Value) -> Option<ModeScore>
    ensures mode { result ≡ mode_in (view value.now) }
    ensures within { IfSome result (λ mode. is_mode mode ≡ true) }
{
    let Some(mode) = value.as_object() else {
        return None;
    };
    let Some(constant) = signed_or(mode, "constant", -MAX_WORTH, MAX_WORTH, 0) else {
        return None;
    };
    let Some(per_second) = signed_or(
        mode,
        "per_second",
        -MAX_PER_SECOND,
        MAX_PER_SECOND,
        USUAL_PER_SECOND,
    ) else {
        return None;
    };
    Some(ModeScore {
        constant,
        per_second,
    })
}

/// The same of a mode among all, which need not be given.
fn mode_or(modes: &Map<String, Value>, mode: Mode) -> Option<ModeScore>
    ensures mode { result
        ≡ or_default mode_in usual_mode (get_member (mode_text mode) (members_view modes.now.entries)) }
    ensures within { IfSome result (λ mode. is_mode mode ≡ true) }
{
    match member(modes, mode.name()) {
        Some(value) => mode_in(value),
        None => Some(usual_mode()),
    }
}

/// What the object of all modes says.
#[tactic(auto, unfolding(crate::specs::Modes::modes_in))]
fn modes_in(modes: &Map<String, Value>) -> Option<[ModeScore; 5]>
    ensures modes { result ≡ modes_in (members_view modes.now.entries) }
    ensures within { IfSome result (λ modes. list_all is_mode modes ≡ true) }
{
    let Some(car) = mode_or(modes, Mode::Car) else {
        return None;
    };
    let Some(walk) = mode_or(modes, Mode::Walk) else {
        return None;
    };
    let Some(bike) = mode_or(modes, Mode::Bike) else {
        return None;
    };
    let Some(ride) = mode_or(modes, Mode::Ride) else {
        return None;
    };
    let Some(pt) = mode_or(modes, Mode::Pt) else {
        return None;
    };
    Some([car, walk, bike, ride, pt])
}

/// What the settings say of the modes, or that it may not be said.
#[tactic(auto, unfolding(crate::specs::Modes::modes_in))]
pub fn modes_given(settings: &Map<String, Value>) -> Result<[ModeScore; 5], Reason>
    ensures bad { IfErr result (λ reason. (reason ≡ Reason.ValueBad)
        × (is_bad (λ value. is_some (modes_of value)) (get_member (codes "modes") (members_view settings.now.entries)) ≡ true)) }
    ensures good { OnOk result
        (is_bad (λ value. is_some (modes_of value)) (get_member (codes "modes") (members_view settings.now.entries)) ≡ false) }
    ensures modes { IfOk result (λ modes. modes ≡ modes_given (members_view settings.now.entries)) }
    ensures within { IfOk result (λ modes. list_all is_mode modes ≡ true) }
{
    let Some(value) = member(settings, "modes") else {
        return Ok([usual_mode(); 5]);
    };
    let Some(modes) = value.as_object() else {
        return Err(Reason::ValueBad);
    };
    match modes_in(modes) {
        Some(scores) => Ok(scores),
        None => Err(Reason::ValueBad),
    }
}
