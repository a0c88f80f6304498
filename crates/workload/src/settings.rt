//! settings.json.

ghost use Rattle.std.specs.Prelude.{◌≡◌, IfOk, string_bytes};
ghost use Rattle.workload.specs.Texts.{settings_text};

use std::alloc::{AllocError, Global};

#[tactic(auto, unfolding(crate::specs::Texts::settings_text))]
pub fn settings_text(alloc: Global, seed: u64, last_iteration: u32) -> Result<String, AllocError>
    ensures { IfOk result (λ text. string_bytes text ≡ settings_text seed last_iteration) }
{
    let mut text = String::from_str(alloc, "{\"flow_permille\":100,\"last_iteration\":")?;
    write!(text, "{last_iteration}")?;
    text.push_str(",\"seed\":")?;
    write!(text, "{seed}")?;
    text.push_str(
        ",\"storage_permille\":100,\"tables\":[{\"kind\":\"home\",\"points\":[[0,-20000000],[43200,60000000],[86400,80000000]]},",
    )?;
    text.push_str(
        "{\"kind\":\"work\",\"latest\":32400,\"points\":[[0,-20000000],[28800,60000000]]}],",
    )?;
    text.push_str(
        "\"weight_keep\":0,\"weight_logit\":70,\"weight_reroute\":20,\"weight_time\":10}",
    )?;
    Ok(text)
}
