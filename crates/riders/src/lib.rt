//! Those who wait at one stop, and the service of a vehicle there: who alights, who boards, and until when it stands, in place and
//! exactly as `traffic` says it.
#![tactic(auto)]

mod laws;
mod serves;
mod waiting;

pub use laws::stops_keep_apart;
pub use serves::Served;
pub use waiting::Waiting;
