//! What a vehicle does, as far as the reference and the fast turns share it: where it is on its route, whether it may enter its next link,
//! for how long the place that it leaves stays taken, who alights and who may board at its stops and how long it stands there, and what its
//! moves tell, without keys. All exactly as the definitions of `traffic` say it.
#![tactic(auto)]

mod fronts;
mod holes;
mod routes;
mod stops;
mod telling;

pub use fronts::{has_free_place, is_stuck, may_enter};
pub use holes::hole_seconds;
pub use routes::{is_last, next_link};
pub use stops::{alights, call_at, calls_on, may_board, next_call, not_before, stand, staying};
pub use telling::{
    alighting, of_driver, of_person, of_rider, of_vehicle, push_aborts, push_all_enter,
    push_all_leave, push_all_strand, push_arrives, push_changes_links, push_goes_on, push_starts,
    push_told,
};
