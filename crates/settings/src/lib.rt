//! The settings of a run, out of settings.json.
#![tactic(auto)]

mod costs;
mod keys;
mod looking;
mod modes;
mod named_tables;
mod names;
mod numbered;
mod read;
mod replanning;
mod scores;
mod values;

pub use costs::Scoring;
pub use named_tables::NamedTable;
pub use numbered::by_number;
pub use read::read_settings;
pub use values::{Settings, SettingsFile};
