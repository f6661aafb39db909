//! The settings of a run: their keys, ranges and defaults, and what they say of an exchange.
#![tactic(auto)]

mod entry;
mod key;
mod laws;
mod settings;
mod table;

pub use entry::{Entry, Kind, Value};
pub use key::SettingKey;
pub use laws::partitions_in_range;
pub use settings::Settings;
pub use table::entries;
