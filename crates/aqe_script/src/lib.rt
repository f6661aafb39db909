//! Scripts: what the tokens of a source stand for, the statements they are, and how deep these are.
#![tactic(auto)]

mod depth;
mod key;
mod laws;
mod nesting;
mod part;
pub mod parts;
mod query_nesting;
mod setting;
mod terminal;
mod token_text;

pub use depth::is_too_open;
pub use key::key_of;
pub use laws::one_script;
pub use part::cut;
pub use query_nesting::is_too_nested;
pub use setting::{SetFault, read_setting};
pub use terminal::terminals_of;
