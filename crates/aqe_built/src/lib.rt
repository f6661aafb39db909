//! Which scripts the program carries out so far. It goes once all forms of a script are carried out.
#![tactic(auto)]

mod form;
mod script;

pub use form::Form;
pub use script::form_not_built;
