//! The tokens of a script: words, quoted names, strings, numbers and symbols.
#![tactic(auto)]

mod comment;
mod content;
mod fault;
mod front;
mod laws;
mod lexer;
mod number;
mod piece;
mod quoted;
mod reading;
mod run;
mod skip;
mod symbol;
mod token;

pub use content::{undoubled, unescaped};
pub use fault::{Fault, LexFault};
pub use front::Front;
pub use laws::{one_first_fault, one_token_list, tokens_stand};
pub use lexer::tokens;
pub use number::{is_long, number_value};
pub use piece::Piece;
pub use reading::Reading;
pub use token::{Token, TokenKind, Tokens};
