//! The text of words and expressions: what reads back as the same terminals and the same tree.
#![tactic(auto)]

pub mod expression;
pub mod leaf;
mod operator;
pub mod word;
