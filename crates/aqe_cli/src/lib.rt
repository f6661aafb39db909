//! The command of the engine: the words of the command line, the run that they say, and its end.
#![tactic(auto)]

mod run;
mod words;

pub use aqe_texts::{result_text, texts_tell_rows};
pub use run::{refused_words, run_words};
