//! The tests of all crates that need a proof of their own: what no clause says and no script can show.
//!
//! What a script can show stands under `examples/`.
#![tactic(auto)]

#[cfg(test)]
mod board;
#[cfg(test)]
mod cells;
#[cfg(test)]
mod first_plans;
#[cfg(test)]
mod groups;
#[cfg(test)]
mod outside;
#[cfg(test)]
mod physical;
#[cfg(test)]
mod placing;
#[cfg(test)]
mod plan_texts;
#[cfg(test)]
mod plans;
#[cfg(test)]
mod records;
#[cfg(test)]
mod rows;
#[cfg(test)]
mod runs;
#[cfg(test)]
mod selects;
#[cfg(test)]
mod sizes;
#[cfg(test)]
mod sources;
#[cfg(test)]
mod tables;
#[cfg(test)]
mod task_bodies;
#[cfg(test)]
mod task_cells;
#[cfg(test)]
mod task_stages;
#[cfg(test)]
mod tasks;
#[cfg(test)]
mod values;
