//! Tests of walks and of variants: what no clause says of them, and no row through the built program shows.
#![tactic(auto)]

#[cfg(test)]
mod names;
#[cfg(test)]
mod order;
#[cfg(test)]
mod walk;
