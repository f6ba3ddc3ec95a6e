//! Tests of numbers, of forms, of greatest values and of rows brought to zero: what no clause says of them, and no row through the
//! built program shows.
#![tactic(auto)]

#[cfg(test)]
mod level;
#[cfg(test)]
mod linear;
#[cfg(test)]
mod problems;
#[cfg(test)]
mod simplex;
pub mod store;
