//! Tests of the crates of numbers, of undo and of forms: what no clause says of them.
#![tactic(auto)]

#[cfg(test)]
mod form;
#[cfg(test)]
mod frac;
#[cfg(test)]
mod trail;
