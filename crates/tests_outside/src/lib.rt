//! Tests of the outside: what no clause says of it, and no row through the built program shows.
#![tactic(auto)]

#[cfg(test)]
mod memory;
#[cfg(test)]
mod real;
