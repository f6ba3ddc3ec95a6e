//! Tests of runs over files, an input and sinks in memory: what no clause says of them, and no row through the built program shows.
#![tactic(auto)]

#[cfg(test)]
mod failing;
#[cfg(test)]
mod given;
#[cfg(test)]
mod pieces;
