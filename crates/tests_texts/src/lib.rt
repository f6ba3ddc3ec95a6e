//! Tests of the crate that reads texts: what no clause says of it, and no row through the built program shows.
#![tactic(auto)]

#[cfg(test)]
mod lex;
#[cfg(test)]
mod read;
