//! Tests of the check of logs: what no clause says of it.
#![tactic(auto)]

#[cfg(test)]
mod logs;
