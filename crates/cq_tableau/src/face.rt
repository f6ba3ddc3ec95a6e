//! Members that can hold no more where a form is zero everywhere: on the face of an inequality whose greatest value is zero.
#![tactic(auto)]

pub mod facing;
