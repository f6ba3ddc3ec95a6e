//! Linear constraints as quantities of a dictionary: named, raised above zero or held to it, looked at, and read off as certificates.
#![tactic(auto)]

pub mod dropping;
pub mod face;
pub mod fixing;
pub mod level;
pub mod looking;
pub mod names;
pub mod negating;
pub mod placing;
pub mod raising;
pub mod refuting;
pub mod restoring;
pub mod values;
pub mod weighing;
