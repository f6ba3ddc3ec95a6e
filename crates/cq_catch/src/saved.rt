//! Branches that a choice saved: that of a catch, with a ball, and that of a findall, with its list.
#![tactic(auto)]

mod listing;
mod taking;

pub use listing::try_gathered;
pub use taking::{Taken, try_caught};
