//! The built-in predicates on the characters of atoms: `atom_length`, `atom_concat` and `sub_atom`. Each gives its alternatives
//! one at a time, so that the work of a part or split is done only when it is asked for.
#![tactic(auto)]

mod arguments;
mod characters;
mod concatenation;
mod lengths;
mod parts;
mod sought;
mod splits;
mod subtexts;
mod ways;

pub use concatenation::atom_concat;
pub use lengths::atom_length;
pub use subtexts::sub_atom;
pub use ways::{PartArgs, SplitArgs, TextAlternatives};
