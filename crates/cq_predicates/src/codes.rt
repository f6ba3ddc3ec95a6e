//! The built-in predicates that turn atoms and numbers into characters and codes, and back: `atom_chars`, `atom_codes`,
//! `char_code` and `number_codes`.
#![tactic(auto)]

mod character_codes;
mod characters;
mod conversions;
mod elements;
mod joined;
mod lists;
mod number_lists;
mod numerals;

pub use conversions::{Conversion, convert};
