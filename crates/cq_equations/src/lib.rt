//! A store of linear equations over the rationals, in solved form.
//!
//! Each told equation is put into a dictionary by Gauss-Jordan elimination: its row is exchanged with the first free
//! variable in it, and its own quantity, which is zero in every solution, is dropped (Holzbaur 1995).
#![tactic(auto)]

mod entering;
pub mod project;
pub mod store;
pub mod table;
