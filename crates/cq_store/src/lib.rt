//! The store of linear constraints of all relations.
//!
//! Constraints are told one by one. Of each the store says that the list still has a solution, and which variables have got a value by it, or it gives
//! a certificate that none is left: multipliers by which the list adds up to something false, `0 >= 1` or `0 > 0` (Motzkin 1936).
//!
//! - **Each constraint has a quantity**, its form, which the dictionary of `cq_tableau` has as a row or a column beside the variables. That of an
//!   inequality is restricted: not below zero. So a list is solvable where a feasible dictionary says so, and telling `f >= 0` is: make a row
//!   of f, raise it until it is not below zero, and restrict it. Where its greatest value is below zero, the row is read as a certificate.
//! - **What is zero in every solution is known.** Where the greatest value of f is zero, f and each column that holds it there are zero from now on: these
//!   columns are dropped (Holzbaur 1995), as the own quantity of an equation is. A variable whose row has no live column has its constant for its value.
//!   So no value that follows is ever missed, and `X =< 1, X >= 1` fixes X.
//! - **A strict inequality or a disequation** falls only where its form is zero in every solution: where its row has no live column and no constant. So
//!   solutions need not be looked for: disequations that each leave a solution leave one together, since a set of solutions that is convex is
//!   not a union of finitely many parts of less dimension.
//! - **Going back** is to a mark: the list is cut off and the dictionary's changes are taken back, exchanges with them.
//!
//! `sup`, `inf` and `entailed` raise a row that has no name between a mark and its end.
#![tactic(auto)]

pub mod asking;
pub mod budgets;
pub mod entering;
pub mod equating;
pub mod falling;
pub mod reaching;
pub mod solving;
pub mod store;
