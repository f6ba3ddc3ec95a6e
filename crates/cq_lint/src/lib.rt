//! What is found in the texts of a program without running it: texts that are no clause, variables that occur once, predicates
//! that are called and nowhere defined, and clauses of a predicate that stand apart.
#![tactic(auto)]

mod clauses;
mod findings;
mod goals;
mod known;
mod lines;
mod places;
mod predicates;
mod reading;
mod scattered;
mod sentences;
mod shapes;
mod variables;

pub use findings::{Finding, findings_of};
pub use known::Known;
pub use lines::lines_of;
pub use predicates::Predicate;
pub use reading::read_sentences;
pub use sentences::{Clause, Sentence, Variable};
