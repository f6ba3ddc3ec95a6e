//! Goals that declare something or change the program: operators, declared predicates, modules, and clauses that are to
//! be added, removed or read. Each is checked for its errors as the definitions of the goals look for them.
#![tactic(auto)]

mod clauses;
mod declarations;
mod modules;
mod operators;

pub use clauses::{CheckedClause, ClauseParts, check_clause, check_clause_goal, is_body};
pub use declarations::{check_declaration, declarations_in_turn};
pub use modules::check_module;
pub use operators::{OperatorGoal, declare_operators};
