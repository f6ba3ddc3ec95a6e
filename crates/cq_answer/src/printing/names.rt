//! The name of a variable.

ghost use Rattle.std.specs.Prelude.{◌≡◌};
ghost use Rattle.cq_answer.specs.Names.{name_among};

use cq_frac::VarId;
use cq_read::names::VariableName;

/// The first name of a variable, which is empty for a variable that has none. It goes through the names one by one.
pub fn name_of<'a>(names: &'a [VariableName], variable: VarId) -> &'a str
    ensures { result.now ≡ name_among names.now variable.0 }
{
    'names: for named in names {
        if named.variable.0 == variable.0 {
            return named.name.as_str();
        }
    }
    ""
}
