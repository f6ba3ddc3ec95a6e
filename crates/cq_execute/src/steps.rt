// Steps of goals that show nothing.

ghost use Rattle.std.specs.Prelude.{◌≡◌, []};
ghost use Rattle.cq_execute.specs.Rows.{IsQuiet, as_step, as_stop};

use crate::executed::Executed;
use cq_built::BuiltinError;
use cq_calls::Called;
use cq_machine::Step;
use cq_store::store::StoreFault;
use cq_term::Pred;
use std::alloc::{AllocError, Global};

/// A step without output.
pub(crate) fn silent(alloc: Global, step: Step) -> Executed
    ensures step { result.step ≡ step }
    ensures output { result.output.items ≡ [] }
{
    let output = Vec::new(alloc);
    Executed { step, output }
}

/// A step without output, or the stop of its query.
pub(crate) fn quiet_or_stop(
    alloc: Global,
    step: Result<Step, StoreFault>,
) -> Result<Executed, StoreFault>
    ensures { IsQuiet step result }
{
    match step {
        Ok(step) => Ok(silent(alloc, step)),
        Err(fault) => Err(fault),
    }
}

/// What the call of a user predicate came to as a step: it is an error that there is no such procedure.
pub(crate) fn stepped(
    predicate: Pred,
    called: Result<Called, AllocError>,
) -> Result<Step, AllocError>
    ensures { result ≡ as_step predicate called }
{
    match called {
        Ok(called) => match called {
            Called::Goes(k) => Ok(Step::Goes(k)),
            Called::Back => Ok(Step::Back),
            Called::Unknown => Ok(Step::Raises(BuiltinError::UnknownProcedure(predicate))),
        },
        Err(fault) => Err(fault),
    }
}

/// A step without output, or want of memory.
pub(crate) fn quiet(alloc: Global, step: Result<Step, AllocError>) -> Result<Executed, StoreFault>
    ensures { IsQuiet (as_stop step) result }
{
    match step {
        Ok(step) => Ok(silent(alloc, step)),
        Err(_) => Err(StoreFault::NoMemory),
    }
}
