// A machine goes on to a goal in front.

ghost use Rattle.std.specs.Prelude.{◌≡◌, None, IfOk, IfErr, OnErr};
ghost use Rattle.cq_engine.specs.Seeking.{IsKept, IsGoing, GoesTo, AllStop, FindsOn, KeepsNames};

use cq_catch::find::{Found, find};
use cq_control::Continuation;
use cq_machine::Machine;
use cq_ops::more_names_keep_the_table;
use cq_store::store::StoreFault;

/// A machine goes on to where a goal is in front, or the mark of a findall, or nothing is left to do, or to a ball that nothing catches;
/// clauses that a goal removes are gone then. After an error it is one that comes back to its newest choice, and another call goes on
/// from there.
pub fn seek(m: &mut Machine, start: Option<Continuation>) -> Result<Found, StoreFault>
    requires kept { IsKept m.old }
    requires works { IsGoing m.old start }
    ensures found { IfOk result (FindsOn m.old start m.new) }
    ensures err { OnErr result (GoesTo m.old start m.new None) }
    ensures stops { IfErr result (AllStop m.old start m.new) }
    ensures kept { IsKept m.new }
    ensures program { KeepsNames m.old m.new }
    ensures budget { m.new.world.first.store.pivots ≡ m.old.world.first.store.pivots }
{
    more_names_keep_the_table();
    let found = find(
        &mut m.world,
        &mut m.choices,
        &mut m.atoms,
        &mut m.clauses,
        start,
    );
    found
}
