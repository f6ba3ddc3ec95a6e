// Changes of the newest choice.

ghost use Rattle.std.specs.Prelude.{◌≡◌, ◌<◌, length};
ghost use Rattle.cq_control.specs.Open.{AreMarked};
ghost use Rattle.cq_settle.specs.Worlds.{now_of};
ghost use Rattle.cq_branch.specs.Worlds.{value, saved_values};
ghost use Rattle.cq_choices.specs.Newest.{Replaces, Renews};

use cq_branch::{Alternatives, Searching};
use cq_control::Choices;
use cq_trail::{Mark, Undo};

/// The newest choice leaves this to try instead.
pub(crate) fn replace_newest(choices: &mut Choices<Alternatives>, content: Alternatives)
    requires some { 0 < length choices.old }
    ensures { Replaces choices.old content choices.new }
{
    let newest = choices.height() - 1;
    choices.replace_at(newest, content);
}

/// The newest choice goes back to the world as it is now, and leaves this to try.
pub(crate) fn renew(
    world: &mut Searching,
    choices: &mut Choices<Alternatives>,
    content: Alternatives,
)
    requires marked { AreMarked (saved_values world.old.first world.old.second.saved) choices.old }
    requires some { 0 < length choices.old }
    ensures contents { Replaces choices.old content choices.new }
    ensures open { Renews (saved_values world.old.first world.old.second.saved) choices.old (value world.old.first world.old.second.now) content
        (saved_values world.new.first world.new.second.saved) choices.new }
    ensures now { now_of world.new.first ≡ now_of world.old.first }
    ensures lists { world.new.second.now ≡ world.old.second.now }
    ensures marked { AreMarked (saved_values world.new.first world.new.second.saved) choices.new }
{
    let newest = choices.height() - 1;
    world.forget(Mark { number: newest });
    world.mark().unwrap();
    replace_newest(choices, content);
}
