// A machine with a query.

ghost use Rattle.std.specs.Prelude.{◌≡◌, ◌<◌, ◌≤◌, [], List, length, IfOk, OnOk, OnErr};
ghost use Rattle.spec_numbers.specs.Texts.{Text};
ghost use Rattle.spec_search.specs.Database.{initial};
ghost use Rattle.spec_search.specs.Search.{start};
ghost use Rattle.cq_term.specs.Texts.{KeepsTexts};
ghost use Rattle.cq_ops.specs.Tables.{named};
ghost use Rattle.cq_read.specs.Feeds.{IsFed, place_behind, IsLiveFed};
ghost use Rattle.cq_read.specs.Feeds as feeds;
ghost use Rattle.cq_read.specs.Shown.{read_of, IsReadOf, IsForward, IsLiveRead};
ghost use Rattle.cq_term.specs.Trees.{tree};
ghost use Rattle.cq_branch.specs.Lists.{goal_cell};
ghost use Rattle.cq_machine.specs.Machines.{terms, now, database_of};
ghost use Rattle.cq_engine.specs.Seeking.{IsKept};
ghost use Rattle.cq_engine.specs.Events.{IsIdle, IsRunning, GivesNext, GoesOn, HasCounted, Keeps, Stands, HasSameWorld};

use crate::events::event::Event;
use crate::events::running::run;
use crate::events::turning::turn;
use cq_built::kinds::is_callable;
use cq_control::{Choices, Continuation, Continuations};
use cq_machine::Machine;
use cq_ops::more_names_keep_the_table;
use cq_read::{Fed, Feed, Read, read_clause};
use cq_resolve::program::{changes_are_those_of_the_database, programs_stay_programs};
use cq_settle::world::World;
use cq_term::{Heap, TermId};
use cq_trail::Both;
use spec_engine::machine::Cell;
use std::alloc::{AllocError, Global};

/// A machine with a query: how many goals it selected, how many it may select, and what it goes on with, where it doesn't come back
/// to its newest choice.
#[derive(Drop)]
pub struct Engine {
    pub machine: Machine,
    pub selected: u64,
    pub steps: u64,
    pub current: Option<Continuation>,
}

/// The cell of a query's goal.
fn cell_of(heap: &Heap, goal: TermId) -> Cell
    requires { goal < length heap.now.now.terms }
    ensures { (texts : List Text) → result ≡ goal_cell texts heap.now.now.terms goal 0 }
{
    if is_callable(heap, goal) {
        Cell::Goal(goal, 0)
    } else {
        Cell::Call(goal)
    }
}

impl Engine {
    /// An engine without clauses and without a query. A call of it may make as many exchanges as `pivots` says.
    pub fn new(alloc: Global, pivots: u64) -> Result<Engine, AllocError>
        ensures idle { IfOk result IsIdle }
        ensures program { IfOk result (λ e. database_of e.machine ≡ initial) }
        ensures pivots { IfOk result (λ e. e.machine.world.first.store.pivots ≡ pivots) }
    {
        let machine = Machine::new(alloc, pivots)?;
        Ok(Engine {
            machine,
            selected: 0,
            steps: 0,
            current: None,
        })
    }

    /// Ends the query, if there is one, and forgets all terms and constraints. Names, operators and clauses stay.
    pub fn end(&mut self)
        requires { IsKept self.old.machine }
        ensures idle { IsIdle self.new }
        ensures empty { (now self.new.machine).0.heap.images ≡ [] }
        ensures keeps { Keeps self.old self.new }
        ensures program { database_of self.new.machine ≡ database_of self.old.machine }
    {
        let alloc = self.machine.world.first.heap.alloc();
        let pivots = self.machine.world.first.store.pivots();
        self.machine.world = Both {
            first: World::new(alloc, pivots),
            second: Continuations::new(alloc),
        };
        self.machine.choices = Choices::new(alloc);
        self.current = None;
    }

    /// Reads what stands at a place of a text, by the operators of the engine. A clause's term and variables are then on its heap.
    pub fn read(&mut self, text: &[u8], at: usize) -> Result<Read, AllocError>
        requires idle { IsIdle self.old }
        requires within { at ≤ length text.now }
        ensures reads { IfOk result (λ read. IsReadOf (named self.new.machine.atoms self.old.machine.ops) text.now at
            (length self.old.machine.world.first.heap.now.images) (read_of self.new.machine.atoms self.new.machine.world.first.heap.now read)) }
        ensures forward { IfOk result (IsForward (length text.now) at) }
        ensures live { IfOk result (IsLiveRead self.new.machine.world.first.heap.now) }
        ensures idle { IsIdle self.new }
        ensures names { KeepsTexts self.old.machine.atoms self.new.machine.atoms }
        ensures program { database_of self.new.machine ≡ database_of self.old.machine }
        ensures pivots { self.new.machine.world.first.store.pivots ≡ self.old.machine.world.first.store.pivots }
    {
        changes_are_those_of_the_database();
        programs_stay_programs();
        more_names_keep_the_table();
        let m = &mut self.machine;
        let read = read_clause(&mut m.world.first.heap, &mut m.atoms, &m.ops, text, at);
        m.atoms.text(m.names.truth);
        read
    }

    /// What stands at the place of input that comes in pieces, by the operators of the engine, as `Feed::next` says.
    pub fn read_fed(&mut self, text: &mut Feed) -> Result<Fed, AllocError>
        requires idle { IsIdle self.old }
        ensures fed { IfOk result (IsFed (named self.new.machine.atoms self.old.machine.ops) self.new.machine.atoms text.old
            self.old.machine.world.first.heap.now self.new.machine.world.first.heap.now) }
        ensures bytes { text.new.bytes ≡ text.old.bytes }
        ensures place { text.new.place ≡ place_behind text.old.place result }
        ensures finished { text.new.finished ≡ text.old.finished }
        ensures forward { IfOk result (feeds.GoesOn (length text.old.bytes) text.old.place) }
        ensures live { IfOk result (IsLiveFed self.new.machine.world.first.heap.now) }
        ensures idle { IsIdle self.new }
        ensures names { KeepsTexts self.old.machine.atoms self.new.machine.atoms }
        ensures program { database_of self.new.machine ≡ database_of self.old.machine }
        ensures pivots { self.new.machine.world.first.store.pivots ≡ self.old.machine.world.first.store.pivots }
    {
        changes_are_those_of_the_database();
        programs_stay_programs();
        more_names_keep_the_table();
        let m = &mut self.machine;
        let fed = text.next(&mut m.world.first.heap, &mut m.atoms, &m.ops);
        m.atoms.text(m.names.truth);
        fed
    }

    /// Begins a query of a term, which may select so many goals; its variables are those of the heap. An error is want of memory,
    /// and the engine still has no query.
    pub fn start(&mut self, goal: TermId, steps: u64) -> Result<(), AllocError>
        requires idle { IsIdle self.old }
        requires goal { goal < length (terms self.old.machine) }
        ensures stands { OnOk result (Stands self.new (start (database_of self.old.machine)
            (tree self.old.machine.atoms (terms self.old.machine) goal) (length self.old.machine.world.first.heap.now.images))) }
        ensures running { OnOk result (IsRunning self.new) }
        ensures steps { OnOk result (self.new.steps ≡ steps) }
        ensures world { HasSameWorld self.old self.new }
        ensures err { OnErr result (IsIdle self.new) }
    {
        let cell = cell_of(&self.machine.world.first.heap, goal);
        let k = self
            .machine
            .world
            .second
            .before(cell, Continuation::done())?;
        self.selected = 0;
        self.steps = steps;
        self.current = Some(k);
        Ok(())
    }

    /// What the query tells next. An error is want of memory: the engine then stands behind some turns that tell nothing, and
    /// another call goes on from there. After `Fail`, `Ball` and `Stop` it is `Fail` again.
    pub fn next(&mut self) -> Result<Event, AllocError>
        requires { IsRunning self.old }
        ensures event { IfOk result (GivesNext self.old self.new) }
        ensures selected { IfOk result (HasCounted self.old self.new) }
        ensures err { OnErr result (GoesOn self.old self.new) }
        ensures running { IsRunning self.new }
        ensures keeps { Keeps self.old self.new }
    {
        'turns: loop {
            match run(self) {
                Ok(known) => match turn(self, known) {
                    Ok(told) => match told {
                        Some(event) => return Ok(event),
                        None => {}
                    },
                    Err(fault) => return Err(fault),
                },
                Err(fault) => return Err(fault),
            }
        }
    }
}
