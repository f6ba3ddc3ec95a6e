// The variables of one clause, as they are written.

ghost use Rattle.std.specs.Prelude.{◌≡◌, ◌+◌, ℕ, List, [], None, length, IfOk, OnOk};
ghost use Rattle.spec_syntax.specs.TextTokens.{known, next_number, with_variable};
ghost use Rattle.cq_term.specs.Shown.{IsUnbound};
ghost use Rattle.spec_numbers.specs.Texts.{Text};
ghost use Rattle.cq_term.specs.Trees.{KnowsTerms};
ghost use Rattle.cq_read.specs.Growth.{Grows};
ghost use Rattle.cq_read.specs.Names.{AreUnbound};
ghost use Rattle.cq_read.specs.Names as names;

use crate::names::VariableName;
use cq_frac::VarId;
use cq_term::{Heap, View};
use indexmap::IndexMap;
use std::alloc::{AllocError, Global};
use std::marker::Model;

/// The names so far, by first occurrence, with the numbers of their variables.
#[derive(Drop)]
pub struct Variables {
    numbers: IndexMap<String, usize>,
    alloc: Global,
}

impl Model for Variables {
    ghost use Rattle.std.specs.Prelude.{List};
    ghost use Rattle.spec_terms.specs.VariableName as naming;
    ghost use Rattle.cq_read.specs.NamesWords.{names_of};

    ghost Value = { List naming.VariableName };

    ghost view = { λ v. names_of v.numbers.entries };
}

impl Variables {
    /// No names yet.
    pub fn new(alloc: Global) -> Variables
        ensures { result ≡ [] }
    {
        Variables {
            numbers: IndexMap::new(alloc),
            alloc,
        }
    }

    /// The variable that is written next, which is a new one of the heap where the name did not occur.
    pub fn number(&mut self, heap: &mut Heap, name: &str) -> Result<VarId, AllocError>
        requires { AreUnbound heap.old.now.images self.old }
        ensures number { IfOk result (λ v. v.0 ≡ next_number (names.variables self.old heap.old.now.images) name.now) }
        ensures variables { OnOk result (names.variables self.new heap.new.now.images ≡ with_variable (names.variables self.old heap.old.now.images) name.now) }
        ensures unbound { IfOk result (λ v. IsUnbound heap.new.now.images v.0) }
        ensures names { OnOk result (AreUnbound heap.new.now.images self.new) }
        ensures known { (texts : List Text) → KnowsTerms texts heap.old.now.terms → OnOk result (KnowsTerms texts heap.new.now.terms) }
        ensures heap { Grows heap.old heap.new }
    {
        match self.known(name) {
            Some(number) => Ok(VarId(number)),
            None => self.add(heap, name),
        }
    }

    fn known(&self, name: &str) -> Option<usize>
        ensures { (count : ℕ) → result ≡ known (record { names = self.now; count = count }) name.now }
    {
        if name == "_" {
            return None;
        }
        self.numbers.get(name).copied()
    }

    /// A variable that is new.
    fn add(&mut self, heap: &mut Heap, name: &str) -> Result<VarId, AllocError>
        requires new { known (names.variables self.old heap.old.now.images) name.now ≡ None }
        requires unbound { AreUnbound heap.old.now.images self.old }
        ensures number { IfOk result (λ v. v.0 ≡ length heap.old.now.images) }
        ensures variables { OnOk result (names.variables self.new heap.new.now.images ≡ with_variable (names.variables self.old heap.old.now.images) name.now) }
        ensures unbound { IfOk result (λ v. IsUnbound heap.new.now.images v.0) }
        ensures names { OnOk result (AreUnbound heap.new.now.images self.new) }
        ensures known { (texts : List Text) → KnowsTerms texts heap.old.now.terms → OnOk result (KnowsTerms texts heap.new.now.terms) }
        ensures heap { Grows heap.old heap.new }
    {
        let variable = new_variable(heap)?;
        if name != "_" {
            let name = String::from_str(self.alloc, name)?;
            self.numbers.insert(name, variable.0)?;
        }
        Ok(variable)
    }

    /// The names in order of first occurrence.
    pub fn into_names(self) -> Result<Vec<VariableName>, AllocError>
        ensures { IfOk result (λ found. found.items ≡ self) }
    {
        self.numbers
            .into_iter()
            .map(|(name, number)| VariableName {
                name,
                variable: VarId(number),
            })
            .collect(self.alloc)
    }
}

/// A new variable of the heap.
fn new_variable(heap: &mut Heap) -> Result<VarId, AllocError>
    ensures number { IfOk result (λ v. v.0 ≡ length heap.old.now.images) }
    ensures one { OnOk result (length heap.new.now.images ≡ length heap.old.now.images + 1) }
    ensures unbound { IfOk result (λ v. IsUnbound heap.new.now.images v.0) }
    ensures known { (texts : List Text) → KnowsTerms texts heap.old.now.terms → OnOk result (KnowsTerms texts heap.new.now.terms) }
    ensures heap { Grows heap.old heap.new }
{
    let id = heap.new_var()?;
    match heap.view(id) {
        View::Var(variable) => Ok(variable),
        _ => unreachable!(),
    }
}
