// A heap of terms: cells that stay as they were built, and the variables' bindings beside them.

ghost use Rattle.std.specs.Prelude.{List, ℕ, ◌≡◌, ◌<◌, ◌≤◌, ◌^◌, ◌++◌, [], ◌∷◌, map, length, reverse, All, slice_get, Some, IfOk, OnOk, OnErr, IsTrue, false};
ghost use Rattle.spec_terms.specs.Term.{Var, Number, Name, Occurs, with_arguments, apply, single};
ghost use Rattle.spec_numbers.specs.Rational.{int_ℚ};
ghost use Rattle.cq_term.specs.Meaning.{at};
ghost use Rattle.cq_term.specs.Ground.{IsGround};
ghost use Rattle.cq_term.specs.Layout.{AreSorted};
ghost use Rattle.cq_term.specs.declared.heap.Place.{Place};
ghost use Rattle.cq_term.specs.Names.{HasNamesOfTerms};
ghost use Rattle.cq_term.specs.Shown.{view_of, arguments, variables_from, IsUnbound};

use crate::atoms::Atom;
use crate::lists::{Cell, Lists, push_reversed, unbind, unlearn};
use crate::names::{Newly, TermId};
use crate::view::View;
use crate::walk::Pair;
use cq_frac::{Frac, VarId};
use cq_trail::{Mark, Undo};
use std::alloc::{AllocError, Global};
use std::marker::Model;

/// How long the lists were at a mark.
#[derive(Clone, Copy)]
struct Place {
    cells: usize,
    wide: usize,
    args: usize,
    vars: usize,
    order: usize,
    learnt: usize,
}

/// Lists that are done with, for their memory.
#[derive(Drop)]
struct Spare {
    lists: Vec<Vec<TermId>>,
    newly: Option<Newly>,
    pairs: Option<Vec<Pair>>,
}

/// Finite terms by number, over variables that can be bound. Each id means one term, read through the bindings.
/// A term takes a cell of 16 bytes, a compound 8 more for each argument, and a variable 8 more, and 8 again once it is
/// bound. `mark` takes constant time, `undo` the time of the bindings made and of the terms learnt to be ground since,
/// and `forget` leaves nothing of the mark behind. It lends empty lists too, whose memory was had before.
#[derive(Drop)]
pub struct Heap {
    lists: Lists,
    /// The live marks, the oldest first.
    marks: Vec<Place>,
    spare: Spare,
    alloc: Global,
}

impl Model for Heap {
    ghost use Rattle.std.specs.Prelude.{map, vec_capacity, vec_len, ◌-◌};
    ghost use Rattle.cq_term.specs.HeapValue.{HeapValue, heap_code};

    ghost Value = { HeapValue };

    ghost coded = { heap_code };

    ghost use Rattle.cq_term.specs.Layout.{IsMarked, contents, terms_of, terms_at};

    ghost view = { λ h. record {
      now = terms_of (contents h.lists);
      saved = map (terms_at (contents h.lists)) h.marks.items;
      room = vec_capacity h.marks - vec_len h.marks;
    } };

    ghost invariant = { λ h. IsMarked (contents h.lists) h.marks.items };
}

impl Heap {
    /// An empty heap. It takes no memory.
    pub fn new(alloc: Global) -> Self
        ensures terms { result.now.terms ≡ [] }
        ensures images { result.now.images ≡ [] }
        ensures saved { result.saved ≡ [] }
    {
        Heap {
            lists: Lists {
                cells: Vec::new(alloc),
                wide: Vec::new(alloc),
                args: Vec::new(alloc),
                vars: Vec::new(alloc),
                order: Vec::new(alloc),
                learnt: Vec::new(alloc),
            },
            marks: Vec::new(alloc),
            spare: Spare {
                lists: Vec::new(alloc),
                newly: None,
                pairs: None,
            },
            alloc,
        }
    }

    /// A number as a term. Fails for want of memory, with every term as it was.
    #[inline(always)]
    pub fn number(&mut self, number: Frac) -> Result<TermId, AllocError>
        ensures id { IfOk result (λ id. id ≡ length self.old.now.terms) }
        ensures terms { OnOk result (self.new.now.terms ≡ self.old.now.terms ++ Number number ∷ []) }
        ensures images { OnOk result (self.new.now.images ≡ self.old.now.images) }
        ensures saved { self.new.saved ≡ self.old.saved }
        ensures room { self.old.room ≤ self.new.room }
        ensures err { OnErr result (self.new.now ≡ self.old.now) }
    {
        match number.to_i64() {
            Some(whole) => self.whole(whole),
            None => self.wide(number),
        }
    }

    /// A number that fits a word.
    #[inline(always)]
    fn whole(&mut self, number: i64) -> Result<TermId, AllocError>
        ensures id { IfOk result (λ id. id ≡ length self.old.now.terms) }
        ensures terms { OnOk result (self.new.now.terms ≡ self.old.now.terms ++ Number (int_ℚ number) ∷ []) }
        ensures images { OnOk result (self.new.now.images ≡ self.old.now.images) }
        ensures saved { self.new.saved ≡ self.old.saved }
        ensures room { self.old.room ≤ self.new.room }
        ensures err { OnErr result (self.new.now ≡ self.old.now) }
    {
        let id = self.lists.cells.len();
        self.lists.cells.push(Cell::Whole(number))?;
        Ok(TermId::new(id))
    }

    /// A number that needs more than a word.
    fn wide(&mut self, number: Frac) -> Result<TermId, AllocError>
        ensures id { IfOk result (λ id. id ≡ length self.old.now.terms) }
        ensures terms { OnOk result (self.new.now.terms ≡ self.old.now.terms ++ Number number ∷ []) }
        ensures images { OnOk result (self.new.now.images ≡ self.old.now.images) }
        ensures saved { self.new.saved ≡ self.old.saved }
        ensures room { self.old.room ≤ self.new.room }
        ensures err { OnErr result (self.new.now ≡ self.old.now) }
    {
        let id = self.lists.cells.len();
        let place = self.lists.wide.len();
        self.lists.cells.reserve(1)?;
        self.lists.wide.push(number)?;
        self.lists.cells.push(Cell::Wide(place)).unwrap();
        Ok(TermId::new(id))
    }

    /// An atom as a term. Fails for want of memory, with every term as it was.
    #[inline(always)]
    pub fn atom(&mut self, name: Atom) -> Result<TermId, AllocError>
        ensures id { IfOk result (λ id. id ≡ length self.old.now.terms) }
        ensures terms { OnOk result (self.new.now.terms ≡ self.old.now.terms ++ Name name ∷ []) }
        ensures images { OnOk result (self.new.now.images ≡ self.old.now.images) }
        ensures saved { self.new.saved ≡ self.old.saved }
        ensures room { self.old.room ≤ self.new.room }
        ensures err { OnErr result (self.new.now ≡ self.old.now) }
    {
        let id = self.lists.cells.len();
        self.lists.cells.push(Cell::Name(name))?;
        Ok(TermId::new(id))
    }

    /// A compound with the given name and arguments, at least one. Fails for want of memory, with every term as it was;
    /// there is none for a name whose number has more than 32 bits.
    pub fn compound(&mut self, name: Atom, args: &[TermId]) -> Result<TermId, AllocError>
        requires some { 0 < length args.now }
        requires live { All (λ i. i < length self.old.now.terms) args.now }
        ensures id { IfOk result (λ id. id ≡ length self.old.now.terms) }
        ensures terms { OnOk result (self.new.now.terms ≡ self.old.now.terms ++ with_arguments name (map (at self.old.now.terms) args.now) ∷ []) }
        ensures images { OnOk result (self.new.now.images ≡ self.old.now.images) }
        ensures saved { self.new.saved ≡ self.old.saved }
        ensures room { self.old.room ≤ self.new.room }
        ensures err { OnErr result (self.new.now ≡ self.old.now) }
    {
        let Ok(name) = u32::try_from(name.index()) else {
            return Err(AllocError);
        };
        let ground = self.are_ground(args);
        match u16::try_from(args.len()) {
            Ok(count) => self.short(ground, count, name, args),
            Err(_) => self.long(ground, name, args),
        }
    }

    /// A compound of few arguments, whether they are known to have no variable.
    #[inline(always)]
    fn short(
        &mut self,
        ground: bool,
        count: u16,
        name: u32,
        args: &[TermId],
    ) -> Result<TermId, AllocError>
        requires count { count ≡ length args.now }
        requires some { 0 < length args.now }
        requires live { All (λ i. i < length self.old.now.terms) args.now }
        requires ground { IsTrue ground → All (λ i. IsGround (at self.old.now.terms i)) args.now }
        ensures id { IfOk result (λ id. id ≡ length self.old.now.terms) }
        ensures terms { OnOk result (self.new.now.terms ≡ self.old.now.terms ++ with_arguments name (map (at self.old.now.terms) args.now) ∷ []) }
        ensures images { OnOk result (self.new.now.images ≡ self.old.now.images) }
        ensures saved { self.new.saved ≡ self.old.saved }
        ensures room { self.old.room ≤ self.new.room }
        ensures err { OnErr result (self.new.now ≡ self.old.now) }
    {
        let id = self.lists.cells.len();
        let start = self.lists.args.len();
        self.lists.cells.reserve(1)?;
        self.lists.args.extend_from_slice(args)?;
        self.lists.cells.push_reserved(Cell::Compound {
            ground,
            count,
            name,
            start,
        });
        Ok(TermId::new(id))
    }

    /// A compound of any number of arguments, which it notes in front of them.
    fn long(&mut self, ground: bool, name: u32, args: &[TermId]) -> Result<TermId, AllocError>
        requires some { 0 < length args.now }
        requires live { All (λ i. i < length self.old.now.terms) args.now }
        requires ground { IsTrue ground → All (λ i. IsGround (at self.old.now.terms i)) args.now }
        ensures id { IfOk result (λ id. id ≡ length self.old.now.terms) }
        ensures terms { OnOk result (self.new.now.terms ≡ self.old.now.terms ++ with_arguments name (map (at self.old.now.terms) args.now) ∷ []) }
        ensures images { OnOk result (self.new.now.images ≡ self.old.now.images) }
        ensures saved { self.new.saved ≡ self.old.saved }
        ensures room { self.old.room ≤ self.new.room }
        ensures err { OnErr result (self.new.now ≡ self.old.now) }
    {
        let id = self.lists.cells.len();
        let start = self.lists.args.len();
        self.lists.cells.reserve(1)?;
        self.lists.args.reserve(1 + args.len())?;
        self.lists.args.push_reserved(TermId::new(args.len()));
        self.lists.args.extend_from_slice(args).unwrap();
        self.lists.cells.push_reserved(Cell::Long {
            ground,
            name,
            start,
        });
        Ok(TermId::new(id))
    }

    /// The same of arguments of which the last stands first.
    pub fn compound_reversed(&mut self, name: Atom, args: &[TermId]) -> Result<TermId, AllocError>
        requires some { 0 < length args.now }
        requires live { All (λ i. i < length self.old.now.terms) args.now }
        ensures id { IfOk result (λ id. id ≡ length self.old.now.terms) }
        ensures terms { OnOk result (self.new.now.terms ≡ self.old.now.terms ++ with_arguments name (map (at self.old.now.terms) (reverse args.now)) ∷ []) }
        ensures images { OnOk result (self.new.now.images ≡ self.old.now.images) }
        ensures saved { self.new.saved ≡ self.old.saved }
        ensures room { self.old.room ≤ self.new.room }
        ensures err { OnErr result (self.new.now ≡ self.old.now) }
    {
        let Ok(name) = u32::try_from(name.index()) else {
            return Err(AllocError);
        };
        let ground = self.are_ground(args);
        match u16::try_from(args.len()) {
            Ok(count) => self.short_reversed(ground, count, name, args),
            Err(_) => {
                let mut list = Vec::new(self.alloc);
                list.reserve(args.len())?;
                push_reversed(&mut list, args);
                self.long(ground, name, &list)
            }
        }
    }

    /// A compound of few arguments, of which the last stands first.
    #[inline(always)]
    fn short_reversed(
        &mut self,
        ground: bool,
        count: u16,
        name: u32,
        args: &[TermId],
    ) -> Result<TermId, AllocError>
        requires count { count ≡ length args.now }
        requires some { 0 < length args.now }
        requires live { All (λ i. i < length self.old.now.terms) args.now }
        requires ground { IsTrue ground → All (λ i. IsGround (at self.old.now.terms i)) args.now }
        ensures id { IfOk result (λ id. id ≡ length self.old.now.terms) }
        ensures terms { OnOk result (self.new.now.terms ≡ self.old.now.terms ++ with_arguments name (map (at self.old.now.terms) (reverse args.now)) ∷ []) }
        ensures images { OnOk result (self.new.now.images ≡ self.old.now.images) }
        ensures saved { self.new.saved ≡ self.old.saved }
        ensures room { self.old.room ≤ self.new.room }
        ensures err { OnErr result (self.new.now ≡ self.old.now) }
    {
        let id = self.lists.cells.len();
        let start = self.lists.args.len();
        self.lists.cells.reserve(1)?;
        self.lists.args.reserve(args.len())?;
        push_reversed(&mut self.lists.args, args);
        self.lists.cells.push_reserved(Cell::Compound {
            ground,
            count,
            name,
            start,
        });
        Ok(TermId::new(id))
    }

    /// Makes the youngest variable.
    pub fn new_var(&mut self) -> Result<TermId, AllocError>
        ensures id { IfOk result (λ id. id ≡ length self.old.now.terms) }
        ensures terms { OnOk result (self.new.now.terms ≡ self.old.now.terms ++ Var (length self.old.now.images) ∷ []) }
        ensures images { OnOk result (self.new.now.images ≡ self.old.now.images ++ Var (length self.old.now.images) ∷ []) }
        ensures saved { self.new.saved ≡ self.old.saved }
        ensures room { self.old.room ≤ self.new.room }
        ensures err { OnErr result (self.new.now ≡ self.old.now) }
    {
        let id = self.lists.cells.len();
        let variable = self.lists.vars.len();
        self.lists.vars.reserve(1)?;
        self.lists.cells.push(Cell::Var(variable))?;
        self.lists.vars.push(TermId::new(id)).unwrap();
        Ok(TermId::new(id))
    }

    /// Makes so many variables, the oldest first, and says which number the first has. Fails for want of memory, with every
    /// term as it was.
    #[inline(always)]
    pub fn new_vars(&mut self, count: usize) -> Result<usize, AllocError>
        ensures first { IfOk result (λ first. first ≡ length self.old.now.images) }
        ensures few { OnOk result (length self.new.now.images < 2 ^ 64) }
        ensures terms { OnOk result (self.new.now.terms ≡ self.old.now.terms ++ variables_from (length self.old.now.images) count) }
        ensures images { OnOk result (self.new.now.images ≡ self.old.now.images ++ variables_from (length self.old.now.images) count) }
        ensures saved { self.new.saved ≡ self.old.saved }
        ensures room { self.old.room ≤ self.new.room }
        ensures err { OnErr result (self.new.now ≡ self.old.now) }
    {
        let first = self.lists.add_vars(count)?;
        Ok(first)
    }

    /// Makes the youngest variable, which is bound to the term from the start: it takes no cell, and no note of its binding.
    /// Fails for want of memory, with every term as it was.
    pub fn new_bound_var(&mut self, term: TermId) -> Result<(), AllocError>
        requires { term < length self.old.now.terms }
        ensures few { OnOk result (length self.new.now.images < 2 ^ 64) }
        ensures terms { self.new.now.terms ≡ self.old.now.terms }
        ensures images { OnOk result (self.new.now.images ≡ self.old.now.images ++ at self.old.now.terms term ∷ []) }
        ensures saved { self.new.saved ≡ self.old.saved }
        ensures room { self.old.room ≤ self.new.room }
        ensures err { OnErr result (self.new.now ≡ self.old.now) }
    {
        self.lists.vars.push(term)?;
        Ok(())
    }

    /// How many variables there are.
    pub fn variables(&self) -> usize
        ensures { result ≡ length self.now.now.images }
    {
        self.lists.vars.len()
    }

    /// Binds an unbound variable to a term in which it doesn't stand: each live term is then read with that term in
    /// the variable's place.
    #[inline(always)]
    pub fn bind(&mut self, variable: VarId, term: TermId) -> Result<(), AllocError>
        requires unbound { IsUnbound self.old.now.images variable.0 }
        requires live { term < length self.old.now.terms }
        requires apart { Occurs variable.0 (at self.old.now.terms term) → ⊥ }
        ensures terms { OnOk result (self.new.now.terms ≡ map (apply (single variable.0 (at self.old.now.terms term))) self.old.now.terms) }
        ensures images { OnOk result (self.new.now.images ≡ map (apply (single variable.0 (at self.old.now.terms term))) self.old.now.images) }
        ensures saved { self.new.saved ≡ self.old.saved }
        ensures room { self.old.room ≤ self.new.room }
        ensures err { OnErr result (self.new.now ≡ self.old.now) }
    {
        let variable = variable.0;
        let term = self.lists.resolve(term);
        self.lists.order.push(self.lists.vars[variable])?;
        self.lists.vars[variable] = term;
        Ok(())
    }

    /// Where the heap takes its memory.
    pub fn alloc(&self) -> Global {
        self.alloc
    }

    /// The head of a term. A variable that it shows is unbound.
    #[inline(always)]
    pub fn view(&self, id: TermId) -> View
        requires { id < length self.now.now.terms }
        ensures view { result ≡ view_of (at self.now.now.terms id) }
        ensures unbound { (v : ℕ) → at self.now.now.terms id ≡ Var v → IsUnbound self.now.now.images v }
        ensures inside { (v : ℕ) → Occurs v (at self.now.now.terms id) → IsUnbound self.now.now.images v }
    {
        let end = self.lists.resolve(id);
        match self.lists.cells[end.index()] {
            Cell::Var(variable) => View::Var(VarId(variable)),
            Cell::Whole(number) => View::Number(Frac::from(number)),
            Cell::Wide(place) => View::Number(self.lists.wide[place]),
            Cell::Name(name) => View::Name(name),
            Cell::Compound { name, count, .. } => {
                View::Compound(Atom::numbered(name as usize), count as usize)
            }
            Cell::Long { name, start, .. } => {
                let count = self.lists.args[start];
                View::Compound(Atom::numbered(name as usize), count.index())
            }
        }
    }

    /// Whether a term is known to have no variable: it was built of numbers and names alone, or `learn_ground` was told.
    /// A term whose variables were all bound to such terms may still answer false.
    pub fn is_ground(&self, id: TermId) -> bool
        requires { id < length self.now.now.terms }
        ensures { IsTrue result → IsGround (at self.now.now.terms id) }
    {
        let end = self.lists.resolve(id);
        match self.lists.cells[end.index()] {
            Cell::Var(_) => false,
            Cell::Whole(_) | Cell::Wide(_) | Cell::Name(_) => true,
            Cell::Compound { ground, .. } => ground,
            Cell::Long { ground, .. } => ground,
        }
    }

    /// Notes that terms have no variable, so that `is_ground` says so until the heap is as it was at a mark before. Where
    /// there is no memory for a note that an `undo` wants, a term stays as it is.
    pub fn learn_ground(&mut self, walked: &[TermId])
        requires live { All (λ i. i < length self.old.now.terms) walked.now }
        requires ground { All (λ i. IsGround (at self.old.now.terms i)) walked.now }
        ensures { self.new ≡ self.old }
    {
        for id in walked {
            self.learn(*id);
        }
    }

    /// The same of one term. A cell that was built behind the newest mark needs no note, since each `undo` cuts it off.
    fn learn(&mut self, id: TermId)
        requires live { id < length self.old.now.terms }
        requires ground { IsGround (at self.old.now.terms id) }
        ensures { self.new ≡ self.old }
    {
        let end = self.lists.resolve(id);
        let is_noted = is_marked(&self.marks, end);
        self.lists.learn(end, is_noted);
    }

    fn are_ground(&self, ids: &[TermId]) -> bool
        requires { All (λ i. i < length self.now.now.terms) ids.now }
        ensures { IsTrue result → All (λ i. IsGround (at self.now.now.terms i)) ids.now }
    {
        for id in ids {
            if !self.is_ground(*id) {
                return false;
            }
        }
        true
    }

    /// An argument of a compound, counted from 0.
    pub fn arg(&self, id: TermId, i: usize) -> TermId
        requires live { id < length self.now.now.terms }
        requires within { i < length (arguments (at self.now.now.terms id)) }
        ensures live { result < length self.now.now.terms }
        ensures arg { slice_get (arguments (at self.now.now.terms id)) i ≡ Some (at self.now.now.terms result) }
    {
        let args = self.args(id);
        args[i]
    }

    /// The arguments of a compound, in order, and none of another term.
    pub fn args(&self, id: TermId) -> &[TermId]
        requires { id < length self.now.now.terms }
        ensures live { All (λ i. i < length self.now.now.terms) result.now }
        ensures args { map (at self.now.now.terms) result.now ≡ arguments (at self.now.now.terms id) }
    {
        let end = self.lists.resolve(id);
        match self.lists.cells[end.index()] {
            Cell::Compound { count, start, .. } => self.lists.part(start, count as usize),
            Cell::Long { start, .. } => {
                let count = self.lists.args[start];
                self.lists.part(start + 1, count.index())
            }
            _ => &[],
        }
    }

    /// The term of a variable, read through bindings as every term is.
    pub fn var_term(&self, variable: VarId) -> TermId
        requires { variable.0 < length self.now.now.images }
        ensures live { result < length self.now.now.terms }
        ensures term { at self.now.now.terms result ≡ at self.now.now.images variable.0 }
    {
        self.lists.vars[variable.0]
    }

    /// Each variable means what some term means, so it has no names but those of terms, now and at each live mark.
    pub fn names_are_of_terms(&self)
        ensures now { HasNamesOfTerms self.now.now }
        ensures saved { All HasNamesOfTerms self.now.saved }
    {
        let _lists = &self.lists;
    }

    /// A variable that stands in a term is unbound.
    pub fn variables_are_unbound(&self)
        ensures { (id v : ℕ) → Occurs v (at self.now.now.terms id) → IsUnbound self.now.now.images v }
    {
        let _lists = &self.lists;
    }

    /// A variable that stands in what a variable means is unbound.
    pub fn images_are_unbound(&self)
        ensures { (x v : ℕ) → Occurs v (at self.now.now.images x) → IsUnbound self.now.now.images v }
    {
        let _lists = &self.lists;
    }

    /// An empty list, with the memory of one that was kept, if there is one.
    pub fn spare_list(&mut self) -> Vec<TermId>
        ensures empty { result.items ≡ [] }
        ensures same { self.new ≡ self.old }
    {
        match self.spare.lists.pop() {
            Some(mut list) => {
                list.clear();
                list
            }
            None => Vec::new(self.alloc),
        }
    }

    /// Keeps a list that is done with, for its memory. Where there is no memory to note it in, it is dropped.
    #[inline(always)]
    pub fn keep_list(&mut self, list: Vec<TermId>)
        ensures { self.new ≡ self.old }
    {
        let _ = self.spare.lists.push(list);
    }

    /// An empty list of variables, with the memory of the one that was kept, if there is one.
    pub fn spare_newly(&mut self) -> Newly
        ensures empty { result ≡ [] }
        ensures same { self.new ≡ self.old }
    {
        match self.spare.newly.take() {
            Some(mut newly) => {
                newly.truncate(0);
                newly
            }
            None => Newly::new(self.alloc),
        }
    }

    /// Keeps a list of variables that is done with, for its memory, in place of the one that was kept.
    pub fn keep_newly(&mut self, newly: Newly)
        ensures { self.new ≡ self.old }
    {
        self.spare.newly = Some(newly);
    }

    /// An empty list of pairs, with the memory of the one that was kept, if there is one.
    #[inline(always)]
    pub fn spare_pairs(&mut self) -> Vec<Pair>
        ensures empty { result.items ≡ [] }
        ensures same { self.new ≡ self.old }
    {
        match self.spare.pairs.take() {
            Some(mut pairs) => {
                pairs.clear();
                pairs
            }
            None => Vec::new(self.alloc),
        }
    }

    /// Keeps a list of pairs that is done with, for its memory, in place of the one that was kept.
    #[inline(always)]
    pub fn keep_pairs(&mut self, pairs: Vec<Pair>)
        ensures { self.new ≡ self.old }
    {
        self.spare.pairs = Some(pairs);
    }
}

/// Whether a cell was there at a mark: no mark has more cells than the newest one.
fn is_marked(marks: &[Place], cell: TermId) -> bool
    requires { AreSorted marks.now }
    ensures { result ≡ false → (k : ℕ) (p : Place) → slice_get marks.now k ≡ Some p → p.cells ≤ cell }
{
    let count = marks.len();
    if count == 0 {
        return false;
    }
    cell.index() < marks[count - 1].cells
}

impl Undo for Heap {
    ghost use Rattle.cq_term.specs.HeapValue.{Terms};

    ghost Value = { Terms };

    ghost now = { λ h. h.now };

    ghost saved = { λ h. h.saved };

    ghost room = { λ h. h.room };

    #[inline(always)]
    fn mark(&mut self) -> Result<Mark, AllocError> {
        let number = self.marks.len();
        self.marks.push(Place {
            cells: self.lists.cells.len(),
            wide: self.lists.wide.len(),
            args: self.lists.args.len(),
            vars: self.lists.vars.len(),
            order: self.lists.order.len(),
            learnt: self.lists.learnt.len(),
        })?;
        Ok(Mark { number })
    }

    #[inline(always)]
    fn undo(&mut self, m: Mark) {
        let place = self.marks[m.number];
        let lists = &mut self.lists;
        unbind(&lists.cells, &mut lists.vars, &mut lists.order, place.order);
        unlearn(&mut lists.cells, &mut lists.learnt, place.learnt);
        lists.vars.truncate(place.vars);
        lists.args.truncate(place.args);
        lists.wide.truncate(place.wide);
        lists.cells.truncate(place.cells);
        self.marks.truncate(m.number);
    }

    fn forget(&mut self, m: Mark) {
        self.marks.truncate(m.number);
    }

    fn reserve(&mut self, n: usize) -> Result<(), AllocError> {
        self.marks.reserve(n)?;
        Ok(())
    }

    fn spare(&self) -> usize {
        self.marks.capacity() - self.marks.len()
    }
}
