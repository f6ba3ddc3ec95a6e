//! Names as numbers: equal texts have equal numbers, and a number keeps its text.
#![tactic(auto)]

ghost use Rattle.std.specs.Prelude.{◌≡◌, ℕ, ◌<◌, List, [], Some, length, slice_get, IfOk, OnOk, OnErr};
ghost use Rattle.spec_numbers.specs.Texts.{Text};
ghost use Rattle.cq_term.specs.Texts.{AreDifferent, KeepsTexts, with_text, text_of};

use std::alloc::{AllocError, Global};
use std::collections::HashMap;
use std::marker::Model;

/// A name, as its number among the names of one `Atoms`. Contracts see it as that number.
#[derive(Clone, Copy, Debug, PartialEq, Eq, Hash)]
pub struct Atom {
    number: usize,
}

impl Model for Atom {
    ghost use Rattle.std.specs.Prelude.{ℕ};

    ghost Value = { ℕ };

    ghost view = { λ atom. atom.number };

    ghost inverse = { λ n. record { number = n } };
}

impl Atom {
    pub(crate) fn numbered(number: usize) -> Atom
        ensures { result ≡ number }
    {
        Atom { number }
    }

    /// The number, for lists by name.
    pub fn index(self) -> usize
        ensures { result ≡ self }
    {
        self.number
    }
}

/// The names that were given so far. Contracts see the list of their texts, by number.
#[derive(Drop)]
pub struct Atoms {
    /// The number of each text.
    numbers: HashMap<String, usize>,
    texts: Vec<String>,
    alloc: Global,
}

impl Model for Atoms {
    ghost use Rattle.std.specs.Prelude.{List, map};
    ghost use Rattle.std.specs.String.{string_bytes};
    ghost use Rattle.spec_numbers.specs.Texts.{Text};
    ghost use Rattle.std.specs.HashMap.{get_by_text};
    ghost use Rattle.cq_term.specs.Texts.{AreDifferent, IsNumbering};

    ghost Value = { List Text };

    ghost view = { λ atoms. map string_bytes atoms.texts.items };

    ghost invariant = { λ atoms. AreDifferent (map string_bytes atoms.texts.items) × IsNumbering (get_by_text atoms.numbers) (map string_bytes atoms.texts.items) };
}

impl Atoms {
    /// No names; it takes no memory until the first is given.
    pub fn new(alloc: Global) -> Atoms
        ensures { result ≡ [] }
    {
        Atoms {
            numbers: HashMap::new(alloc),
            texts: Vec::new(alloc),
            alloc,
        }
    }

    /// The number of a text, which is new where no name has the text. A known text is not copied.
    pub fn intern(&mut self, text: &str) -> Result<Atom, AllocError>
        ensures number { IfOk result (λ atom. slice_get self.new atom ≡ Some text.now) }
        ensures texts { OnOk result (self.new ≡ with_text self.old text.now) }
        ensures different { AreDifferent self.new }
        ensures was_different { AreDifferent self.old }
        ensures err { OnErr result (self.new ≡ self.old) }
    {
        if let Some(number) = self.numbers.get(text) {
            return Ok(Atom { number: *number });
        }
        let key = String::from_str(self.alloc, text)?;
        let copy = String::from_str(self.alloc, text)?;
        self.texts.reserve(1)?;
        let number = self.texts.len();
        self.numbers.insert(key, number)?;
        self.texts.push_reserved(copy);
        Ok(Atom { number })
    }

    /// The text of a name.
    pub fn text(&self, atom: Atom) -> &str
        requires { atom < length self.now }
        ensures value { result.now ≡ text_of self.now atom }
        ensures different { AreDifferent self.now }
    {
        self.texts[atom.number].as_str()
    }
}

/// Each number keeps its text, whatever text is given a number after it.
pub fn numbers_keep_their_texts()
    ensures { (texts : List Text) (text : Text) → KeepsTexts texts (with_text texts text) }
{}

/// A text has one number.
pub fn equal_texts_have_equal_numbers()
    ensures { (texts : List Text) (text : Text) → with_text (with_text texts text) text ≡ with_text texts text }
{}
