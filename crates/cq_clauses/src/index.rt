// An index of a list of clauses by their keys.

ghost use Rattle.std.specs.Prelude.{◌≡◌, ◌≤◌, List, Option, [], ◌∷◌, ◌++◌, length, OnOk};
ghost use Rattle.cq_clauses.specs.Database.{added};
ghost use Rattle.cq_clauses.specs.Indexes.{HasNoted, IsIndex, NoneMatches};

use crate::key::Key;
use crate::list::End;
use crate::place_list::PlaceList;
use std::alloc::{AllocError, Global};
use std::collections::HashMap;

/// The places of a list's clauses by key, numbered from a number on that falls as clauses are added in front.
#[derive(Drop)]
pub struct Index {
    /// The number of the first place.
    first: usize,
    count: usize,
    keyed: HashMap<Key, PlaceList>,
    keyless: PlaceList,
    alloc: Global,
}

impl Index {
    /// The index of no clauses.
    pub fn new(alloc: Global) -> Self
        ensures { IsIndex result [] }
    {
        Index {
            first: usize::MAX / 2,
            count: 0,
            keyed: HashMap::new(alloc),
            keyless: PlaceList::new(alloc),
            alloc,
        }
    }

    /// Adds a clause at an end. After an error the index is of no use.
    pub fn add(&mut self, key: Option<Key>, end: End) -> Result<(), AllocError>
        requires { (keys : List (Option Key)) × IsIndex self.old keys }
        ensures { OnOk result ((keys : List (Option Key)) → IsIndex self.old keys → IsIndex self.new (added end key keys)) }
    {
        match end {
            End::First => self.add_first(key),
            End::Last => self.add_last(key),
        }
    }

    fn add_first(&mut self, key: Option<Key>) -> Result<(), AllocError>
        requires { (keys : List (Option Key)) × IsIndex self.old keys }
        ensures { OnOk result ((keys : List (Option Key)) → IsIndex self.old keys → IsIndex self.new (key ∷ keys)) }
    {
        if self.first == 0 {
            return Err(AllocError);
        }
        let number = self.first - 1;
        self.note(key, number, End::First)?;
        self.first = number;
        self.count += 1;
        Ok(())
    }

    fn add_last(&mut self, key: Option<Key>) -> Result<(), AllocError>
        requires { (keys : List (Option Key)) × IsIndex self.old keys }
        ensures { OnOk result ((keys : List (Option Key)) → IsIndex self.old keys → IsIndex self.new (keys ++ key ∷ [])) }
    {
        let number = self.first + self.count;
        if number == usize::MAX {
            return Err(AllocError);
        }
        self.note(key, number, End::Last)?;
        self.count += 1;
        Ok(())
    }

    /// Notes the number of a clause's place.
    fn note(&mut self, key: Option<Key>, number: usize, end: End) -> Result<(), AllocError>
        ensures { OnOk result (HasNoted key number end self.old self.new) }
    {
        match key {
            Some(key) => {
                let mut places = self
                    .keyed
                    .remove(&key)
                    .unwrap_or(PlaceList::new(self.alloc));
                places.add(number, end)?;
                self.keyed.insert(key, places)?;
                Ok(())
            }
            None => self.keyless.add(number, end),
        }
    }

    /// The first place from this one on whose clause may match, or the number of clauses where none from there on may.
    pub fn next(&self, key: &Key, from: usize) -> usize
        requires { (keys : List (Option Key)) × (IsIndex self.now keys × (from ≤ length keys)) }
        ensures later { from ≤ result }
        ensures none { (keys : List (Option Key)) → IsIndex self.now keys → NoneMatches key.now keys from result }
    {
        let start = self.first + from;
        let end = self.first + self.count;
        let keyless = self.keyless.first_from(start, end);
        let keyed = match self.keyed.get(key) {
            Some(places) => places.first_from(start, end),
            None => end,
        };
        keyed.min(keyless) - self.first
    }
}
