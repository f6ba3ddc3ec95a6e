// Places of clauses in the order of a list, by numbers that rise.

ghost use Rattle.std.specs.Prelude.{◌≡◌, ◌≤◌, [], OnOk};
ghost use Rattle.cq_clauses.specs.Numbered.{IsRising, NoneWithin};
ghost use Rattle.cq_clauses.specs.Database.{added};

use crate::list::End;
use std::alloc::{AllocError, Global};
use std::collections::VecDeque;
use std::marker::Model;

/// Numbers of places. Contracts see the list of them.
#[derive(Drop)]
pub struct PlaceList {
    numbers: VecDeque<usize>,
}

impl Model for PlaceList {
    ghost use Rattle.std.specs.Prelude.{ℕ, List};

    ghost Value = { List ℕ };

    ghost view = { λ p. p.numbers.items };
}

impl PlaceList {
    /// No numbers; it takes no memory until the first is added.
    pub fn new(alloc: Global) -> Self
        ensures { result ≡ [] }
    {
        PlaceList {
            numbers: VecDeque::new(alloc),
        }
    }

    /// Adds a number at an end. After an error the numbers are as they were.
    pub fn add(&mut self, number: usize, end: End) -> Result<(), AllocError>
        ensures { OnOk result (self.new ≡ added end number self.old) }
    {
        match end {
            End::First => self.numbers.push_front(number)?,
            End::Last => self.numbers.push_back(number)?,
        }
        Ok(())
    }

    /// The least number that isn't less than `from`, or `end` where all are less.
    pub fn first_from(&self, from: usize, end: usize) -> usize
        requires rising { IsRising self.now }
        requires order { from ≤ end }
        ensures later { from ≤ result }
        ensures none { NoneWithin self.now from result }
    {
        let place = match self.numbers.binary_search(&from) {
            Ok(place) | Err(place) => place,
        };
        match self.numbers.get(place) {
            Some(number) => *number,
            None => end,
        }
    }
}
