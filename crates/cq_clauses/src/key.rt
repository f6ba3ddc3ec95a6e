// The kinds of first arguments, by which clauses are looked up.

ghost use Rattle.std.specs.Prelude.{◌≡◌, ◌+◌, Option, nat_abs};
ghost use Rattle.spec_numbers.specs.Rational.{denominator};
ghost use Rattle.std.specs.Cmp.{partial_equiv_from_equiv};
ghost use Rattle.cq_clauses.specs.Keys.{same_key, writes_of};
ghost use Rattle.cq_clauses.specs.Alike.{same_key-equiv, writes_alike};

use cq_frac::Frac;
use cq_term::atoms::Atom;
use std::hash::{Hash, Hasher};

/// What a first argument is that is no variable, as far as a look-up tells: terms with keys that differ have no unifier.
#[derive(Clone, Copy)]
pub enum Key {
    Number(Frac),
    Name(Atom),
    /// The name of a compound term, and how many arguments it has.
    Compound(Atom, usize),
}

impl PartialEq for Key {
    ghost eq = { same_key };

    ghost laws = { partial_equiv_from_equiv same_key-equiv };

    fn eq(&self, other: &Key) -> bool {
        match self {
            Key::Number(left) => match other {
                Key::Number(right) => left == right,
                _ => false,
            },
            Key::Name(left) => match other {
                Key::Name(right) => left == right,
                _ => false,
            },
            Key::Compound(left, left_count) => match other {
                Key::Compound(right, right_count) => left == right && left_count == right_count,
                _ => false,
            },
        }
    }
}

impl Eq for Key {
    ghost laws = { same_key-equiv };
}

impl Hash for Key {
    ghost hash_input = { writes_of };

    ghost respects_eq = { writes_alike };

    fn hash<H: Hasher>(&self, state: &mut H) {
        match self {
            Key::Number(number) => state.write_u128(spread(*number)),
            Key::Name(name) | Key::Compound(name, _) => name.hash(state),
        }
    }
}

/// The parts of a number added up: an equal sum for equal numbers, and mostly another one for another number.
fn spread(number: Frac) -> u128
    ensures { result ≡ nat_abs number.numerator + denominator number }
{
    let (numerator, denominator) = number.parts();
    numerator.unsigned_abs() + denominator.unsigned_abs()
}

/// Tells the key of a clause by what it holds.
pub trait Keyed {
    ghost use Rattle.cq_clauses.specs.declared.key.Key.{Key};

    ghost key_of: { Self → Option Key };

    /// The key of the head's first argument; None where the head has no argument, or a variable as its first.
    fn key(&self) -> Option<Key>
        ensures { result ≡ key_of self.now };
}
