// The predicates, by name and number of arguments.

ghost use Rattle.std.specs.Prelude.{◌≡◌, bytes_eq};
ghost use Rattle.std.specs.Option.{option_map};
ghost use Rattle.spec_builtins.specs.Built.{indicator};
ghost use Rattle.spec_search.specs.Predicates.{arity, predicate_named};
ghost use Rattle.cq_predicates.specs.Found.{IsFirst};
ghost use Rattle.cq_predicates.specs.Names.{as_predicate};

use crate::codes::Conversion;
use cq_builtin::{Comparison, TypeTest};

/// A predicate on terms or texts.
#[derive(Clone, Copy, PartialEq, Eq)]
pub enum Predicate {
    Order(Comparison),
    Test(TypeTest),
    Functor,
    Arg,
    Univ,
    CopyTerm,
    Convert(Conversion),
    AtomLength,
    AtomConcat,
    SubAtom,
}

impl Predicate {
    /// How many arguments it has.
    pub fn arity(self) -> usize
        ensures { result ≡ arity (as_predicate self) }
    {
        match self {
            Predicate::Test(_) => 1,
            Predicate::Functor | Predicate::Arg | Predicate::AtomConcat => 3,
            Predicate::SubAtom => 5,
            Predicate::Order(_)
            | Predicate::Univ
            | Predicate::CopyTerm
            | Predicate::Convert(_)
            | Predicate::AtomLength => 2,
        }
    }

    /// The predicate of a name with so many arguments, if there is one.
    pub fn named(name: &str, arity: usize) -> Option<Predicate>
        ensures { option_map as_predicate result ≡ predicate_named (indicator name.now arity) }
    {
        match arity {
            1 => of_one(name),
            2 => of_two(name),
            3 => of_three(name),
            5 => of_five(name),
            _ => None,
        }
    }
}

/// The predicate of one argument.
fn of_one(name: &str) -> Option<Predicate>
    ensures { option_map as_predicate result ≡ predicate_named (indicator name.now 1) }
{
    let tests = [
        ("var", Predicate::Test(TypeTest::Var)),
        ("nonvar", Predicate::Test(TypeTest::Nonvar)),
        ("atom", Predicate::Test(TypeTest::Atom)),
        ("number", Predicate::Test(TypeTest::Number)),
        ("integer", Predicate::Test(TypeTest::Integer)),
        ("rational", Predicate::Test(TypeTest::Number)),
        ("atomic", Predicate::Test(TypeTest::Atomic)),
        ("compound", Predicate::Test(TypeTest::Compound)),
        ("callable", Predicate::Test(TypeTest::Callable)),
        ("is_list", Predicate::Test(TypeTest::List)),
    ];
    among(&tests, name)
}

/// The predicate of two arguments.
fn of_two(name: &str) -> Option<Predicate>
    ensures { option_map as_predicate result ≡ predicate_named (indicator name.now 2) }
{
    let predicates = [
        ("==", Predicate::Order(Comparison::Same)),
        ("\\==", Predicate::Order(Comparison::NotSame)),
        ("@<", Predicate::Order(Comparison::Before)),
        ("@=<", Predicate::Order(Comparison::BeforeOrSame)),
        ("@>", Predicate::Order(Comparison::After)),
        ("@>=", Predicate::Order(Comparison::AfterOrSame)),
        ("=..", Predicate::Univ),
        ("copy_term", Predicate::CopyTerm),
        ("atom_length", Predicate::AtomLength),
        ("atom_chars", Predicate::Convert(Conversion::AtomChars)),
        ("atom_codes", Predicate::Convert(Conversion::AtomCodes)),
        ("char_code", Predicate::Convert(Conversion::CharCode)),
        ("number_codes", Predicate::Convert(Conversion::NumberCodes)),
    ];
    among(&predicates, name)
}

/// The predicate of three arguments.
fn of_three(name: &str) -> Option<Predicate>
    ensures { option_map as_predicate result ≡ predicate_named (indicator name.now 3) }
{
    let predicates = [
        ("functor", Predicate::Functor),
        ("arg", Predicate::Arg),
        ("atom_concat", Predicate::AtomConcat),
    ];
    among(&predicates, name)
}

/// The predicate of five arguments.
fn of_five(name: &str) -> Option<Predicate>
    ensures { option_map as_predicate result ≡ predicate_named (indicator name.now 5) }
{
    among(&[("sub_atom", Predicate::SubAtom)], name)
}

/// The first predicate that has this name.
fn among(named: &[(&str, Predicate)], name: &str) -> Option<Predicate>
    ensures { IsFirst (λ row. bytes_eq row.0.now name.now) (λ row. row.1) named.now result }
{
    for (other, predicate) in named {
        if *other == name {
            return Some(*predicate);
        }
    }
    None
}
