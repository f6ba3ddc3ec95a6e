// The built-in predicates, by name and number of arguments.

ghost use Rattle.std.specs.Prelude.{◌≡◌};
ghost use Rattle.std.specs.Option.{option_map};
ghost use Rattle.spec_builtins.specs.Built.{indicator};
ghost use Rattle.spec_search.specs.Builtins.{builtin_of};
ghost use Rattle.cq_predicates.specs.TableFound.{IsFirst};
ghost use Rattle.cq_predicates.specs.TableNames.{as_builtin};
ghost use Rattle.cq_predicates.specs.TableRows.{AreRows, is_named};

use crate::Predicate;
use crate::codes::Conversion;
use cq_builtin::{Comparison, TypeTest};
use spec_text::writing::Style;

/// A built-in predicate of control, unification or arithmetic that most goals of programs call.
#[derive(Clone, Copy, PartialEq, Eq)]
pub enum Common {
    True,
    And,
    Or,
    Cut,
    Unify,
    Is,
    Compare(Comparison),
}

/// A built-in predicate.
#[derive(Clone, Copy, PartialEq, Eq)]
pub enum Builtin {
    Common(Common),
    Fail,
    IfThen,
    Not,
    Call,
    Once,
    Catch,
    Throw,
    Findall,
    NotUnify,
    /// A predicate on terms or texts.
    Predicate(Predicate),
    Asserta,
    Assertz,
    Retract,
    Clause,
    Dynamic,
    Discontiguous,
    Initialization,
    UseModule,
    Op,
    Write(Style),
    Newline,
    Curly,
    Freeze,
    Entailed,
    Sup,
    Inf,
    Maximize,
    Minimize,
}

/// A built-in predicate and its name.
pub(crate) type Row = (&'static str, Builtin);

impl Builtin {
    /// The built-in predicate of a name with so many arguments, if there is one.
    pub fn named(name: &str, arity: usize) -> Option<Builtin>
        ensures { option_map as_builtin result ≡ builtin_of (indicator name.now arity) }
    {
        among(rows(arity), name)
    }
}

/// The built-in predicates with so many arguments.
pub(crate) fn rows(arity: usize) -> &'static [Row]
    ensures { AreRows arity result.now }
{
    match arity {
        0 => of_none(),
        1 => of_one(),
        2 => of_two(),
        3 => of_three(),
        4 => of_four(),
        5 => of_five(),
        6 => of_six(),
        7 => of_seven(),
        8 => of_eight(),
        _ => &[],
    }
}

/// Those without arguments.
fn of_none() -> &'static [Row]
    ensures { AreRows 0 result.now }
{
    &[
        ("true", Builtin::Common(Common::True)),
        ("fail", Builtin::Fail),
        ("!", Builtin::Common(Common::Cut)),
        ("nl", Builtin::Newline),
    ]
}

/// Those with one argument.
fn of_one() -> &'static [Row]
    ensures { AreRows 1 result.now }
{
    &[
        ("call", Builtin::Call),
        ("\\+", Builtin::Not),
        ("once", Builtin::Once),
        ("throw", Builtin::Throw),
        ("var", Builtin::Predicate(Predicate::Test(TypeTest::Var))),
        (
            "nonvar",
            Builtin::Predicate(Predicate::Test(TypeTest::Nonvar)),
        ),
        ("atom", Builtin::Predicate(Predicate::Test(TypeTest::Atom))),
        (
            "number",
            Builtin::Predicate(Predicate::Test(TypeTest::Number)),
        ),
        (
            "integer",
            Builtin::Predicate(Predicate::Test(TypeTest::Integer)),
        ),
        (
            "rational",
            Builtin::Predicate(Predicate::Test(TypeTest::Number)),
        ),
        (
            "atomic",
            Builtin::Predicate(Predicate::Test(TypeTest::Atomic)),
        ),
        (
            "compound",
            Builtin::Predicate(Predicate::Test(TypeTest::Compound)),
        ),
        (
            "callable",
            Builtin::Predicate(Predicate::Test(TypeTest::Callable)),
        ),
        (
            "is_list",
            Builtin::Predicate(Predicate::Test(TypeTest::List)),
        ),
        ("asserta", Builtin::Asserta),
        ("assertz", Builtin::Assertz),
        ("retract", Builtin::Retract),
        ("dynamic", Builtin::Dynamic),
        ("discontiguous", Builtin::Discontiguous),
        ("initialization", Builtin::Initialization),
        ("use_module", Builtin::UseModule),
        ("write", Builtin::Write(Style::Plain)),
        ("writeq", Builtin::Write(Style::Quoted)),
        ("{}", Builtin::Curly),
        ("entailed", Builtin::Entailed),
        ("maximize", Builtin::Maximize),
        ("minimize", Builtin::Minimize),
    ]
}

/// Those with two arguments.
fn of_two() -> &'static [Row]
    ensures { AreRows 2 result.now }
{
    &[
        (",", Builtin::Common(Common::And)),
        (";", Builtin::Common(Common::Or)),
        ("->", Builtin::IfThen),
        ("=", Builtin::Common(Common::Unify)),
        ("\\=", Builtin::NotUnify),
        ("call", Builtin::Call),
        ("is", Builtin::Common(Common::Is)),
        ("=:=", Builtin::Common(Common::Compare(Comparison::Same))),
        (
            "=\\=",
            Builtin::Common(Common::Compare(Comparison::NotSame)),
        ),
        ("<", Builtin::Common(Common::Compare(Comparison::Before))),
        (
            "=<",
            Builtin::Common(Common::Compare(Comparison::BeforeOrSame)),
        ),
        (">", Builtin::Common(Common::Compare(Comparison::After))),
        (
            ">=",
            Builtin::Common(Common::Compare(Comparison::AfterOrSame)),
        ),
        ("==", Builtin::Predicate(Predicate::Order(Comparison::Same))),
        (
            "\\==",
            Builtin::Predicate(Predicate::Order(Comparison::NotSame)),
        ),
        (
            "@<",
            Builtin::Predicate(Predicate::Order(Comparison::Before)),
        ),
        (
            "@=<",
            Builtin::Predicate(Predicate::Order(Comparison::BeforeOrSame)),
        ),
        (
            "@>",
            Builtin::Predicate(Predicate::Order(Comparison::After)),
        ),
        (
            "@>=",
            Builtin::Predicate(Predicate::Order(Comparison::AfterOrSame)),
        ),
        ("=..", Builtin::Predicate(Predicate::Univ)),
        ("copy_term", Builtin::Predicate(Predicate::CopyTerm)),
        ("atom_length", Builtin::Predicate(Predicate::AtomLength)),
        (
            "atom_chars",
            Builtin::Predicate(Predicate::Convert(Conversion::AtomChars)),
        ),
        (
            "atom_codes",
            Builtin::Predicate(Predicate::Convert(Conversion::AtomCodes)),
        ),
        (
            "char_code",
            Builtin::Predicate(Predicate::Convert(Conversion::CharCode)),
        ),
        (
            "number_codes",
            Builtin::Predicate(Predicate::Convert(Conversion::NumberCodes)),
        ),
        ("clause", Builtin::Clause),
        ("freeze", Builtin::Freeze),
        ("sup", Builtin::Sup),
        ("inf", Builtin::Inf),
    ]
}

/// Those with three arguments.
fn of_three() -> &'static [Row]
    ensures { AreRows 3 result.now }
{
    &[
        ("call", Builtin::Call),
        ("catch", Builtin::Catch),
        ("findall", Builtin::Findall),
        ("functor", Builtin::Predicate(Predicate::Functor)),
        ("arg", Builtin::Predicate(Predicate::Arg)),
        ("atom_concat", Builtin::Predicate(Predicate::AtomConcat)),
        ("op", Builtin::Op),
    ]
}

/// Those with four arguments.
fn of_four() -> &'static [Row]
    ensures { AreRows 4 result.now }
{
    &[("call", Builtin::Call)]
}

/// Those with five arguments.
fn of_five() -> &'static [Row]
    ensures { AreRows 5 result.now }
{
    &[
        ("call", Builtin::Call),
        ("sub_atom", Builtin::Predicate(Predicate::SubAtom)),
    ]
}

/// Those with six arguments.
fn of_six() -> &'static [Row]
    ensures { AreRows 6 result.now }
{
    &[("call", Builtin::Call)]
}

/// Those with seven arguments.
fn of_seven() -> &'static [Row]
    ensures { AreRows 7 result.now }
{
    &[("call", Builtin::Call)]
}

/// Those with eight arguments.
fn of_eight() -> &'static [Row]
    ensures { AreRows 8 result.now }
{
    &[("call", Builtin::Call)]
}

/// The first that has this name.
fn among(rows: &[Row], name: &str) -> Option<Builtin>
    ensures { IsFirst (is_named name.now) (λ row. row.1) rows.now result }
{
    for (other, builtin) in rows {
        if *other == name {
            return Some(*builtin);
        }
    }
    None
}
