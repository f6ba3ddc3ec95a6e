// The names that build expressions, and those of relations.

ghost use Rattle.std.specs.Prelude.{◌≡◌};
ghost use Rattle.spec_branch.specs.Expressions.{unary_name, binary_name};
ghost use Rattle.spec_branch.specs.Relations.{relation_name};
ghost use Rattle.cq_cexpr.specs.Names.{unary_meant, binary_meant, relation_meant};

/// What a name with one argument builds.
#[derive(Clone, Copy)]
pub(crate) enum Unary {
    Same,
    Opposite,
    Absolute,
}

/// What a name with two arguments builds.
#[derive(Clone, Copy)]
pub(crate) enum Binary {
    Plus,
    Minus,
    Times,
    Over,
    Power,
    Least,
    Greatest,
}

/// How the left side of a relation stands to the right one.
#[derive(Clone, Copy)]
pub(crate) enum Comparison {
    Equals,
    Differs,
    Greater,
    GreaterOrEqual,
    Lesser,
    LesserOrEqual,
}

/// What the name with one argument builds, if it builds an expression.
pub(crate) fn unary_named(name: &str) -> Option<Unary>
    ensures { unary_meant result ≡ unary_name name.now }
{
    if name == "+" {
        Some(Unary::Same)
    } else if name == "-" {
        Some(Unary::Opposite)
    } else if name == "abs" {
        Some(Unary::Absolute)
    } else {
        None
    }
}

/// What the name with two arguments builds, if it builds an expression.
pub(crate) fn binary_named(name: &str) -> Option<Binary>
    ensures { binary_meant result ≡ binary_name name.now }
{
    if name == "+" {
        Some(Binary::Plus)
    } else if name == "-" {
        Some(Binary::Minus)
    } else if name == "*" {
        Some(Binary::Times)
    } else if name == "/" {
        Some(Binary::Over)
    } else if name == "pow" || name == "^" {
        Some(Binary::Power)
    } else if name == "min" {
        Some(Binary::Least)
    } else if name == "max" {
        Some(Binary::Greatest)
    } else {
        None
    }
}

/// The relation of the name with two arguments, if it is one.
pub(crate) fn relation_named(name: &str) -> Option<Comparison>
    ensures { relation_meant result ≡ relation_name name.now }
{
    if name == "=" || name == "=:=" {
        Some(Comparison::Equals)
    } else if name == "=\\=" {
        Some(Comparison::Differs)
    } else if name == ">" {
        Some(Comparison::Greater)
    } else if name == ">=" {
        Some(Comparison::GreaterOrEqual)
    } else if name == "<" {
        Some(Comparison::Lesser)
    } else if name == "=<" {
        Some(Comparison::LesserOrEqual)
    } else {
        None
    }
}
