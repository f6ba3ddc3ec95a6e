// What is found in the sentences of a text.

ghost use Rattle.std.specs.Prelude.{◌≡◌, ◌++◌, length, IfOk, OnOk};
ghost use Rattle.spec_builtins.specs.Built.{indicator};
ghost use Rattle.spec_search.specs.Builtins.{is_built_in};
ghost use Rattle.cq_lint.specs.Findings.{apart_at, clause_findings, findings_in, findings_of, passed_by, is_lone, is_marked, is_undefined, lone_if, lone_in, occurrences, passed_with, undefined_if, undefined_in};

use crate::known::Known;
use crate::predicates::{Predicate, has};
use crate::scattered::Passed;
use crate::sentences::{Clause, Sentence, Variable};
use cq_predicates::table::Builtin;
use std::alloc::{AllocError, Global};

/// A finding, with the byte of the text where it stands.
#[derive(Drop)]
pub enum Finding {
    /// The text is no clause from here.
    NoClause(usize),
    /// A variable that occurs once in its clause.
    Lone(Variable),
    /// A clause that begins here calls a predicate that is nowhere defined.
    Undefined(usize, Predicate),
    /// A clause that begins here stands apart from the earlier ones of its predicate.
    Apart(usize, Predicate),
}

/// What is found in the sentences of a text, in their order, where this is known of all texts.
pub fn findings_of(
    alloc: Global,
    known: &Known,
    sentences: &[Sentence],
) -> Result<Vec<Finding>, AllocError>
    ensures { IfOk result (λ found. found.items ≡ findings_of known.now sentences.now) }
{
    let mut found = Vec::new(alloc);
    let mut passed = Passed::new(alloc);
    for sentence in sentences {
        look_at(alloc, known, &mut passed, sentence, &mut found)?;
    }
    Ok(found)
}

/// Adds what is found in a sentence, and passes it.
fn look_at(
    alloc: Global,
    known: &Known,
    passed: &mut Passed,
    sentence: &Sentence,
    found: &mut Vec<Finding>,
) -> Result<(), AllocError>
    ensures found { OnOk result (found.new.items ≡ found.old.items ++ findings_in known.now passed.old sentence.now) }
    ensures passed { OnOk result (passed.new ≡ passed_by passed.old sentence.now) }
{
    match sentence {
        Sentence::Fault(at) => {
            found.push(Finding::NoClause(*at))?;
            Ok(())
        }
        Sentence::Clause(clause) => {
            look_at_clause(alloc, known, passed, clause, found)?;
            pass(passed, &clause.head)
        }
    }
}

/// Passes a clause.
fn pass(passed: &mut Passed, head: &Option<Predicate>) -> Result<(), AllocError>
    ensures { OnOk result (passed.new ≡ passed_with passed.old head.now) }
{
    match head {
        Some(head) => passed.pass(head),
        None => Ok(()),
    }
}

/// Adds what is found in a clause.
fn look_at_clause(
    alloc: Global,
    known: &Known,
    passed: &Passed,
    clause: &Clause,
    found: &mut Vec<Finding>,
) -> Result<(), AllocError>
    ensures { OnOk result (found.new.items ≡ found.old.items ++ clause_findings known.now passed.now clause.now) }
{
    add_apart(alloc, known, passed, clause, found)?;
    add_undefined(alloc, known, clause, found)?;
    add_lone(alloc, clause, found)
}

/// Adds that a clause stands apart, if it does.
fn add_apart(
    alloc: Global,
    known: &Known,
    passed: &Passed,
    clause: &Clause,
    found: &mut Vec<Finding>,
) -> Result<(), AllocError>
    ensures { OnOk result (found.new.items ≡ found.old.items ++ apart_at known.now passed.now clause.now.at clause.now.head) }
{
    let Some(head) = &clause.head else {
        return Ok(());
    };
    if !passed.is_apart(known, head) {
        return Ok(());
    }
    let predicate = head.copy(alloc)?;
    found.push(Finding::Apart(clause.at, predicate))?;
    Ok(())
}

/// Adds the predicates that a clause calls and that are nowhere defined.
fn add_undefined(
    alloc: Global,
    known: &Known,
    clause: &Clause,
    found: &mut Vec<Finding>,
) -> Result<(), AllocError>
    ensures { OnOk result (found.new.items ≡ found.old.items ++ undefined_in known.now clause.now) }
{
    for predicate in &clause.calls {
        add_if_undefined(alloc, known, clause.at, predicate, found)?;
    }
    Ok(())
}

/// Adds that a predicate is nowhere defined, if so.
fn add_if_undefined(
    alloc: Global,
    known: &Known,
    at: usize,
    predicate: &Predicate,
    found: &mut Vec<Finding>,
) -> Result<(), AllocError>
    ensures { OnOk result (found.new.items ≡ found.old.items ++ undefined_if known.now at predicate.now) }
{
    if is_undefined(known, predicate) {
        let predicate = predicate.copy(alloc)?;
        found.push(Finding::Undefined(at, predicate))?;
    }
    Ok(())
}

/// Whether a predicate is in no clause's head, in no declaration and not built in.
fn is_undefined(known: &Known, predicate: &Predicate) -> bool
    ensures { result ≡ is_undefined known.now predicate.now }
{
    !is_built_in(predicate) && !has(&known.defined, predicate)
}

/// Whether a predicate is built in.
fn is_built_in(predicate: &Predicate) -> bool
    ensures { result ≡ is_built_in predicate.now }
{
    has_built_in(predicate.name.as_str(), predicate.arity)
}

/// Whether a name with so many arguments is built in.
fn has_built_in(name: &str, arity: usize) -> bool
    ensures { result ≡ is_built_in (indicator name.now arity) }
{
    Builtin::named(name, arity).is_some()
}

/// Adds the variables that occur once in a clause.
fn add_lone(alloc: Global, clause: &Clause, found: &mut Vec<Finding>) -> Result<(), AllocError>
    ensures { OnOk result (found.new.items ≡ found.old.items ++ lone_in clause.now) }
{
    if clause.is_query {
        return Ok(());
    }
    for variable in &clause.variables {
        add_if_lone(alloc, &clause.variables, variable, found)?;
    }
    Ok(())
}

/// Adds that a variable occurs once among these, if it does.
fn add_if_lone(
    alloc: Global,
    variables: &[Variable],
    variable: &Variable,
    found: &mut Vec<Finding>,
) -> Result<(), AllocError>
    ensures { OnOk result (found.new.items ≡ found.old.items ++ lone_if variables.now variable.now) }
{
    if is_lone(variables, variable) {
        let variable = variable.copy(alloc)?;
        found.push(Finding::Lone(variable))?;
    }
    Ok(())
}

/// Whether a variable has a name that no other has, and that does not begin with `_`.
fn is_lone(variables: &[Variable], variable: &Variable) -> bool
    ensures { result ≡ is_lone variables.now variable.now }
{
    !is_marked(&variable.name) && occurrences(variables, &variable.name) == 1
}

/// Whether a name begins with `_`.
fn is_marked(name: &[u8]) -> bool
    ensures { result ≡ is_marked name.now }
{
    match name.first() {
        Some(b) => *b == b'_',
        None => false,
    }
}

/// How many of the variables have the name.
fn occurrences(variables: &[Variable], name: &[u8]) -> usize
    ensures { result ≡ length (occurrences name.now variables.now) }
{
    let mut count = 0;
    for variable in variables {
        if variable.name.as_slice() == name {
            count += 1;
        }
    }
    count
}
