// The lines that tell findings.

ghost use Rattle.std.specs.Prelude.{◌≡◌, ◌++◌, ◌≤◌, drop, length, string_bytes, take, IfOk, OnOk};
ghost use Rattle.cq_lint.specs.Lines.{at_of, ends_shown, line_at, lines_of, marked, message, place_of, place_text, predicate_text, shown_from};

use crate::findings::Finding;
use crate::places::{Place, goes_on};
use crate::predicates::Predicate;
use crate::sentences::Variable;
use std::alloc::{AllocError, Global};
use std::fmt::Write;

/// How many bytes of a line are shown, and the rest of their last character.
const SHOWN_BYTES: usize = 100;

/// The lines of findings in the text of a file.
pub fn lines_of(
    alloc: Global,
    file: &str,
    text: &[u8],
    findings: &[Finding],
) -> Result<Vec<u8>, AllocError>
    ensures { IfOk result (λ lines. lines.items ≡ lines_of file.now text.now findings.now) }
{
    let mut lines = Vec::new(alloc);
    let mut place = Place::first();
    for finding in findings {
        place = place.of(text, at_of(finding));
        add_line(alloc, file, text, place, finding, &mut lines)?;
    }
    Ok(lines)
}

/// Where a finding stands.
fn at_of(finding: &Finding) -> usize
    ensures { result ≡ at_of finding.now }
{
    match finding {
        Finding::NoClause(at) => *at,
        Finding::Lone(variable) => variable.at,
        Finding::Undefined(at, _) => *at,
        Finding::Apart(at, _) => *at,
    }
}

/// Adds the line of a finding that stands at a place.
fn add_line(
    alloc: Global,
    file: &str,
    text: &[u8],
    place: Place,
    finding: &Finding,
    lines: &mut Vec<u8>,
) -> Result<(), AllocError>
    ensures { OnOk result (lines.new.items ≡ lines.old.items ++ line_at file.now text.now place finding.now) }
{
    let front = place_text(alloc, file, place)?;
    lines.extend_from_slice(front.as_bytes())?;
    add_message(alloc, text, place, finding, lines)?;
    lines.push(b'\n')?;
    Ok(())
}

/// A place of a file, as a line begins.
fn place_text(alloc: Global, file: &str, place: Place) -> Result<String, AllocError>
    ensures { IfOk result (λ text. string_bytes text ≡ place_text file.now place) }
{
    let line = marked(alloc, ":", place.line)?;
    let column = marked(alloc, ":", place.column)?;
    let mut text = String::from_str(alloc, file)?;
    text.push_str(line.as_str())?;
    text.push_str(column.as_str())?;
    text.push_str(": ")?;
    Ok(text)
}

/// Adds what is said of a finding that stands at a place.
fn add_message(
    alloc: Global,
    text: &[u8],
    place: Place,
    finding: &Finding,
    lines: &mut Vec<u8>,
) -> Result<(), AllocError>
    ensures { OnOk result (lines.new.items ≡ lines.old.items ++ message text.now place finding.now) }
{
    match finding {
        Finding::NoClause(_) => {
            lines.extend_from_slice(b"no clause from here: ")?;
            add_shown(text, place.start, lines)
        }
        Finding::Lone(variable) => {
            lines.extend_from_slice(b"variable occurs once: ")?;
            add_name(variable, lines)
        }
        Finding::Undefined(_, predicate) => {
            lines.extend_from_slice(b"nowhere defined: ")?;
            add_predicate(alloc, predicate, lines)
        }
        Finding::Apart(_, predicate) => {
            lines.extend_from_slice(b"apart from its other clauses: ")?;
            add_predicate(alloc, predicate, lines)
        }
    }
}

/// Adds the name of a variable.
fn add_name(variable: &Variable, lines: &mut Vec<u8>) -> Result<(), AllocError>
    ensures { OnOk result (lines.new.items ≡ lines.old.items ++ variable.now.name) }
{
    lines.extend_from_slice(&variable.name)?;
    Ok(())
}

/// Adds a predicate as NAME/ARITY.
fn add_predicate(
    alloc: Global,
    predicate: &Predicate,
    lines: &mut Vec<u8>,
) -> Result<(), AllocError>
    ensures { OnOk result (lines.new.items ≡ lines.old.items ++ predicate_text predicate.now) }
{
    let arity = marked(alloc, "/", predicate.arity)?;
    lines.extend_from_slice(predicate.name.as_bytes())?;
    lines.extend_from_slice(arity.as_bytes())?;
    Ok(())
}

/// A number behind a mark.
fn marked(alloc: Global, mark: &str, number: usize) -> Result<String, AllocError>
    ensures { IfOk result (λ text. string_bytes text ≡ marked mark.now number) }
{
    format!(in alloc; "{mark}{number}")
}

/// Adds the beginning of the line that starts at a place.
fn add_shown(text: &[u8], start: usize, lines: &mut Vec<u8>) -> Result<(), AllocError>
    ensures { OnOk result (lines.new.items ≡ lines.old.items ++ shown_from 0 (drop start text.now)) }
{
    let Some(line) = text.get(start..) else {
        return Ok(());
    };
    lines.extend_from_slice(&line[..shown_len(line)])?;
    Ok(())
}

/// How many bytes of a line are shown.
fn shown_len(line: &[u8]) -> usize
    ensures within { result ≤ length line.now }
    ensures shown { take result line.now ≡ shown_from 0 line.now }
{
    let mut shown = 0;
    while shown < line.len() {
        if ends_shown(shown, line[shown]) {
            return shown;
        }
        shown += 1;
    }
    shown
}

/// Whether behind so many bytes of a line this one is not shown.
fn ends_shown(shown: usize, byte: u8) -> bool
    ensures { result ≡ ends_shown shown byte }
{
    byte == b'\n' || (shown >= SHOWN_BYTES && !goes_on(byte))
}
