// The lines of an entry: members and runs.
ghost use Rattle.std.specs.Prelude.{◌≡◌, ◌+◌, ◌<◌, ◌≤◌, ◌^◌, length, true, IfOk, IfSome};
ghost use Rattle.std.specs.Option.{option_map};
ghost use Rattle.spec_linear.specs.Form.{IsSumFrom};
ghost use Rattle.spec_log.specs.Log.{seen_after};
ghost use Rattle.spec_log.specs.Verdicts.{are_members, relation_in, pairs_in, member_in, run_in, begins_a_run, counted_in, is_head};
ghost use Rattle.cq_form.specs.Entries.{products_of};
ghost use Rattle.cq_cert.specs.Pieces.{pieces, words_of, size, counted_products};

use crate::words::{cut, fraction, is, pair, whole};
use cq_form::{Constraint, Form};
use cq_frac::Frac;
use cq_frac::row::Entry;
use spec_linear::Relation;
use std::alloc::{AllocError, Global};

/// Whether the line is the first of a log.
pub(crate) fn is_head(line: &[u8]) -> bool
    ensures { result ≡ is_head (words_of line.now) }
{
    is(line, b"clpq proof 1")
}

/// The number behind the word, where the line has these two words.
pub(crate) fn counted(word: &[u8], line: &[u8]) -> Option<u128>
    ensures { result ≡ counted_in word.now (words_of line.now) }
{
    let (first, rest) = cut(line, b' ');
    let (number, more) = cut(rest?, b' ');
    if more.is_some() || !is(first, word) {
        return None;
    }
    whole(number)
}

/// Whether the line's first word is that of a run.
pub(crate) fn begins_a_run(line: &[u8]) -> bool
    ensures { result ≡ begins_a_run (words_of line.now) }
{
    is(cut(line, b' ').0, b"run")
}

/// How the form of a member stands to zero.
fn relation(word: &[u8]) -> Option<Relation>
    ensures { result ≡ relation_in word.now }
{
    if is(word, b"eq") {
        Some(Relation::Eq)
    } else if is(word, b"gt") {
        Some(Relation::Gt)
    } else if is(word, b"ge") {
        Some(Relation::Ge)
    } else if is(word, b"ne") {
        Some(Relation::Ne)
    } else {
        None
    }
}

/// The variables of a member with their coefficients, and the greatest number of a variable up to there, where variables
/// up to `seen` have occurred before and each word belongs there.
fn products(
    alloc: Global,
    seen: usize,
    line: Option<&[u8]>,
) -> Result<Option<(Vec<Entry>, usize)>, AllocError>
    requires room { seen + size (option_map (λ r. r.now) line) < 2 ^ 64 }
    ensures read { IfOk result (λ o. option_map (λ p. products_of p.0.items) o
        ≡ counted_products seen (pairs_in (pieces 32 (option_map (λ r. r.now) line.entry)))) }
    ensures in_order { IfOk result (λ o. IfSome o (λ p. IsSumFrom 0 (products_of p.0.items))) }
    ensures seen { IfOk result (λ o. IfSome o (λ p. (p.1 ≡ seen_after seen (products_of p.0.items))
        × (p.1 ≤ seen + size (option_map (λ r. r.now) line.entry)))) }
{
    let mut entries = Vec::new(alloc);
    let mut greatest = seen;
    let mut last = 0;
    let mut rest = line;
    while let Some(text) = rest {
        let (word, more) = cut(text, b' ');
        let Some((number, factor)) = pair(word) else {
            return Ok(None);
        };
        if number <= last as u128 || number > greatest as u128 + 1 || factor.is_zero() {
            return Ok(None);
        }
        let quantity = number as usize;
        entries.push(Entry { quantity, factor })?;
        greatest = greatest.max(quantity);
        last = quantity;
        rest = more;
    }
    Ok(Some((entries, greatest)))
}

/// A member of a list, and the greatest number of a variable up to there, where variables up to `seen` have occurred
/// before.
pub(crate) fn member(
    alloc: Global,
    seen: usize,
    line: &[u8],
) -> Result<Option<(Constraint, usize)>, AllocError>
    requires room { seen + length line.now < 2 ^ 64 }
    ensures member { IfOk result (λ o. option_map (λ m. m.0) o ≡ member_in seen (words_of line.now)) }
    ensures seen { IfOk result (λ o. IfSome o (λ m. (m.1 ≡ seen_after seen m.0.form.products)
        × (m.1 ≤ seen + length line.now))) }
{
    let (word, rest) = cut(line, b' ');
    let Some(rest) = rest else {
        return Ok(None);
    };
    let (number, more) = cut(rest, b' ');
    let Some(relation) = relation(word) else {
        return Ok(None);
    };
    let Some(constant) = fraction(number) else {
        return Ok(None);
    };
    let Some((entries, greatest)) = products(alloc, seen, more)? else {
        return Ok(None);
    };
    let form = Form::of_entries(constant, entries);
    Ok(Some((Constraint { relation, form }, greatest)))
}

/// A run over so many members.
pub(crate) fn run(
    alloc: Global,
    members: usize,
    line: &[u8],
) -> Result<Option<Vec<(usize, Frac)>>, AllocError>
    ensures read { IfOk result (λ o. option_map (λ v. v.items) o ≡ run_in members (words_of line.now)) }
    ensures members { IfOk result (λ o. IfSome o (λ v. are_members members v.items ≡ true)) }
{
    let (word, entries) = cut(line, b' ');
    if entries.is_none() || !is(word, b"run") {
        return Ok(None);
    }
    let mut found = Vec::new(alloc);
    let mut rest = entries;
    while let Some(text) = rest {
        let (word, more) = cut(text, b' ');
        let Some((number, multiplier)) = pair(word) else {
            return Ok(None);
        };
        if number == 0 || number > members as u128 {
            return Ok(None);
        }
        found.push((number as usize, multiplier))?;
        rest = more;
    }
    Ok(Some(found))
}
