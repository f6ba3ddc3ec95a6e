// The check of a log, line by line.
ghost use Rattle.std.specs.Prelude.{◌≡◌, ℕ, ◌+◌, ◌-◌, ◌<◌, ◌≤◌, ◌^◌, List, length, IfOk};
ghost use Rattle.std.specs.List.{AllByRecursion};
ghost use Rattle.spec_linear.specs.Solution.{Unsolvable};
ghost use Rattle.spec_log.specs.Log.{Entry, log_text};
ghost use Rattle.spec_log.specs.Verdicts.{between as found_between, finish as found_last, listed as found_listed, listing, member_in, proved as found_proved, proved_twice, run_in, step as found_step, sum_of, verdict};
ghost use Rattle.cq_cert.specs.Pieces.{words_of};
ghost use Rattle.cq_cert.specs.Places.{place_of, counts, IsSound, Leads};

use crate::lines::{begins_a_run, counted, is_head, member, run};
use crate::sums::{are_false_runs, is_false_run, weighed};
use crate::words::cut;
use cq_form::{Constraint, Form};
use cq_frac::Frac;
use spec_log::Verdict;
use std::alloc::{AllocError, Global};

/// A list of which so many members are still to come. Variables up to a number have occurred in it.
#[derive(Drop)]
pub(crate) struct OpenList {
    entries: usize,
    left: u128,
    seen: usize,
    members: Vec<Constraint>,
}

/// A list with all its members.
#[derive(Drop)]
pub(crate) struct WholeList {
    entries: usize,
    members: Vec<Constraint>,
}

/// A list, a first run over it, and what the run's multiples add up to.
#[derive(Drop)]
pub(crate) struct FirstRun {
    entries: usize,
    members: Vec<Constraint>,
    run: Vec<(usize, Frac)>,
    sum: Form,
}

/// Where a check stands. Each place knows how many entries there were.
#[derive(Drop)]
pub(crate) enum Place {
    /// Before the first line.
    Start,
    /// Where a list or the end comes.
    Between(usize),
    Listing(OpenList),
    /// Behind the members of a list.
    Proving(WholeList),
    /// Behind a first run.
    Proved(FirstRun),
    Ended(usize),
}

/// What is behind a line.
#[derive(Drop)]
pub(crate) enum Step {
    Goes(Place),
    Ends(Verdict),
}

/// What comes where so many members of a list are to come.
fn open(entries: usize, left: u128, seen: usize, members: Vec<Constraint>) -> Place
    ensures place { place_of result ≡ listing entries left seen members.items }
    ensures sound { IsSound result }
    ensures counts { counts result ≤ entries + seen }
{
    if left == 0 {
        Place::Proving(WholeList { entries, members })
    } else {
        Place::Listing(OpenList {
            entries,
            left,
            seen,
            members,
        })
    }
}

/// A list or the end.
fn between(alloc: Global, line: usize, entries: usize, text: &[u8]) -> Step
    ensures { Leads (found_between line entries (words_of text.now)) entries result }
{
    if let Some(left) = counted(b"list", text) {
        return Step::Goes(open(entries, left, 0, Vec::new(alloc)));
    }
    match counted(b"done", text) {
        Some(n) if n == entries as u128 => Step::Goes(Place::Ended(entries)),
        _ => Step::Ends(Verdict::Wrong(line)),
    }
}

/// A member of a list.
fn listed(alloc: Global, line: usize, list: OpenList, text: &[u8]) -> Result<Step, AllocError>
    requires left { 0 < list.left }
    requires room { list.seen + length text.now < 2 ^ 64 }
    ensures { IfOk result (Leads (found_listed line list.entries (list.left - 1) list.seen list.members.items
        (member_in list.seen (words_of text.now))) (list.entries + list.seen + length text.now)) }
{
    let Some((found, seen)) = member(alloc, list.seen, text)? else {
        return Ok(Step::Ends(Verdict::Wrong(line)));
    };
    let mut members = list.members;
    members.push(found)?;
    Ok(Step::Goes(open(list.entries, list.left - 1, seen, members)))
}

/// A first run over a list.
fn proved(alloc: Global, line: usize, list: WholeList, text: &[u8]) -> Result<Step, AllocError>
    ensures { IfOk result (Leads (found_proved line list.entries list.members.items
        (run_in (length list.members.items) (words_of text.now))) list.entries) }
{
    let Some(run) = run(alloc, list.members.len(), text)? else {
        return Ok(Step::Ends(Verdict::Wrong(line)));
    };
    match weighed(alloc, &list.members, &run)? {
        Some(sum) => Ok(Step::Goes(Place::Proved(FirstRun {
            entries: list.entries,
            members: list.members,
            run,
            sum,
        }))),
        None => Ok(Step::Ends(Verdict::Wide(line))),
    }
}

/// A second run over a list.
fn proved_again(
    alloc: Global,
    line: usize,
    first: FirstRun,
    text: &[u8],
) -> Result<Step, AllocError>
    requires sum { first.sum ≡ sum_of first.members.items first.run.items }
    requires room { first.entries + 1 < 2 ^ 64 }
    ensures { IfOk result (Leads (proved_twice line first.entries first.members.items first.run.items
        (run_in (length first.members.items) (words_of text.now))) (first.entries + 1)) }
{
    let Some(run) = run(alloc, first.members.len(), text)? else {
        return Ok(Step::Ends(Verdict::Wrong(line)));
    };
    let Some(sum) = weighed(alloc, &first.members, &run)? else {
        return Ok(Step::Ends(Verdict::Wide(line)));
    };
    if are_false_runs(&first.members, &first.run, &first.sum, &run, &sum) {
        Ok(Step::Goes(Place::Between(first.entries + 1)))
    } else {
        Ok(Step::Ends(Verdict::Wrong(line)))
    }
}

/// A second run, or what comes behind an entry of one.
fn behind_run(alloc: Global, line: usize, first: FirstRun, text: &[u8]) -> Result<Step, AllocError>
    requires sum { first.sum ≡ sum_of first.members.items first.run.items }
    requires room { first.entries + 1 < 2 ^ 64 }
    requires line { 0 < line }
    ensures { IfOk result (Leads (found_step line (place_of (Place.Proved first)) (words_of text.now)) (first.entries + 1)) }
{
    if begins_a_run(text) {
        return proved_again(alloc, line, first, text);
    }
    if is_false_run(&first.members, &first.run, &first.sum) {
        return Ok(between(alloc, line, first.entries + 1, text));
    }
    Ok(Step::Ends(Verdict::Wrong(line - 1)))
}

/// A line of this number.
fn read_line(alloc: Global, line: usize, place: Place, text: &[u8]) -> Result<Step, AllocError>
    requires sound { IsSound place }
    requires room { counts place + length text.now + 1 < 2 ^ 64 }
    requires line { 0 < line }
    ensures { IfOk result (Leads (found_step line (place_of place) (words_of text.now)) (counts place + length text.now + 1)) }
{
    match place {
        Place::Start if is_head(text) => Ok(Step::Goes(Place::Between(0))),
        Place::Start => Ok(Step::Ends(Verdict::Wrong(line))),
        Place::Between(entries) => Ok(between(alloc, line, entries, text)),
        Place::Listing(list) => listed(alloc, line, list, text),
        Place::Proving(list) => proved(alloc, line, list, text),
        Place::Proved(first) => behind_run(alloc, line, first, text),
        Place::Ended(_) => Ok(Step::Ends(Verdict::Wrong(line))),
    }
}

/// What is found behind the last line feed.
fn finish(line: usize, place: Place, text: &[u8]) -> Verdict
    requires sound { IsSound place }
    requires line { 0 < line }
    ensures { result ≡ found_last line (place_of place) text.now }
{
    match place {
        Place::Ended(entries) if text.is_empty() => Verdict::Accepted(entries),
        Place::Proved(first) => {
            if begins_a_run(text) || is_false_run(&first.members, &first.run, &first.sum) {
                Verdict::Wrong(line)
            } else {
                Verdict::Wrong(line - 1)
            }
        }
        _ => Verdict::Wrong(line),
    }
}

/// Whether the text is a log, and no list in it has a solution; or the first line that is wrong, or at which numbers are too
/// wide. It takes one pass, and time in proportion to the text and to what runs add up.
pub fn check_log(alloc: Global, log: &[u8]) -> Result<Verdict, AllocError>
    requires room { length log.now + 1 < 2 ^ 64 }
    ensures exact { IfOk result (λ v. v ≡ verdict log.now) }
    ensures sound { IfOk result (λ v. (n : ℕ) → v ≡ Verdict.Accepted n → (es : List Entry) × (length es ≡ n)
        × (log.now ≡ log_text es) × AllByRecursion (λ e. Unsolvable e.list) es) }
{
    let (mut text, mut rest) = cut(log, b'\n');
    let mut place = Place::Start;
    let mut line = 1;
    while let Some(next) = rest {
        match read_line(alloc, line, place, text)? {
            Step::Goes(other) => place = other,
            Step::Ends(found) => return Ok(found),
        }
        line += 1;
        let (head, tail) = cut(next, b'\n');
        text = head;
        rest = tail;
    }
    Ok(finish(line, place, text))
}
