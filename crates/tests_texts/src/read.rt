// Texts with what stands in them.

ghost use Rattle.std.specs.Prelude.{◌≡◌, ◌<◌, false, length};
ghost use Rattle.cq_term.specs.Trees.{KnowsTerms};

use cq_ops::Ops;
use cq_read::{Fed, Feed, Read, read_clause};
use cq_term::atoms::Atoms;
use cq_term::{Heap, TermId};
use cq_write::{Style, write_term};
use std::alloc::{AllocError, Global};
use std::str;
use std::test::Fail;

/// A clause as it is written, with how many variables it names and the place behind it.
fn clause_text(
    heap: &Heap,
    atoms: &Atoms,
    ops: &Ops,
    term: TermId,
    count: usize,
    next: usize,
) -> Result<String, AllocError>
    requires live { term < length heap.now.now.terms }
    requires names { KnowsTerms atoms.now heap.now.now.terms }
{
    let bytes = write_term(heap, atoms, ops, term, Style::Quoted, 1200, &[])?;
    match str::from_utf8(&bytes) {
        Ok(text) => format!(in heap.alloc(); "{text} {count} {next}"),
        Err(_) => Ok(String::new(heap.alloc())),
    }
}

/// What stands at a place: a clause, the end, or a fault with its place and where the rest begins.
fn standing(alloc: Global, text: &str, at: usize) -> Result<String, AllocError> {
    let mut heap = Heap::new(alloc);
    let mut atoms = Atoms::new(alloc);
    let ops = Ops::standard(alloc, &mut atoms)?;
    if at > text.len() {
        return Ok(String::new(alloc));
    }
    match read_clause(&mut heap, &mut atoms, &ops, text.as_bytes(), at)? {
        Read::Clause { term, names, next } => {
            clause_text(&heap, &atoms, &ops, term, names.len(), next)
        }
        Read::End => String::from_str(alloc, "end"),
        Read::Syntax { at, resume } => format!(in alloc; "syntax {at} {resume}"),
    }
}

/// Texts, a place in each, and what stands there.
static ROWS: [(&str, usize, &str); 54] = [
    ("", 0, "end"),
    (" % nothing", 0, "end"),
    ("a. /* b. */ ", 2, "end"),
    ("a.", 0, "a 0 2"),
    ("a. b.\n", 2, "b 0 5"),
    ("1.", 0, "1 0 2"),
    ("-1.", 0, "-1 0 3"),
    ("X.", 0, "_1 1 2"),
    ("(X).", 0, "_1 1 4"),
    ("\"ab\".", 0, "[97,98] 0 5"),
    ("[].", 0, "[] 0 3"),
    ("[a,X].", 0, "[a,_1] 1 6"),
    ("[a|X].", 0, "[a|_1] 1 6"),
    ("[a,b|c].", 0, "[a,b|c] 0 8"),
    ("{}.", 0, "{} 0 3"),
    ("{a,X}.", 0, "{a,_1} 1 6"),
    ("f(a).", 0, "f(a) 0 5"),
    ("f(-1,[a]).", 0, "f(-1,[a]) 0 10"),
    ("a+1.", 0, "a+1 0 4"),
    ("a+a-1.", 0, "a+a-1 0 6"),
    ("\\+a+1.", 0, "\\+a+1 0 6"),
    ("(a,a)+1.", 0, "(a,a)+1 0 8"),
    ("a,a+1.", 0, "a,a+1 0 6"),
    ("+ .", 0, "+ 0 3"),
    ("aa a.", 0, "syntax 3 5"),
    ("[a,].", 0, "syntax 3 5"),
    ("{a).", 0, "syntax 2 4"),
    ("a", 0, "syntax 1 1"),
    (".", 0, "syntax 0 1"),
    ("?- write(a).", 0, "?-write(a) 0 12"),
    ("?- {X = ", 0, "syntax 8 8"),
    ("?- a b. true.", 0, "syntax 5 7"),
    ("?- a b. true.", 7, "true 0 13"),
    ("?- X = 1.5.", 0, "syntax 8 11"),
    (
        "?- X = 170141183460469231731687303715884105728.",
        0,
        "syntax 7 47",
    ),
    (
        "?- {X=170141183460469231731687303715884105727*2}.",
        0,
        "?-{_1=170141183460469231731687303715884105727*2} 1 49",
    ),
    (
        "?- X = 'hello world', Y = [a|T], Z = -(1), W = (a:-b).",
        0,
        "?-_1='hello world',_2=[a|_3],_4= -(1),_5=(a:-b) 5 54",
    ),
    (
        "p(X,_,Y,_,X,_Z):-q(Y),\n r.",
        0,
        "p(_1,_2,_3,_4,_1,_5):-q(_3),r 3 26",
    ),
    ("- 1.", 0, "-(1) 0 4"),
    ("a- -1.", 0, "a-(-1) 0 6"),
    (
        "f(0'a,0x1F,1r3,\"ab\",'it''s','\\x41\\').",
        0,
        "f(97,31,1r3,[97,98],'it\\'s','A') 0 37",
    ),
    ("{}. [].", 3, "[] 0 7"),
    ("{a,b}.", 0, "{a,b} 0 6"),
    ("a:-b,!;c->d.", 0, "a:-b,!;c->d 0 12"),
    ("\\+a. - (1). -(1).", 4, "-(1) 0 11"),
    ("äÖ(Ä,é).", 0, "äÖ(Ä,é) 0 12"),
    (" . a.", 0, "syntax 1 2"),
    ("f(. g(. a.", 0, "syntax 2 3"),
    ("f(. g(. a.", 3, "syntax 6 7"),
    ("f(. g(. a.", 7, "a 0 10"),
    ("'ab. c.\nd. e.", 0, "syntax 7 10"),
    ("a /* b. c", 0, "syntax 9 9"),
    ("a b 'x", 0, "syntax 2 6"),
    ("a % b.\n. c", 0, "a 0 8"),
];

/// The place of the first row with something else.
fn first_wrong(alloc: Global) -> Result<Option<usize>, AllocError> {
    for (place, (text, at, want)) in ROWS.iter().enumerate() {
        if standing(alloc, text, *at)?.as_str() != *want {
            return Ok(Some(place));
        }
    }
    Ok(None)
}

#[test]
fn places_have_what_stands_there(rt: HostRuntime) -> Result<(), Fail> {
    assert_eq!(rt; first_wrong(rt.alloc())?, None);
    Ok(())
}

/// What was read, as far as these tests compare it.
#[derive(Clone, Copy, PartialEq, Eq)]
enum Outcome {
    /// How many named variables, and the place behind.
    Clause(usize, usize),
    End,
    Syntax(usize, usize),
}

fn outcome_of(read: &Read) -> Outcome {
    match read {
        Read::Clause { names, next, .. } => Outcome::Clause(names.len(), *next),
        Read::End => Outcome::End,
        Read::Syntax { at, resume } => Outcome::Syntax(*at, *resume),
    }
}

/// What is read from a place of a text on, up to its end.
fn read_whole(
    heap: &mut Heap,
    atoms: &mut Atoms,
    ops: &Ops,
    text: &[u8],
) -> Result<Vec<Outcome>, AllocError> {
    let mut found = Vec::new(heap.alloc());
    let mut place = 0;
    for _turn in 0..64 {
        let read = read_clause(heap, atoms, ops, text, place)?;
        found.push(outcome_of(&read))?;
        match read {
            Read::Clause { next, .. } => place = next,
            Read::End => return Ok(found),
            Read::Syntax { resume, .. } => place = resume,
        }
    }
    Ok(found)
}

/// Reads on in a feed until it needs more or is at its end.
fn drain(
    feed: &mut Feed,
    heap: &mut Heap,
    atoms: &mut Atoms,
    ops: &Ops,
    found: &mut Vec<Outcome>,
) -> Result<(), AllocError>
    ensures { feed.new.finished ≡ feed.old.finished }
{
    for _turn in 0..64 {
        match feed.next(heap, atoms, ops)? {
            Fed::Needs => return Ok(()),
            Fed::Read(read) => {
                found.push(outcome_of(&read))?;
                if matches!(read, Read::End) {
                    return Ok(());
                }
            }
        }
    }
    Ok(())
}

/// What a feed reads of a text in pieces of so many bytes.
fn read_pieces(
    heap: &mut Heap,
    atoms: &mut Atoms,
    ops: &Ops,
    text: &[u8],
    size: usize,
) -> Result<Vec<Outcome>, AllocError>
    requires { 0 < size }
{
    let mut found = Vec::new(heap.alloc());
    let mut feed = Feed::new(heap.alloc());
    for piece in text.chunks(size) {
        feed.push(piece)?;
        drain(&mut feed, heap, atoms, ops, &mut found)?;
    }
    feed.finish();
    drain(&mut feed, heap, atoms, ops, &mut found)?;
    Ok(found)
}

/// Whether pieces of so many bytes read as the whole text does.
fn agree(
    heap: &mut Heap,
    atoms: &mut Atoms,
    ops: &Ops,
    text: &str,
    size: usize,
) -> Result<bool, AllocError>
    requires { 0 < size }
{
    let whole = read_whole(heap, atoms, ops, text.as_bytes())?;
    let pieces = read_pieces(heap, atoms, ops, text.as_bytes(), size)?;
    Ok(whole == pieces)
}

/// Whether pieces of one, two and seven bytes read as the whole text does.
fn all_agree(
    heap: &mut Heap,
    atoms: &mut Atoms,
    ops: &Ops,
    text: &str,
) -> Result<bool, AllocError> {
    let one = agree(heap, atoms, ops, text, 1)?;
    let two = agree(heap, atoms, ops, text, 2)?;
    let seven = agree(heap, atoms, ops, text, 7)?;
    Ok(one && two && seven)
}

static TEXTS: [&str; 12] = [
    "",
    "a. b.\n c(X,Y,X).\n",
    "p:-q,r.% comment.\n/* more. */ s.\n",
    "f(. g(. a.\n",
    "'ab. c.\nd. e.\n",
    "'a\\q. b' . c. 'd''. e'. f.\n",
    "a /* b. c",
    "f(a",
    "x = \"a. b\". 0'a. 0'. . a.b. c.\n",
    "1.5. 2. 170141183460469231731687303715884105728. 3.\n",
    "0000170141183460469231731687303715884105728. 1r0. 0r0. 000r00. b. 00x1. 007.\n",
    "ä. é(Ö). `. \u{a0}.\n",
];

/// Whether a text that is read in pieces is read as a whole.
fn reads_alike(alloc: Global, text: &str) -> Result<bool, AllocError> {
    let mut atoms = Atoms::new(alloc);
    let ops = Ops::standard(alloc, &mut atoms)?;
    all_agree(&mut Heap::new(alloc), &mut atoms, &ops, text)
}

fn first_unlike(alloc: Global) -> Result<Option<usize>, AllocError> {
    for (place, text) in TEXTS.iter().enumerate() {
        if !reads_alike(alloc, text)? {
            return Ok(Some(place));
        }
    }
    Ok(None)
}

#[test]
fn pieces_read_as_the_whole_text(rt: HostRuntime) -> Result<(), Fail> {
    assert_eq!(rt; first_unlike(rt.alloc())?, None);
    Ok(())
}

/// Whether the feed's next answer is a clause that ends at a place.
fn reads_clause(
    feed: &mut Feed,
    heap: &mut Heap,
    atoms: &mut Atoms,
    ops: &Ops,
    next: usize,
) -> Result<bool, AllocError>
    ensures { feed.new.finished ≡ feed.old.finished }
{
    match feed.next(heap, atoms, ops)? {
        Fed::Read(read) => Ok(outcome_of(&read) == Outcome::Clause(0, next)),
        Fed::Needs => Ok(false),
    }
}

/// The same behind one more piece.
fn piece_reads_clause(
    feed: &mut Feed,
    heap: &mut Heap,
    atoms: &mut Atoms,
    ops: &Ops,
    piece: &[u8],
    next: usize,
) -> Result<bool, AllocError>
    requires { feed.old.finished ≡ false }
    ensures { feed.new.finished ≡ false }
{
    feed.push(piece)?;
    reads_clause(feed, heap, atoms, ops, next)
}

static PIECES: [(&[u8], usize, bool); 4] = [
    (b"a. b.", 2, true),
    (b"", 5, false),
    (b"\n", 5, true),
    (b"c.", 8, false),
];

/// Whether the pieces are read as they should be.
fn are_read(
    feed: &mut Feed,
    heap: &mut Heap,
    atoms: &mut Atoms,
    ops: &Ops,
) -> Result<bool, AllocError>
    requires { feed.old.finished ≡ false }
    ensures { feed.new.finished ≡ false }
{
    for (piece, next, want) in &PIECES {
        if piece_reads_clause(feed, heap, atoms, ops, piece, *next)? != *want {
            return Ok(false);
        }
    }
    Ok(true)
}

fn waits_for_what_follows(alloc: Global) -> Result<bool, AllocError> {
    let mut atoms = Atoms::new(alloc);
    let ops = Ops::standard(alloc, &mut atoms)?;
    let mut heap = Heap::new(alloc);
    let mut feed = Feed::new(alloc);
    let read = are_read(&mut feed, &mut heap, &mut atoms, &ops)?;
    feed.finish();
    let last = reads_clause(&mut feed, &mut heap, &mut atoms, &ops, 8)?;
    Ok(read && last)
}

#[test]
fn a_final_full_stop_waits_for_what_follows(rt: HostRuntime) -> Result<(), Fail> {
    assert!(rt; waits_for_what_follows(rt.alloc())?);
    Ok(())
}
