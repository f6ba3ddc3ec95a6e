// Calls of the predicates on texts.

ghost use Rattle.std.specs.Prelude.{◌≡◌, ◌<◌, All, length, IfOk, IfErr, OnErr};
ghost use Rattle.cq_term.specs.Trees.{KnowsTerms};
ghost use Rattle.cq_built.specs.Errors.{Explains, CanBeRaised};
ghost use Rattle.cq_predicates.specs.Calls.{solutions_on};
ghost use Rattle.cq_built.specs.Growing.{Grows};
ghost use Rattle.spec_builtins.specs.Alternatives.{Offers};
ghost use Rattle.cq_predicates.specs.TextRows.{length_row, concat_row};
ghost use Rattle.cq_predicates.specs.Ways.{HasSplitArgs, offered};
ghost use Rattle.cq_predicates.specs.Ways as ways_of_text;
ghost use Rattle.cq_predicates.specs.Given.{CanGoOn, Gives, Adds};

use crate::codes::{Conversion, convert};
use crate::predicates::Predicate;
use crate::solutions::{Solutions, Ways};
use crate::text::{PartArgs, SplitArgs, TextAlternatives, atom_concat, atom_length, sub_atom};
use cq_built::BuiltinFault;
use cq_term::atoms::Atoms;
use cq_term::{Heap, TermId};
use cq_trail::Undo;

/// A value and its characters or codes.
pub(crate) fn converted(
    heap: &mut Heap,
    atoms: &mut Atoms,
    conversion: Conversion,
    args: &[TermId],
) -> Result<Solutions, BuiltinFault>
    requires arity { length args.now ≡ 2 }
    requires live { All (λ id. id < length heap.old.now.terms) args.now }
    requires names { KnowsTerms atoms.old heap.old.now.terms }
    ensures offered { IfOk result (Gives atoms.new heap.old.now heap.new.now (solutions_on atoms.old heap.old.now (Predicate.Convert conversion) args.now)) }
    ensures live { IfOk result (CanGoOn heap.new.now.terms) }
    ensures fault { IfErr result (Explains atoms.old heap.old.now.terms (solutions_on atoms.old heap.old.now (Predicate.Convert conversion) args.now)) }
    ensures culprit { IfErr result (CanBeRaised atoms.old heap.old.now.terms) }
    ensures adds { Adds atoms.old heap.old atoms.new heap.new }
    ensures err { OnErr result (heap.new.now ≡ heap.old.now) }
{
    match convert(heap, atoms, conversion, args[0], args[1]) {
        Ok(pair) => Ok(Solutions {
            given_back: None,
            ways: Ways::Pair(Some(pair)),
        }),
        Err(fault) => Err(fault),
    }
}

/// How many characters an atom has.
pub(crate) fn measured(
    heap: &mut Heap,
    atoms: &Atoms,
    args: &[TermId],
) -> Result<Solutions, BuiltinFault>
    requires arity { length args.now ≡ 2 }
    requires live { All (λ id. id < length heap.old.now.terms) args.now }
    requires names { KnowsTerms atoms.now heap.old.now.terms }
    ensures offered { IfOk result (Gives atoms.now heap.old.now heap.new.now (solutions_on atoms.now heap.old.now Predicate.AtomLength args.now)) }
    ensures live { IfOk result (CanGoOn heap.new.now.terms) }
    ensures fault { IfErr result (Explains atoms.now heap.old.now.terms (solutions_on atoms.now heap.old.now Predicate.AtomLength args.now)) }
    ensures culprit { IfErr result (CanBeRaised atoms.now heap.old.now.terms) }
    ensures adds { Adds atoms.now heap.old atoms.now heap.new }
    ensures err { OnErr result (heap.new.now ≡ heap.old.now) }
{
    let ways = length_ways(heap, atoms, args[0], args[1])?;
    Ok(Solutions {
        given_back: None,
        ways: Ways::Texts(ways),
    })
}

/// Two texts and the one that they make.
pub(crate) fn joined(
    heap: &mut Heap,
    atoms: &mut Atoms,
    args: &[TermId],
) -> Result<Solutions, BuiltinFault>
    requires arity { length args.now ≡ 3 }
    requires live { All (λ id. id < length heap.old.now.terms) args.now }
    requires names { KnowsTerms atoms.old heap.old.now.terms }
    ensures offered { IfOk result (Gives atoms.new heap.old.now heap.new.now (solutions_on atoms.old heap.old.now Predicate.AtomConcat args.now)) }
    ensures live { IfOk result (CanGoOn heap.new.now.terms) }
    ensures fault { IfErr result (Explains atoms.old heap.old.now.terms (solutions_on atoms.old heap.old.now Predicate.AtomConcat args.now)) }
    ensures culprit { IfErr result (CanBeRaised atoms.old heap.old.now.terms) }
    ensures adds { Adds atoms.old heap.old atoms.new heap.new }
    ensures err { OnErr result (heap.new.now ≡ heap.old.now) }
{
    let split = SplitArgs {
        first: args[0],
        last: args[1],
    };
    let ways = concat_ways(heap, atoms, split, args[2])?;
    Ok(Solutions {
        given_back: None,
        ways: Ways::Texts(ways),
    })
}

/// The parts of a text.
pub(crate) fn parted(heap: &Heap, atoms: &Atoms, args: &[TermId]) -> Result<Solutions, BuiltinFault>
    requires arity { length args.now ≡ 5 }
    requires live { All (λ id. id < length heap.now.now.terms) args.now }
    requires names { KnowsTerms atoms.now heap.now.now.terms }
    ensures offered { IfOk result (Gives atoms.now heap.now.now heap.now.now (solutions_on atoms.now heap.now.now Predicate.SubAtom args.now)) }
    ensures live { IfOk result (CanGoOn heap.now.now.terms) }
    ensures fault { IfErr result (Explains atoms.now heap.now.now.terms (solutions_on atoms.now heap.now.now Predicate.SubAtom args.now)) }
    ensures culprit { IfErr result (CanBeRaised atoms.now heap.now.now.terms) }
{
    let part = PartArgs {
        before: args[1],
        len: args[2],
        after: args[3],
        part: args[4],
    };
    let ways = sub_atom(heap, atoms, args[0], part)?;
    Ok(Solutions {
        given_back: None,
        ways: Ways::Texts(ways),
    })
}

/// The ways of `atom_length`. After a fault the heap is as it was.
fn length_ways(
    heap: &mut Heap,
    atoms: &Atoms,
    text: TermId,
    len: TermId,
) -> Result<TextAlternatives, BuiltinFault>
    requires text { text < length heap.old.now.terms }
    requires len { len < length heap.old.now.terms }
    requires names { KnowsTerms atoms.now heap.old.now.terms }
    ensures ok { IfOk result (λ ways. length_row atoms.now heap.old.now.terms text len ≡ Offers (offered atoms.now heap.new.now.terms ways)) }
    ensures live { IfOk result (ways_of_text.CanGoOn heap.new.now.terms) }
    ensures fault { IfErr result (Explains atoms.now heap.old.now.terms (length_row atoms.now heap.old.now.terms text len)) }
    ensures culprit { IfErr result (CanBeRaised atoms.now heap.old.now.terms) }
    ensures grows { Grows atoms.now heap.old atoms.now heap.new }
    ensures err { OnErr result (heap.new.now ≡ heap.old.now) }
{
    let m = heap.mark()?;
    match atom_length(heap, atoms, text, len) {
        Ok(ways) => {
            heap.forget(m);
            Ok(ways)
        }
        Err(fault) => {
            heap.undo(m);
            Err(fault)
        }
    }
}

/// The ways of `atom_concat`. After a fault the heap is as it was; names may stay.
fn concat_ways(
    heap: &mut Heap,
    atoms: &mut Atoms,
    split: SplitArgs,
    whole: TermId,
) -> Result<TextAlternatives, BuiltinFault>
    requires live { HasSplitArgs heap.old.now.terms split }
    requires whole { whole < length heap.old.now.terms }
    requires names { KnowsTerms atoms.old heap.old.now.terms }
    ensures ok { IfOk result (λ ways. concat_row atoms.old heap.old.now.terms split whole ≡ Offers (offered atoms.new heap.new.now.terms ways)) }
    ensures live { IfOk result (ways_of_text.CanGoOn heap.new.now.terms) }
    ensures fault { IfErr result (Explains atoms.old heap.old.now.terms (concat_row atoms.old heap.old.now.terms split whole)) }
    ensures culprit { IfErr result (CanBeRaised atoms.old heap.old.now.terms) }
    ensures grows { Grows atoms.old heap.old atoms.new heap.new }
    ensures err { OnErr result (heap.new.now ≡ heap.old.now) }
{
    let m = heap.mark()?;
    match atom_concat(heap, atoms, split, whole) {
        Ok(ways) => {
            heap.forget(m);
            Ok(ways)
        }
        Err(fault) => {
            heap.undo(m);
            Err(fault)
        }
    }
}
