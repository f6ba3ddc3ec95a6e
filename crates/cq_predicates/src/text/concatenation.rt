// The predicate that joins two texts, and splits one.

ghost use Rattle.std.specs.Prelude.{◌≡◌, ◌<◌, ◌++◌, length, chars, encode_utf8_all, string_bytes, IfOk, IfErr};
ghost use Rattle.spec_builtins.specs.Alternatives.{Offers};
ghost use Rattle.cq_term.specs.Trees.{KnowsTerms};
ghost use Rattle.cq_built.specs.Errors.{Explains, CanBeRaised};
ghost use Rattle.cq_built.specs.Growing.{Grows};
ghost use Rattle.cq_predicates.specs.Arguments.{IsAtomOr, IsRefused, AreLetPass, three_atom_tests};
ghost use Rattle.cq_predicates.specs.TextRows.{concat_row, StartsSplits};
ghost use Rattle.cq_predicates.specs.Ways.{HasSplitArgs, CanGoOn, offered, joined_way};

use crate::text::arguments::{optional_atom, wanted_text};
use crate::text::characters::characters;
use crate::text::splits::Splits;
use crate::text::ways::{SplitArgs, SplitWays, TextAlternatives, Ways, one_way};
use cq_built::{BuiltinError, BuiltinFault, atom};
use cq_term::atoms::{Atom, Atoms};
use cq_term::{Heap, TermId};
use std::alloc::{AllocError, Global};

/// The names of two texts and the one that they make; none of a variable.
#[derive(Clone, Copy)]
struct ConcatNames {
    first: Option<Atom>,
    last: Option<Atom>,
    whole: Option<Atom>,
}

/// `atom_concat`: two texts joined, or the splits of a text.
pub fn atom_concat(
    heap: &mut Heap,
    atoms: &mut Atoms,
    args: SplitArgs,
    whole: TermId,
) -> Result<TextAlternatives, BuiltinFault>
    requires live { HasSplitArgs heap.old.now.terms args }
    requires whole { whole < length heap.old.now.terms }
    requires names { KnowsTerms atoms.old heap.old.now.terms }
    ensures ok { IfOk result (λ ways. concat_row atoms.old heap.old.now.terms args whole ≡ Offers (offered atoms.new heap.new.now.terms ways)) }
    ensures live { IfOk result (CanGoOn heap.new.now.terms) }
    ensures err { IfErr result (Explains atoms.old heap.old.now.terms (concat_row atoms.old heap.old.now.terms args whole)) }
    ensures culprit { IfErr result (CanBeRaised atoms.old heap.old.now.terms) }
    ensures grows { Grows atoms.old heap.old atoms.new heap.new }
{
    match concat_names(heap, &args, whole) {
        Err(error) => Err(BuiltinFault::Error(error)),
        Ok(names) => match names.whole {
            Some(name) => {
                let ways = splits_of(heap, atoms, name, names.first, names.last, args)?;
                Ok(TextAlternatives {
                    ways: Ways::Splits(ways),
                })
            }
            None => match (names.first, names.last) {
                (Some(first), Some(last)) => {
                    let ways = joined_names(heap, atoms, first, last, whole)?;
                    Ok(ways)
                }
                _ => Err(BuiltinFault::Error(BuiltinError::Instantiation)),
            },
        },
    }
}

/// The names of the arguments, or the error of the first that is bound and no atom.
fn concat_names(heap: &Heap, args: &SplitArgs, whole: TermId) -> Result<ConcatNames, BuiltinError>
    requires live { HasSplitArgs heap.now.now.terms args.now }
    requires whole { whole < length heap.now.now.terms }
    ensures first { IfOk result (λ names. IsAtomOr heap.now.now.terms args.now.first names.first) }
    ensures last { IfOk result (λ names. IsAtomOr heap.now.now.terms args.now.last names.last) }
    ensures whole { IfOk result (λ names. IsAtomOr heap.now.now.terms whole names.whole) }
    ensures passes { IfOk result (λ _. AreLetPass (three_atom_tests heap.now.now.terms args.now whole)) }
    ensures err { IfErr result (IsRefused heap.now.now.terms (three_atom_tests heap.now.now.terms args.now whole)) }
{
    let first = match optional_atom(heap, args.first) {
        Ok(first) => first,
        Err(error) => return Err(error),
    };
    let last = match optional_atom(heap, args.last) {
        Ok(last) => last,
        Err(error) => return Err(error),
    };
    match optional_atom(heap, whole) {
        Ok(whole) => Ok(ConcatNames { first, last, whole }),
        Err(error) => Err(error),
    }
}

/// The splits of a name's text that are as the arguments ask.
fn splits_of(
    heap: &Heap,
    atoms: &Atoms,
    name: Atom,
    first: Option<Atom>,
    last: Option<Atom>,
    args: SplitArgs,
) -> Result<SplitWays, AllocError>
    requires name { name < length atoms.now }
    requires live { HasSplitArgs heap.now.now.terms args }
    requires names { KnowsTerms atoms.now heap.now.now.terms }
    requires first { IsAtomOr heap.now.now.terms args.first first }
    requires last { IsAtomOr heap.now.now.terms args.last last }
    ensures { IfOk result (StartsSplits atoms.now heap.now.now.terms name args) }
{
    let characters = characters(heap.alloc(), atoms.text(name))?;
    let first = wanted_text(heap, atoms, args.first, first)?;
    let last = wanted_text(heap, atoms, args.last, last)?;
    Ok(SplitWays {
        splits: Splits {
            characters,
            first,
            last,
        },
        next: 0,
        args,
    })
}

/// The only way in which the texts of two names are joined.
fn joined_names(
    heap: &mut Heap,
    atoms: &mut Atoms,
    first: Atom,
    last: Atom,
    whole: TermId,
) -> Result<TextAlternatives, AllocError>
    requires first { first < length atoms.old }
    requires last { last < length atoms.old }
    requires whole { whole < length heap.old.now.terms }
    requires names { KnowsTerms atoms.old heap.old.now.terms }
    ensures ok { IfOk result (λ ways. offered atoms.new heap.new.now.terms ways ≡ joined_way atoms.old heap.old.now.terms whole first last) }
    ensures live { IfOk result (CanGoOn heap.new.now.terms) }
    ensures grows { Grows atoms.old heap.old atoms.new heap.new }
{
    let text = joined_texts(heap.alloc(), atoms.text(first), atoms.text(last))?;
    let joined = atom(heap, atoms, &text)?;
    one_way(heap, whole, joined)
}

/// Two texts as one.
fn joined_texts(alloc: Global, first: &str, last: &str) -> Result<String, AllocError>
    ensures { IfOk result (λ text. string_bytes text ≡ encode_utf8_all (chars first.now ++ chars last.now)) }
{
    let mut text = String::from_str(alloc, first)?;
    text.push_str(last)?;
    Ok(text)
}
