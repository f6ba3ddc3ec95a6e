// The predicate that looks for parts of texts.

ghost use Rattle.std.specs.Prelude.{◌≡◌, ◌<◌, length, IfOk, IfErr};
ghost use Rattle.spec_builtins.specs.Alternatives.{Offers};
ghost use Rattle.spec_terms.specs.Term.{Name};
ghost use Rattle.cq_term.specs.Meaning.{at};
ghost use Rattle.cq_term.specs.Trees.{KnowsTerms};
ghost use Rattle.cq_built.specs.Errors.{Explains, CanBeRaised};
ghost use Rattle.cq_predicates.specs.Arguments.{IsAtomOr, IsRefused, AreLetPass, part_tests};
ghost use Rattle.cq_predicates.specs.Ways.{HasPartArgs, CanGoOn, offered};
ghost use Rattle.cq_predicates.specs.TextRows.{parts_row, StartsParts};

use crate::text::arguments::{
    atom_argument, counts_error, optional_atom, wanted_count, wanted_text,
};
use crate::text::characters::characters;
use crate::text::parts::Parts;
use crate::text::sought::{Place, Sought};
use crate::text::ways::{PartArgs, PartWays, TextAlternatives, Ways};
use cq_built::{BuiltinError, BuiltinFault};
use cq_term::atoms::{Atom, Atoms};
use cq_term::{Heap, TermId};
use std::alloc::AllocError;

/// The names among the arguments of a part.
#[derive(Clone, Copy)]
struct PartNames {
    text: Atom,
    part: Option<Atom>,
}

/// `sub_atom`: the parts of an atom's text that are as the arguments ask, by their place and then by their length.
pub fn sub_atom(
    heap: &Heap,
    atoms: &Atoms,
    text: TermId,
    args: PartArgs,
) -> Result<TextAlternatives, BuiltinFault>
    requires text { text < length heap.now.now.terms }
    requires live { HasPartArgs heap.now.now.terms args }
    requires names { KnowsTerms atoms.now heap.now.now.terms }
    ensures ok { IfOk result (λ ways. parts_row atoms.now heap.now.now.terms text args ≡ Offers (offered atoms.now heap.now.now.terms ways)) }
    ensures live { IfOk result (CanGoOn heap.now.now.terms) }
    ensures err { IfErr result (Explains atoms.now heap.now.now.terms (parts_row atoms.now heap.now.now.terms text args)) }
    ensures culprit { IfErr result (CanBeRaised atoms.now heap.now.now.terms) }
{
    match part_names(heap, text, &args) {
        Ok(names) => {
            let parts = parts_of(heap, atoms, names, args)?;
            Ok(TextAlternatives {
                ways: Ways::Parts(parts),
            })
        }
        Err(error) => Err(BuiltinFault::Error(error)),
    }
}

/// The names among the arguments of a part, or the error of the first argument that is none of those allowed.
fn part_names(heap: &Heap, text: TermId, args: &PartArgs) -> Result<PartNames, BuiltinError>
    requires text { text < length heap.now.now.terms }
    requires live { HasPartArgs heap.now.now.terms args.now }
    ensures text { IfOk result (λ names. at heap.now.now.terms text ≡ Name names.text) }
    ensures part { IfOk result (λ names. IsAtomOr heap.now.now.terms args.now.part names.part) }
    ensures passes { IfOk result (λ _. AreLetPass (part_tests heap.now.now.terms text args.now)) }
    ensures err { IfErr result (IsRefused heap.now.now.terms (part_tests heap.now.now.terms text args.now)) }
{
    let name = match atom_argument(heap, text) {
        Ok(name) => name,
        Err(error) => return Err(error),
    };
    let part = match optional_atom(heap, args.part) {
        Ok(part) => part,
        Err(error) => return Err(error),
    };
    match counts_error(heap, args) {
        Some(error) => Err(error),
        None => Ok(PartNames { text: name, part }),
    }
}

/// The parts of a name's text that are as the arguments ask.
fn parts_of(
    heap: &Heap,
    atoms: &Atoms,
    names: PartNames,
    args: PartArgs,
) -> Result<PartWays, AllocError>
    requires text { names.text < length atoms.now }
    requires live { HasPartArgs heap.now.now.terms args }
    requires names { KnowsTerms atoms.now heap.now.now.terms }
    requires part { IsAtomOr heap.now.now.terms args.part names.part }
    ensures { IfOk result (StartsParts atoms.now heap.now.now.terms names.text args) }
{
    let characters = characters(heap.alloc(), atoms.text(names.text))?;
    let part = wanted_text(heap, atoms, args.part, names.part)?;
    let sought = Sought {
        before: wanted_count(heap, args.before),
        len: wanted_count(heap, args.len),
        after: wanted_count(heap, args.after),
        part,
    };
    Ok(PartWays {
        parts: Parts { characters, sought },
        next: Place { before: 0, len: 0 },
        args,
    })
}
