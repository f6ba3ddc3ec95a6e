// The conversions, each as one call.

ghost use Rattle.std.specs.Prelude.{◌≡◌, ◌<◌, length, IfOk, IfErr, OnErr};
ghost use Rattle.cq_term.specs.Trees.{KnowsTerms};
ghost use Rattle.cq_term.specs.Pairs.{IsLive};
ghost use Rattle.cq_built.specs.Growing.{Grows};
ghost use Rattle.cq_built.specs.Errors.{Explains, CanBeRaised};
ghost use Rattle.cq_predicates.specs.CodesRows.{IsOffered, conversion_of};

use crate::codes::character_codes::char_code;
use crate::codes::elements::ElementKind;
use crate::codes::lists::atom_list;
use crate::codes::number_lists::number_codes;
use cq_built::BuiltinFault;
use cq_term::atoms::Atoms;
use cq_term::walk::Pair;
use cq_term::{Heap, TermId};
use cq_trail::Undo;

/// The predicates `atom_chars`, `atom_codes`, `char_code` and `number_codes`.
#[derive(Clone, Copy, PartialEq, Eq)]
pub enum Conversion {
    AtomChars,
    AtomCodes,
    CharCode,
    NumberCodes,
}

/// The pair that is to be unified where a predicate holds of a value and its characters or codes. `atoms` has to know the
/// names in the heap's terms. It takes time linear in the text. After a fault the heap is as it was; names may stay.
pub fn convert(
    heap: &mut Heap,
    atoms: &mut Atoms,
    conversion: Conversion,
    value: TermId,
    spelled: TermId,
) -> Result<Pair, BuiltinFault>
    requires value { value < length heap.old.now.terms }
    requires spelled { spelled < length heap.old.now.terms }
    requires names { KnowsTerms atoms.old heap.old.now.terms }
    ensures offered { IfOk result (IsOffered (conversion_of conversion atoms.old heap.old.now.terms value spelled) atoms.new heap.new.now.terms) }
    ensures live { IfOk result (IsLive heap.new.now.terms) }
    ensures fault { IfErr result (Explains atoms.old heap.old.now.terms (conversion_of conversion atoms.old heap.old.now.terms value spelled)) }
    ensures culprit { IfErr result (CanBeRaised atoms.old heap.old.now.terms) }
    ensures grows { Grows atoms.old heap.old atoms.new heap.new }
    ensures err { OnErr result (heap.new.now ≡ heap.old.now) }
{
    let m = heap.mark()?;
    match converted(heap, atoms, conversion, value, spelled) {
        Ok(pair) => {
            heap.forget(m);
            Ok(pair)
        }
        Err(fault) => {
            heap.undo(m);
            Err(fault)
        }
    }
}

/// The same, where a fault may leave parts of the terms on the heap.
fn converted(
    heap: &mut Heap,
    atoms: &mut Atoms,
    conversion: Conversion,
    value: TermId,
    spelled: TermId,
) -> Result<Pair, BuiltinFault>
    requires value { value < length heap.old.now.terms }
    requires spelled { spelled < length heap.old.now.terms }
    requires names { KnowsTerms atoms.old heap.old.now.terms }
    ensures offered { IfOk result (IsOffered (conversion_of conversion atoms.old heap.old.now.terms value spelled) atoms.new heap.new.now.terms) }
    ensures live { IfOk result (IsLive heap.new.now.terms) }
    ensures fault { IfErr result (Explains atoms.old heap.old.now.terms (conversion_of conversion atoms.old heap.old.now.terms value spelled)) }
    ensures culprit { IfErr result (CanBeRaised atoms.old heap.old.now.terms) }
    ensures grows { Grows atoms.old heap.old atoms.new heap.new }
{
    match conversion {
        Conversion::AtomChars => { atom_list(heap, atoms, ElementKind::Characters, value, spelled) }
        Conversion::AtomCodes => atom_list(heap, atoms, ElementKind::Codes, value, spelled),
        Conversion::CharCode => char_code(heap, atoms, value, spelled),
        Conversion::NumberCodes => number_codes(heap, atoms, value, spelled),
    }
}
