// The marks of a pattern's compounds, from the right to the left.

ghost use Rattle.std.specs.Prelude.{◌≡◌, ◌<◌, ◌≤◌, ◌+◌, ◌^◌, ◌∷◌, ℕ, length, map, take, drop, OnOk, get_or};
ghost use Rattle.cq_term.specs.declared.view.View.TheVariants.{Compound};
ghost use Rattle.cq_resolve.specs.Pattern.{AreHeads, read};
ghost use Rattle.cq_resolve.specs.Marks.{shown, widths, tops, AreMet, AreSized};
ghost use Rattle.cq_resolve.specs.declared.stored.part.Part.{Part};

use crate::stored::part::Part;
use cq_term::Atom;
use std::alloc::AllocError;

/// Marks each compound with where it ends and with the variables in it. Memory for more than `u32::MAX` parts is never had.
pub(crate) fn mark(parts: &mut Vec<Part>) -> Result<(), AllocError>
    requires { (count : ℕ) × (count < 2 ^ 64) × AreHeads count (map shown parts.old.items) }
    ensures shown { map shown parts.new.items ≡ map shown parts.old.items }
    ensures met { (m : ℕ) → AreMet m parts.old.items → AreMet m parts.new.items }
    ensures sized { OnOk result (AreSized parts.new.items) }
{
    for i in (0..parts.len()).rev() {
        if let Some((arity, name)) = parts[i].as_compound() {
            mark_one(parts, i, arity, name)?;
        }
    }
    Ok(())
}

/// Marks the compound at a place, behind which all are marked.
fn mark_one(parts: &mut Vec<Part>, place: usize, arity: u32, name: Atom) -> Result<(), AllocError>
    requires fits { (count : ℕ) × (count < 2 ^ 64) × AreHeads count (map shown parts.old.items) }
    requires within { place < length parts.old.items }
    requires compound { (p : Part) → shown (get_or parts.old.items place p) ≡ Compound name arity }
    requires sized { AreSized (drop (place + 1) parts.old.items) }
    ensures shown { map shown parts.new.items ≡ map shown parts.old.items }
    ensures met { (m : ℕ) → AreMet m parts.old.items → AreMet m parts.new.items }
    ensures sized { OnOk result (AreSized (drop place parts.new.items)) }
{
    let (end, top) = extent(parts, place + 1, arity);
    let Ok(size) = u32::try_from(end - place) else {
        return Err(AllocError);
    };
    let Ok(top) = u32::try_from(top) else {
        return Err(AllocError);
    };
    parts[place] = Part::Compound {
        arity,
        size,
        top,
        name,
    };
    Ok(())
}

/// Where so many terms end that begin at a place, and one more than the greatest number of a variable in them, or 0 where
/// there is none.
fn extent(parts: &[Part], place: usize, count: u32) -> (usize, usize)
    requires fits { (n : ℕ) × (n < 2 ^ 64) × AreHeads n (map shown parts.now) }
    requires within { place ≤ length parts.now }
    requires sized { AreSized (drop place parts.now) }
    requires enough { count ≤ length (read (drop place (map shown parts.now))) }
    ensures end { result.0 ≡ place + widths (take count (read (drop place (map shown parts.now)))) }
    ensures top { result.1 ≡ tops (take count (read (drop place (map shown parts.now)))) }
    ensures within { result.0 ≤ length parts.now }
{
    let mut end = place;
    let mut top = 0;
    for _ in 0..count {
        let part = &parts[end];
        end += part.size();
        top = part.top().max(top);
    }
    (end, top)
}
