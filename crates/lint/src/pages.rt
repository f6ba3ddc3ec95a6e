// The texts of files, and what stands in them.

ghost use Rattle.std.specs.Prelude.{◌≡◌, ◌++◌, map, string_bytes, IfOk, IfErr, OnOk};
ghost use Rattle.spec_syntax.specs.Standard.{standard};
ghost use Rattle.cq_ops.specs.Tables.{AreNamed, named};
ghost use Rattle.lint.specs.Causes.{CountedBy};
ghost use Rattle.lint.specs.Endings.{AreMissing, IsMissing};
ghost use Rattle.lint.specs.Pages.{AreRead, IsLoaded, IsPage, known_of, page_report, report_of};

use cq_lint::{Known, Sentence, findings_of, lines_of, read_sentences};
use cq_ops::Ops;
use cq_outside::{Shelf, ShelfFault};
use cq_term::atoms::Atoms;
use std::alloc::{AllocError, Global};

/// Why a run ends before its end.
#[derive(Clone, Copy, PartialEq, Eq)]
pub enum Halt<'a> {
    /// There is no file of this name.
    Absent(&'a str),
    /// The file of this name is too large.
    TooLarge(&'a str),
    /// A load failed.
    Read,
    /// A write failed.
    Write,
    /// Memory was wanting.
    Memory,
}

impl<'a> From<AllocError> for Halt<'a> {
    ghost use Rattle.lint.specs.declared.pages.Halt.TheVariants.{Memory};

    ghost from_gives = { λ _ e. e ≡ Memory };

    fn from(_: AllocError) -> Self {
        Halt::Memory
    }
}

/// A file with its text and what stands in it.
#[derive(Drop)]
pub struct Page<'a> {
    pub name: &'a str,
    pub text: Vec<u8>,
    pub sentences: Vec<Sentence>,
}

/// Loads the text of a file.
fn load<'a, F: Shelf>(alloc: Global, shelf: &mut F, name: &'a str) -> Result<Vec<u8>, Halt<'a>>
    ensures text { IfOk result (λ text. IsLoaded (F.files shelf.old) name.now text.items) }
    ensures missing { IfErr result (IsMissing (F.files shelf.old) name.now) }
    ensures same { F.files shelf.new ≡ F.files shelf.old }
    ensures cause { CountedBy (F.faults shelf.old) (F.refused shelf.old) (F.faults shelf.new) (F.refused shelf.new) result }
{
    match shelf.load(alloc, name) {
        Ok(bytes) => Ok(bytes),
        Err(ShelfFault::Absent) => Err(Halt::Absent(name)),
        Err(ShelfFault::TooLarge) => Err(Halt::TooLarge(name)),
        Err(ShelfFault::Failed) => Err(Halt::Read),
        Err(ShelfFault::NoMemory) => Err(Halt::Memory),
    }
}

/// The page of a file, which is read with the operators in force.
fn read_page<'a, F: Shelf>(
    alloc: Global,
    shelf: &mut F,
    name: &'a str,
    atoms: &mut Atoms,
    ops: &mut Ops,
) -> Result<Page<'a>, Halt<'a>>
    requires { AreNamed atoms.old ops.old }
    ensures page { IfOk result (IsPage (F.files shelf.old) (named atoms.old ops.old) name.now (named atoms.new ops.new)) }
    ensures named { OnOk result (AreNamed atoms.new ops.new) }
    ensures missing { IfErr result (IsMissing (F.files shelf.old) name.now) }
    ensures same { F.files shelf.new ≡ F.files shelf.old }
    ensures cause { CountedBy (F.faults shelf.old) (F.refused shelf.old) (F.faults shelf.new) (F.refused shelf.new) result }
{
    let text = load(alloc, shelf, name)?;
    let sentences = read_sentences(alloc, atoms, ops, &text)?;
    Ok(Page {
        name,
        text,
        sentences,
    })
}

/// The pages of files, each read with the operators that those before it leave.
pub fn read_pages<'a, F: Shelf>(
    alloc: Global,
    shelf: &mut F,
    names: &'a [String],
) -> Result<Vec<Page<'a>>, Halt<'a>>
    ensures pages { IfOk result (λ pages. AreRead (F.files shelf.old) standard (map string_bytes names.now) pages.items) }
    ensures missing { IfErr result (AreMissing (F.files shelf.old) (map string_bytes names.now)) }
    ensures cause { CountedBy (F.faults shelf.old) (F.refused shelf.old) (F.faults shelf.new) (F.refused shelf.new) result }
{
    let mut atoms = Atoms::new(alloc);
    let mut ops = Ops::standard(alloc, &mut atoms)?;
    let mut pages = Vec::new(alloc);
    for name in names {
        let page = read_page(alloc, shelf, name.as_str(), &mut atoms, &mut ops)?;
        let Ok(()) = pages.push(page) else {
            return Err(Halt::Memory);
        };
    }
    Ok(pages)
}

/// What all pages define and declare.
fn known_of(alloc: Global, pages: &[Page<'_>]) -> Result<Known, AllocError>
    ensures { IfOk result (λ known. known ≡ known_of pages.now) }
{
    let mut known = Known::new(alloc);
    for page in pages {
        known.add_all(&page.sentences)?;
    }
    Ok(known)
}

/// The lines of what is found in all pages, in their order.
pub fn report(alloc: Global, pages: &[Page<'_>]) -> Result<Vec<u8>, AllocError>
    ensures { IfOk result (λ lines. lines.items ≡ report_of pages.now) }
{
    let known = known_of(alloc, pages)?;
    let mut lines = Vec::new(alloc);
    for page in pages {
        add_page(alloc, &known, page, &mut lines)?;
    }
    Ok(lines)
}

/// Adds the lines of what is found in a page.
fn add_page(
    alloc: Global,
    known: &Known,
    page: &Page<'_>,
    lines: &mut Vec<u8>,
) -> Result<(), AllocError>
    ensures { OnOk result (lines.new.items ≡ lines.old.items ++ page_report known.now page.now) }
{
    let findings = findings_of(alloc, known, &page.sentences)?;
    let more = lines_of(alloc, page.name, &page.text, &findings)?;
    lines.extend_from_slice(&more)?;
    Ok(())
}
