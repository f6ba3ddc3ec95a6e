// Tokens of a text as those of the grammar.

ghost use Rattle.std.specs.Prelude.{◌≡◌, ◌≢◌, ◌≤◌, ℕ, List, ◌∷◌, Some, slice_get, drop, length, option_map, IfOk, IfSome, OnOk, IsTrue, IsFalse};
ghost use Rattle.std.specs.Char.{is_ascii_digit};
ghost use Rattle.std.specs.Str.{IsUtf8};
ghost use Rattle.spec_numbers.specs.Texts.{Text};
ghost use Rattle.spec_syntax.specs.Characters.{begins, begins_with};
ghost use Rattle.spec_syntax.specs.GrammarTokens.{bytes_of, IsInQuotes};
ghost use Rattle.spec_syntax.specs.Tokens as grammar;
ghost use Rattle.spec_syntax.specs.TextTokens.{Variables as Known, bare_name, quoted_name, quoted_text, mark, seen, variables_after};
ghost use Rattle.cq_term.specs.Texts.{AreDifferent, KeepsTexts};
ghost use Rattle.cq_read.specs.LexShown.{shown};
ghost use Rattle.cq_read.specs.Views.{token_of, IsLiveToken};
ghost use Rattle.cq_term.specs.Trees.{KnowsTerms};
ghost use Rattle.cq_read.specs.Known.{KnowsToken};
ghost use Rattle.cq_term.specs.Meaning.{HeapTerm};
ghost use Rattle.cq_read.specs.Growth.{Grows};
ghost use Rattle.cq_read.specs.Names.{AreUnbound};
ghost use Rattle.cq_read.specs.Names as names;
ghost use Rattle.cq_read.specs.Tokens.{IsToken, IsOther};

use crate::lex::{Kind, Span, Token as TextToken, quoted_text};
use crate::parse::Token;
use crate::variables::Variables;
use cq_term::Heap;
use cq_term::atoms::{Atom, Atoms};
use std::alloc::AllocError;

/// Whether a token is the text's end.
pub fn is_last(token: &TextToken) -> bool
    ensures last { IsTrue result → token.now.kind ≡ Kind.Eof }
    ensures other { IsFalse result → token.now.kind ≢ Kind.Eof }
{
    matches!(token.kind, Kind::Eof)
}

/// Whether a `(` stands at a place.
fn opens_at(text: &[u8], at: usize) -> bool
    requires { at ≤ length text.now }
    ensures { result ≡ begins_with 40 (drop at text.now) }
{
    match text[at..].first() {
        Some(&b) => b == b'(',
        None => false,
    }
}

/// Whether a digit stands at a place.
pub fn digit_at(text: &[u8], at: usize) -> bool
    requires { at ≤ length text.now }
    ensures { result ≡ begins is_ascii_digit (drop at text.now) }
{
    match text[at..].first() {
        Some(&b) => b.is_ascii_digit(),
        None => false,
    }
}

/// The text of a name or a variable.
fn word(text: &[u8], span: Span) -> &str
    requires forward { span.start ≤ span.end }
    requires within { span.end ≤ length text.now }
    requires utf8 { IsUtf8 (bytes_of text.now span) }
    ensures { result.now ≡ bytes_of text.now span }
{
    match str::from_utf8(&text[span.start..span.end]) {
        Ok(word) => word,
        Err(_) => unreachable!(),
    }
}

/// The number of a text, where older numbers keep theirs.
#[tactic(auto, using(crate::proofs::Interned::kept_by))]
fn interned(atoms: &mut Atoms, text: &str) -> Result<Atom, AllocError>
    ensures number { (texts : List Text) → KeepsTexts atoms.new texts → IfOk result (λ atom. slice_get texts atom ≡ Some text.now) }
    ensures kept { KeepsTexts atoms.old atoms.new }
    ensures different { AreDifferent atoms.old → AreDifferent atoms.new }
{
    atoms.intern(text)
}

/// A name that is not in quotes.
fn bare_name(atoms: &mut Atoms, text: &[u8], token: &TextToken) -> Result<Token, AllocError>
    requires forward { token.now.span.start ≤ token.now.span.end }
    requires within { token.now.span.end ≤ length text.now }
    requires utf8 { IsUtf8 (bytes_of text.now token.now.span) }
    ensures token { (texts : List Text) → KeepsTexts atoms.new texts
        → IfOk result (λ tok. token_of texts tok ≡ bare_name text.now (shown token.now) (bytes_of text.now token.now.span)) }
    ensures known { (texts : List Text) → KeepsTexts atoms.new texts → IfOk result (KnowsToken texts) }
    ensures live { (images : List HeapTerm) → IfOk result (IsLiveToken images) }
    ensures kept { KeepsTexts atoms.old atoms.new }
    ensures different { AreDifferent atoms.old → AreDifferent atoms.new }
{
    let name = word(text, token.span);
    if opens_at(text, token.span.end) {
        Ok(Token::Functor(interned(atoms, name)?))
    } else if name == "-" && digit_at(text, token.span.end) {
        Ok(Token::Minus)
    } else {
        Ok(Token::Named(interned(atoms, name)?, false))
    }
}

/// A name in quotes.
fn quoted_name(
    heap: &Heap,
    atoms: &mut Atoms,
    text: &[u8],
    token: &TextToken,
) -> Result<Token, AllocError>
    requires within { token.now.span.end ≤ length text.now }
    requires quotes { IsInQuotes text.now token.now.span }
    ensures token { (texts : List Text) → KeepsTexts atoms.new texts
        → IfOk result (λ tok. token_of texts tok ≡ quoted_name text.now (shown token.now) (quoted_text text.now (shown token.now))) }
    ensures known { (texts : List Text) → KeepsTexts atoms.new texts → IfOk result (KnowsToken texts) }
    ensures live { (images : List HeapTerm) → IfOk result (IsLiveToken images) }
    ensures kept { KeepsTexts atoms.old atoms.new }
    ensures different { AreDifferent atoms.old → AreDifferent atoms.new }
{
    let name = quoted_text(heap.alloc(), text, token.span)?;
    let atom = interned(atoms, name.as_str())?;
    if opens_at(text, token.span.end) {
        Ok(Token::Functor(atom))
    } else {
        Ok(Token::Named(atom, true))
    }
}

/// A text in double quotes.
fn codes(heap: &Heap, text: &[u8], token: &TextToken) -> Result<Token, AllocError>
    requires quotes { IsInQuotes text.now token.now.span }
    ensures token { (texts : List Text) → IfOk result (λ tok. token_of texts tok ≡ grammar.Codes (quoted_text text.now (shown token.now))) }
    ensures known { (texts : List Text) → IfOk result (KnowsToken texts) }
    ensures live { (images : List HeapTerm) → IfOk result (IsLiveToken images) }
{
    Ok(Token::Codes(quoted_text(heap.alloc(), text, token.span)?))
}

/// A mark of punctuation.
fn mark(b: u8) -> Option<Token>
    ensures token { (texts : List Text) (bs : List ℕ) → option_map (token_of texts) result ≡ mark (b ∷ bs) }
    ensures known { (texts : List Text) → IfSome result (KnowsToken texts) }
    ensures live { (images : List HeapTerm) → IfSome result (IsLiveToken images) }
{
    match b {
        b'(' => Some(Token::Open),
        b')' => Some(Token::Close),
        b'[' => Some(Token::OpenList),
        b']' => Some(Token::CloseList),
        b'{' => Some(Token::OpenCurly),
        b'}' => Some(Token::CloseCurly),
        b',' => Some(Token::Comma),
        b'|' => Some(Token::Bar),
        _ => None,
    }
}

/// A mark of punctuation of the text.
fn punctuation(text: &[u8], token: &TextToken) -> Token
    requires token { IsToken text.now (shown token.now) }
    requires kind { token.now.kind ≡ Kind.Punctuation }
    ensures token { (texts : List Text) → mark (bytes_of text.now token.now.span) ≡ Some (token_of texts result) }
    ensures known { (texts : List Text) → KnowsToken texts result }
    ensures live { (images : List HeapTerm) → IsLiveToken images result }
{
    let Some((&b, _)) = text[token.span.start..token.span.end].split_first() else {
        unreachable!()
    };
    match mark(b) {
        Some(found) => found,
        None => unreachable!(),
    }
}

/// A token that is no name and no variable, and not in quotes.
fn other(text: &[u8], token: &TextToken) -> Token
    requires token { IsToken text.now (shown token.now) }
    requires kind { IsOther token.now.kind }
    ensures token { (texts : List Text) (variables : Known) → seen text.now variables (shown token.now) ≡ Some (token_of texts result) }
    ensures known { (texts : List Text) → KnowsToken texts result }
    ensures live { (images : List HeapTerm) → IsLiveToken images result }
{
    match token.kind {
        Kind::Numeral => match token.number {
            Some(q) => Token::Numeral(q),
            None => unreachable!(),
        },
        Kind::Punctuation => punctuation(text, token),
        Kind::End => Token::End,
        _ => unreachable!(),
    }
}

/// A token of the text as the grammar sees it. A variable that did not occur is a new one of the heap, and names may get
/// numbers.
pub fn token_of(
    heap: &mut Heap,
    atoms: &mut Atoms,
    variables: &mut Variables,
    text: &[u8],
    token: &TextToken,
) -> Result<Token, AllocError>
    requires token { IsToken text.now (shown token.now) }
    requires unbound { AreUnbound heap.old.now.images variables.old }
    ensures token { (texts : List Text) → KeepsTexts atoms.new texts
        → IfOk result (λ tok. seen text.now (names.variables variables.old heap.old.now.images) (shown token.now) ≡ Some (token_of texts tok)) }
    ensures known { (texts : List Text) → KeepsTexts atoms.new texts → IfOk result (KnowsToken texts) }
    ensures variables { OnOk result (names.variables variables.new heap.new.now.images
        ≡ variables_after text.now (names.variables variables.old heap.old.now.images) (shown token.now)) }
    ensures live { IfOk result (IsLiveToken heap.new.now.images) }
    ensures unbound { OnOk result (AreUnbound heap.new.now.images variables.new) }
    ensures terms { (texts : List Text) → KnowsTerms texts heap.old.now.terms → OnOk result (KnowsTerms texts heap.new.now.terms) }
    ensures heap { Grows heap.old heap.new }
    ensures kept { KeepsTexts atoms.old atoms.new }
    ensures different { AreDifferent atoms.old → AreDifferent atoms.new }
{
    match token.kind {
        Kind::Name => bare_name(atoms, text, token),
        Kind::Quoted => quoted_name(heap, atoms, text, token),
        Kind::Codes => codes(heap, text, token),
        Kind::Variable => Ok(Token::Variable(variables.number(heap, word(text, token.span))?)),
        Kind::Numeral | Kind::Punctuation | Kind::End | Kind::Eof => Ok(other(text, token)),
    }
}
