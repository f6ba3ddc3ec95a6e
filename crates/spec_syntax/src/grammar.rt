//! The tokens of a text: their definition, and laws about them.
#![tactic(auto)]

ghost use Rattle.std.specs.Prelude.{◌≡◌, ◌<◌, ◌≤◌, ◌⊎◌, ◌+◌, ◌==◌, ◌&&◌, ◌||◌, ℕ, true, false, List, [], ◌∷◌, ◌++◌, Some, None, Ok, length, drop};
ghost use Rattle.std.specs.Char.{is_digit, is_ascii_digit};
ghost use Rattle.std.specs.List.{prefix_len};
ghost use Rattle.std.specs.Str.{IsUtf8, continuation_len};
ghost use Rattle.spec_syntax.specs.Characters.{first_char, passes, starts_name, starts_variable, is_symbol, is_punctuation, begins, begins_with, name_end};
ghost use Rattle.spec_syntax.specs.Quotes.{digits_len, digits_value, is_scalar, letter, quoted, in_front};
ghost use Rattle.spec_syntax.specs.Numerals.{whole, plain, goes_on_as_fraction, marked};
ghost use Rattle.spec_syntax.specs.Laws.{Stands, AllPass, Continues, behind, looks, settles, IsZeroBeforeQuote};
ghost use Rattle.spec_syntax.specs.GrammarTokens.{Token, token, in_quotes, token_at, next_token, numeral, ends_clause, bytes_of, quotes_at, opens_directly, digit_directly, IsInQuotes};

use thiserror::Error;

/// The kinds of tokens.
#[derive(Clone, Copy, PartialEq, Eq)]
pub enum Kind {
    /// An unquoted name.
    Name,
    /// A name in single quotes.
    Quoted,
    /// A list of character codes in double quotes.
    Codes,
    Variable,
    Numeral,
    Punctuation,
    /// The full stop that ends a clause.
    End,
    /// The text's end.
    Eof,
}

/// The place of a token's first byte, and the place behind its last.
#[derive(Clone, Copy, PartialEq, Eq)]
pub struct Span {
    pub start: usize,
    pub end: usize,
}

/// Why no token stands at a place of a text. Each has the place of the fault.
#[derive(Clone, Copy, Debug, PartialEq, Eq, Error)]
pub enum LexFault {
    /// No token begins with this byte, no character stands there, or an escape or a numeral goes wrong there.
    #[error("no token can have the byte at {0}")]
    BadByte(usize),
    /// A line feed or the text's end inside quotes.
    #[error("the quotes are still open at {0}")]
    OpenQuote(usize),
    /// The text's end inside a block comment.
    #[error("the comment is still open at {0}")]
    OpenComment(usize),
    /// A numeral of which a part is too large, or the lower one is zero.
    #[error("the numeral at {0} is too large, or is divided by zero")]
    WideNumber(usize),
}

/// What a reader stands in before a token.
#[derive(Clone, Copy, PartialEq, Eq)]
pub enum Gap {
    /// Between tokens.
    Between,
    /// In a comment to the line's end.
    Line,
    /// Behind the `/` that opens a block comment.
    Opening,
    /// In a block comment.
    Block,
    /// Before the `/` that closes a block comment.
    Closing,
}

/// An escape: how many bytes it has behind its backslash, and the character that it stands for, or none.
#[derive(Clone, Copy, PartialEq, Eq)]
pub struct Escape {
    pub size: usize,
    pub stands_for: Option<char>,
}

/// From every place of a text on there is a token or a fault. Only layout and comments stand before the token, which takes
/// at least one byte or is the text's end: so the tokens tile the text, and reading them ends. A fault stands within the text.
pub fn tokens_tile_the_text()
    ensures { (text : List ℕ) (at : ℕ) → at ≤ length text → Stands text at (next_token text at) }
{}

/// Of the next token, if it is in quotes, the meant text can be asked.
pub fn quotes_hold_a_text()
    ensures { (text : List ℕ) (at : ℕ) (t : Token) → next_token text at ≡ Ok t → (t.kind ≡ Kind.Quoted) ⊎ (t.kind ≡ Kind.Codes) → IsInQuotes text t.span }
{}

/// The bytes of a name that is not in quotes, and of a variable, are UTF-8.
pub fn names_are_texts()
    ensures { (text : List ℕ) (at : ℕ) (t : Token) → next_token text at ≡ Ok t
        → (t.kind ≡ Kind.Name) ⊎ (t.kind ≡ Kind.Variable) → IsUtf8 (bytes_of text t.span) }
{}

/// A token does not depend on what comes after the bytes behind it at which it looks: one byte, or two behind a numeral. That
/// byte is below 128, since behind a name one from 128 on may begin a character that goes on with it. How far a 0 before a
/// quote looks has no bound. A byte that settles decides every token and fault before it, such a 0 too; so a text that comes
/// in pieces can be read up to any such byte. It decides what quotes before it hold, too. Whether a `(` or a digit stands
/// directly behind a token takes one byte.
pub fn following_bytes_settle_tokens()
    ensures token { (text rest other : List ℕ) (at c : ℕ) (t : Token) → c < 128
        → next_token (text ++ c ∷ rest) at ≡ Ok t
        → t.span.end + looks t.kind ≤ length text + 1
        → (IsZeroBeforeQuote (text ++ c ∷ rest) t → ⊥)
        → next_token (text ++ c ∷ other) at ≡ Ok t }
    ensures settled { (text rest other : List ℕ) (at c : ℕ) → settles c ≡ true
        → behind (next_token (text ++ c ∷ rest) at) ≤ length text
        → next_token (text ++ c ∷ other) at ≡ next_token (text ++ c ∷ rest) at }
    ensures quotes { (text rest other : List ℕ) (at c : ℕ) (t : Token) → settles c ≡ true
        → next_token (text ++ c ∷ rest) at ≡ Ok t → (t.kind ≡ Kind.Quoted) ⊎ (t.kind ≡ Kind.Codes)
        → t.span.end ≤ length text
        → quotes_at (drop t.span.start (text ++ c ∷ other)) t.span.start
        ≡ quotes_at (drop t.span.start (text ++ c ∷ rest)) t.span.start }
    ensures opens_directly { (text rest other : List ℕ) (c : ℕ) (t : Token) → t.span.end ≤ length text
        → opens_directly (text ++ c ∷ other) t ≡ opens_directly (text ++ c ∷ rest) t }
    ensures digit_directly { (text rest other : List ℕ) (c : ℕ) (t : Token) → t.span.end ≤ length text
        → digit_directly (text ++ c ∷ other) t ≡ digit_directly (text ++ c ∷ rest) t }
{}

/// A name that is written is read again, where what follows does not go on with it.
pub fn names_are_read_again()
    ensures letters { (b : ℕ) (bs more : List ℕ) (at : ℕ) → passes starts_name (first_char (b ∷ bs)) ≡ true
        → continuation_len b ≤ length bs → Continues (continuation_len b) bs
        → name_end 0 more (at + length (b ∷ bs)) ≡ at + length (b ∷ bs)
        → token_at (b ∷ (bs ++ more)) at ≡ Ok (token Kind.Name at (at + length (b ∷ bs))) }
    ensures symbols { (b : ℕ) (bs more : List ℕ) (at : ℕ) → AllPass is_symbol (b ∷ bs) → prefix_len is_symbol more ≡ 0
        → ((b == 46) && (length (b ∷ bs) == 1) && ends_clause (drop (length (b ∷ bs)) (b ∷ (bs ++ more)))) ≡ false
        → token_at (b ∷ (bs ++ more)) at ≡ Ok (token Kind.Name at (at + length (b ∷ bs))) }
    ensures sign { (b : ℕ) (more : List ℕ) (at : ℕ) → ((b == 33) || (b == 59)) ≡ true
        → token_at (b ∷ more) at ≡ Ok (token Kind.Name at (at + 1)) }
{}

/// A variable that is written is read again, where what follows does not go on with it.
pub fn variables_are_read_again()
    ensures { (b : ℕ) (bs more : List ℕ) (at : ℕ) → starts_variable b ≡ true → Continues 0 bs
        → name_end 0 more (at + length (b ∷ bs)) ≡ at + length (b ∷ bs)
        → token_at (b ∷ (bs ++ more)) at ≡ Ok (token Kind.Variable at (at + length (b ∷ bs))) }
{}

/// Punctuation and the full stop that ends a clause are read again.
pub fn punctuation_is_read_again()
    ensures punctuation { (b : ℕ) (more : List ℕ) (at : ℕ) → is_punctuation b ≡ true
        → token_at (b ∷ more) at ≡ Ok (token Kind.Punctuation at (at + 1)) }
    ensures end { (more : List ℕ) (at : ℕ) → ends_clause more ≡ true
        → token_at (46 ∷ more) at ≡ Ok (token Kind.End at (at + 1)) }
{}

/// A number that is written in decimal digits, or as a fraction of two such numbers, is spelled again.
pub fn numbers_are_read_again()
    ensures numeral { (b : ℕ) (bs : List ℕ) (at : ℕ) → is_ascii_digit b ≡ true → (b ≡ 48 → marked bs ≡ None)
        → token_at (b ∷ bs) at ≡ numeral (plain (b ∷ bs)) (b ∷ bs) at }
    ensures whole { (bs more : List ℕ) → AllPass (λ b. is_digit b 10) bs
        → digits_len 10 more ≡ 0 → goes_on_as_fraction more ≡ false
        → plain (bs ++ more) ≡ whole (digits_value 10 bs) (length bs) }
    ensures fraction { (bs ds more : List ℕ) → AllPass (λ b. is_digit b 10) bs → AllPass (λ b. is_digit b 10) ds
        → begins is_ascii_digit (ds ++ more) ≡ true → digits_len 10 more ≡ 0
        → plain (bs ++ 114 ∷ (ds ++ more))
        ≡ record { over = digits_value 10 bs; under = digits_value 10 ds; size = length bs + 1 + length ds } }
{}

/// What is written in quotes, character by character, is read again: a character as it is, an escape of a letter or sign, or
/// of a number, as the character that it stands for, a doubled quote as the quote, and a line that goes on as nothing.
pub fn quotes_are_read_again()
    ensures opening { (bs : List ℕ) (at : ℕ)
        → (token_at (39 ∷ bs) at ≡ in_quotes Kind.Quoted at (quoted 39 0 bs (at + 1)))
        × (token_at (34 ∷ bs) at ≡ in_quotes Kind.Codes at (quoted 34 0 bs (at + 1))) }
    ensures character { (q b : ℕ) (bs more : List ℕ) (c at : ℕ) → first_char (b ∷ bs) ≡ Some c → length bs ≡ continuation_len b
        → (b == 10) ≡ false → (b == q) ≡ false → (b == 92) ≡ false
        → quoted q 0 (b ∷ (bs ++ more)) at ≡ in_front (Some c) (quoted q 0 more (at + length (b ∷ bs))) }
    ensures letter { (q b : ℕ) (more : List ℕ) (c at : ℕ) → letter b ≡ Some c → (92 == q) ≡ false
        → quoted q 0 (92 ∷ b ∷ more) at ≡ in_front (Some c) (quoted q 0 more (at + 2)) }
    ensures hexadecimal { (q : ℕ) (ds more : List ℕ) (at : ℕ) → AllPass (λ b. is_digit b 16) ds → 0 < length ds
        → is_scalar (digits_value 16 ds) ≡ true → (92 == q) ≡ false
        → quoted q 0 (92 ∷ 120 ∷ (ds ++ 92 ∷ more)) at
        ≡ in_front (Some (digits_value 16 ds)) (quoted q 0 more (at + length ds + 3)) }
    ensures octal { (q d : ℕ) (ds more : List ℕ) (at : ℕ) → AllPass (λ b. is_digit b 8) (d ∷ ds)
        → is_scalar (digits_value 8 (d ∷ ds)) ≡ true → (92 == q) ≡ false
        → quoted q 0 (92 ∷ d ∷ (ds ++ 92 ∷ more)) at
        ≡ in_front (Some (digits_value 8 (d ∷ ds))) (quoted q 0 more (at + length ds + 3)) }
    ensures doubled { (q : ℕ) (more : List ℕ) (at : ℕ) → (q == 10) ≡ false
        → quoted q 0 (q ∷ q ∷ more) at ≡ in_front (Some q) (quoted q 0 more (at + 2)) }
    ensures line { (q : ℕ) (more : List ℕ) (at : ℕ) → (92 == q) ≡ false
        → quoted q 0 (92 ∷ 10 ∷ more) at ≡ in_front None (quoted q 0 more (at + 2)) }
    ensures closing { (q : ℕ) (more : List ℕ) (at : ℕ) → (q == 10) ≡ false → begins_with q more ≡ false
        → quoted q 0 (q ∷ more) at ≡ Ok (record { text = []; stop = at + 1 }) }
{}
