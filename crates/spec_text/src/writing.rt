//! The text of a term, and the law that it reads back. Definitions with no code; the functions here have empty bodies: each
//! contract is a law or an example.
#![tactic(auto)]

ghost use Rattle.std.specs.Prelude.{◌≡◌, List, [], ◌∷◌, codes, pos};
ghost use Rattle.spec_numbers.specs.Rational.{ratio, neg_ℚ};
ghost use Rattle.spec_syntax.specs.Operators.{Ops};
ghost use Rattle.spec_syntax.specs.Standard.{standard};
ghost use Rattle.spec_terms.specs.Term.{Compound, Name, Number, Var, more, one};
ghost use Rattle.spec_syntax.specs.Trees.{Tree, unary, binary, nil, cell};
ghost use Rattle.spec_syntax.specs.Writing.{IsTable, written};
ghost use Rattle.spec_syntax.specs.Examples.{number, negative};
ghost use Rattle.spec_text.specs.Pieces.{pieces, tokens};
ghost use Rattle.spec_text.specs.Written.{write, writeq};
ghost use Rattle.spec_text.specs.ReadingBack.{NamesAreBare, CanBeRead, ReadsBack};

/// How names are written.
#[derive(Clone, Copy, PartialEq, Eq)]
pub enum Style {
    /// As they are.
    Plain,
    /// In quotes where they need them, so that the text can be read back.
    Quoted,
}

/// The tokens of a term's pieces are the tokens that are written of it.
pub fn pieces_have_the_tokens()
    ensures { (ops : Ops) (t : Tree) → tokens (pieces ops t) ≡ written ops t }
{}

/// The text that `writeq` writes of a term, followed by ` .` and a line feed, reads as the term, but for the names of its
/// variables, whatever the operators are whose names need no quotes.
pub fn what_is_written_reads_back()
    ensures { (ops : Ops) (t : Tree) → IsTable ops → NamesAreBare ops → CanBeRead t → ReadsBack ops t }
{}

/// The names of the operators at the start need no quotes.
pub fn names_at_the_start_are_bare()
    ensures { NamesAreBare standard }
{}

/// Terms as `writeq` writes them: operators and their operands.
pub fn operators_as_written()
    ensures operator_and_power { writeq standard (unary (codes "-") (binary (codes "^") (number 1) (number 2))) ≡ codes "- 1^2" }
    ensures number_to_a_power { writeq standard (binary (codes "^") (negative 1) (number 2)) ≡ codes "(-1)^2" }
    ensures operator_and_number { writeq standard (unary (codes "-") (number 1)) ≡ codes "-(1)" }
    ensures operator_and_negative { writeq standard (unary (codes "-") (negative 1)) ≡ codes "-(-1)" }
    ensures plus_and_number { writeq standard (unary (codes "+") (number 1)) ≡ codes "+1" }
    ensures plus_and_negative { writeq standard (unary (codes "+") (negative 1)) ≡ codes "+ (-1)" }
    ensures operator_on_the_left { writeq standard (binary (codes "^") (unary (codes "-") (number 1)) (number 2)) ≡ codes "(-(1))^2" }
    ensures negative_on_the_right { writeq standard (binary (codes "-") (number 1) (negative 1)) ≡ codes "1-(-1)" }
    ensures prefix_on_the_right { writeq standard (binary (codes "-") (Name (codes "a")) (unary (codes "-") (Name (codes "b")))) ≡ codes "a- -b" }
    ensures nested_prefix { writeq standard (unary (codes "-") (unary (codes "-") (Name (codes "a")))) ≡ codes "- -a" }
    ensures negation { writeq standard (unary (codes "\\+") (Name (codes "a"))) ≡ codes "\\+a" }
    ensures negated_conjunction { writeq standard (unary (codes "\\+") (binary (codes ",") (Name (codes "a")) (Name (codes "b")))) ≡ codes "\\+ (a,b)" }
    ensures operator_and_atom { writeq standard (unary (codes "-") (Name (codes "-"))) ≡ codes "- (-)" }
    ensures grouped_right { writeq standard (binary (codes "-") (number 1) (binary (codes "-") (number 2) (number 3))) ≡ codes "1-(2-3)" }
    ensures grouped_left { writeq standard (binary (codes "-") (binary (codes "-") (number 1) (number 2)) (number 3)) ≡ codes "1-2-3" }
    ensures letters { writeq standard (binary (codes "is") (Var 7) (binary (codes "mod") (number 7) (negative 2))) ≡ codes "_1 is 7 mod (-2)" }
    ensures prefix_letters { writeq standard (unary (codes "dynamic") (binary (codes "/") (Name (codes "a")) (number 1))) ≡ codes "dynamic a/1" }
    ensures alternatives { writeq standard (binary (codes ";") (binary (codes "->") (Name (codes "a")) (Name (codes "b"))) (Name (codes "c")))
        ≡ codes "a->b;c" }
    ensures indicator { writeq standard (binary (codes "/") (Name (codes ",")) (number 2)) ≡ codes "(',')/2" }
{}

/// Terms as `writeq` writes them: arguments, lists, braces, names, numbers and variables.
pub fn terms_as_written()
    ensures arguments { writeq standard (Compound (codes "f") (more (Name (codes ":-")) (one (Name (codes "-"))))) ≡ codes "f(:-,-)" }
    ensures argument { writeq standard (Compound (codes "f") (one (binary (codes ":-") (Name (codes "a")) (Name (codes "b"))))) ≡ codes "f((a:-b))" }
    ensures list { writeq standard (cell (Name (codes "a")) (cell (negative 1) (Var 3))) ≡ codes "[a,-1|_1]" }
    ensures lists { writeq standard (cell nil (cell (cell (Name (codes "a")) nil) nil)) ≡ codes "[[],[a]]" }
    ensures element { writeq standard (cell (binary (codes ":-") (Name (codes "a")) (Name (codes "b"))) (Name (codes "c"))) ≡ codes "[(a:-b)|c]" }
    ensures braces { writeq standard (unary (codes "{}") (binary (codes ",") (Name (codes "a")) (Name (codes "b")))) ≡ codes "{a,b}" }
    ensures negative_in_braces { writeq standard (unary (codes "{}") (negative 1)) ≡ codes "{-1}" }
    ensures quoted { writeq standard (Name (codes "hello world")) ≡ codes "'hello world'" }
    ensures as_it_is { write standard (Name (codes "hello world")) ≡ codes "hello world" }
    ensures capital { writeq standard (Compound (codes "F") (one (Name (codes "")))) ≡ codes "'F'('')" }
    ensures full_stop { writeq standard (Name (codes ".")) ≡ codes "'.'" }
    ensures comment { writeq standard (Name (codes "/*")) ≡ codes "'/*'" }
    ensures escapes { writeq standard (Name (codes "it's\n\t\\")) ≡ codes "'it\\'s\\n\\t\\\\'" }
    ensures control { writeq standard (Name (codes "\u{1}")) ≡ codes "'\\x1\\'" }
    ensures fraction { writeq standard (Number (neg_ℚ (ratio (pos 1) 2))) ≡ codes "-1r2" }
    ensures variables { writeq standard (Compound (codes "f") (more (Var 9) (more (Var 4) (one (Var 9))))) ≡ codes "f(_1,_2,_1)" }
    ensures nothing_between { write standard (binary (codes "-") (unary (codes "-") (Name (codes ""))) (Name (codes "a"))) ≡ codes "- -a" }
    ensures nothing_before { write standard (binary (codes "mod") (Name (codes "")) (Name (codes "b"))) ≡ codes " mod b" }
    ensures nothing_behind { write standard (binary (codes "mod") (Name (codes "a")) (Name (codes ""))) ≡ codes "a mod " }
    ensures nothing_between_letters { write standard (binary (codes "mod") (binary (codes "mod") (Name (codes "a")) (Name (codes ""))) (Name (codes "b")))
        ≡ codes "a mod  mod b" }
{}
