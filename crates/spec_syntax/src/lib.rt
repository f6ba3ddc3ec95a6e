//! The grammar of clauses over tokens, a machine that reads a token at a time, and laws that tie the two. Definitions with no
//! code; the functions here have empty bodies: each contract is a law or an example.
#![tactic(auto)]

pub mod grammar;
pub mod operators;

ghost use Rattle.std.specs.Prelude.{◌≡◌, ◌↔◌, List, [], ◌∷◌, ◌++◌, Some, None, Ok, ℤ, codes};
ghost use Rattle.spec_numbers.specs.Texts.{Text};
ghost use Rattle.spec_syntax.specs.Operators.{Ops, set};
ghost use Rattle.spec_syntax.specs.Standard.{standard};
ghost use Rattle.spec_terms.specs.Term.{Compound, Name, Var, more, one, with_arguments};
ghost use Rattle.spec_syntax.specs.Tokens.{Token, End};
ghost use Rattle.spec_syntax.specs.Trees.{Tree, natural, unary, binary, nil, cell};
ghost use Rattle.spec_syntax.specs.Grammar.{Parses, BeginsClause, IsNeither, IsRefused};
ghost use Rattle.spec_syntax.specs.Machine.{State, Whole, IsOpen, StopsAt, step, run};
ghost use Rattle.spec_syntax.specs.Yields.{Yields, YieldsFrom};
ghost use Rattle.spec_syntax.specs.Writing.{IsTable, written};
ghost use Rattle.spec_syntax.specs.Examples.{number, negative, with_factorial, Reads, Refuses, IsWrittenAgain};

/// From a state tokens make a clause exactly where, from the state behind the first of them, the others make it.
pub fn steps_keep_what_is_allowed()
    ensures { (ops : Ops) (s : State) (tok : Token) (ts : List Token) (t : Tree) → Yields ops s (tok ∷ ts) t ↔ YieldsFrom ops (step ops s tok) ts t }
{}

/// Some tokens complete each state, whether or not the machine can reach it.
pub fn every_state_can_be_completed()
    ensures { (ops : Ops) (s : State) → (ts : List Token) × (t : Tree) × Yields ops s ts t }
{}

/// What the machine has read of a clause tells what its tokens are: a clause, the beginning of one, or neither. So the token
/// that it refuses is the first with which the tokens so far begin no clause and are none.
pub fn the_machine_reads_clauses()
    ensures clause { (ops : Ops) (ts : List Token) (t : Tree) → Parses ops ts t ↔ (run ops ts ≡ Some (Whole t)) }
    ensures beginning { (ops : Ops) (ts : List Token) → BeginsClause ops ts ↔ ((s : State) × (run ops ts ≡ Some s) × IsOpen s) }
    ensures neither { (ops : Ops) (ts : List Token) → IsNeither ops ts ↔ (run ops ts ≡ None) }
    ensures refused { (ops : Ops) (ts : List Token) (tok : Token) → IsRefused ops ts tok ↔ StopsAt ops ts tok }
{}

/// No list of tokens is two clauses, and a clause begins no longer one.
pub fn one_reading()
    ensures one { (ops : Ops) (ts : List Token) (t u : Tree) → Parses ops ts t → Parses ops ts u → t ≡ u }
    ensures nothing_behind { (ops : Ops) (ts : List Token) (t : Tree) → Parses ops ts t → BeginsClause ops ts → ⊥ }
{}

/// The operators at the start are a table, and `op/3` makes no other of one.
pub fn operator_tables()
    ensures at_the_start { IsTable standard }
    ensures changed { (ops after : Ops) (priority : ℤ) (kind name : Text) → IsTable ops → set ops priority kind name ≡ Ok after → IsTable after }
{}

/// The tokens of a term as it is written are the term again, whatever its names, and whatever the operators that `op/3` makes.
pub fn what_is_written_is_read_again()
    ensures { (ops : Ops) (t : Tree) → IsTable ops → Parses ops (written ops t ++ End ∷ []) t }
{}

/// Clauses and their trees.
pub fn clauses()
    ensures rule { Reads standard (codes "a:-b,c.") (binary (codes ":-") (Name (codes "a")) (binary (codes ",") (Name (codes "b")) (Name (codes "c")))) }
    ensures directive { Reads standard (codes ":- dynamic foo/1.")
        (unary (codes ":-") (unary (codes "dynamic") (binary (codes "/") (Name (codes "foo")) (number 1)))) }
    ensures from_the_left { Reads standard (codes "1-2-3.") (binary (codes "-") (binary (codes "-") (number 1) (number 2)) (number 3)) }
    ensures from_the_right { Reads standard (codes "2^3^4.") (binary (codes "^") (number 2) (binary (codes "^") (number 3) (number 4))) }
    ensures by_priority { Reads standard (codes "1+2*3=X.")
        (binary (codes "=") (binary (codes "+") (number 1) (binary (codes "*") (number 2) (number 3))) (Var 0)) }
    ensures in_parentheses { Reads standard (codes "(1+2)*3.") (binary (codes "*") (binary (codes "+") (number 1) (number 2)) (number 3)) }
    ensures prefix { Reads standard (codes "\\+ a,b.") (binary (codes ",") (unary (codes "\\+") (Name (codes "a"))) (Name (codes "b"))) }
    ensures nested_prefix { Reads standard (codes "- - a.") (unary (codes "-") (unary (codes "-") (Name (codes "a")))) }
    ensures quoted_comma { Reads standard (codes "a ',' b.") (binary (codes ",") (Name (codes "a")) (Name (codes "b"))) }
    ensures list { Reads standard (codes "[a,b|T].") (cell (Name (codes "a")) (cell (Name (codes "b")) (Var 0))) }
    ensures empty_list { Reads standard (codes "[ ].") nil }
    ensures curly { Reads standard (codes "{a}.") (unary (codes "{}") (Name (codes "a"))) }
    ensures functional_curly { Reads standard (codes "'{}'(a).") (unary (codes "{}") (Name (codes "a"))) }
    ensures empty_curly { Reads standard (codes "{ }.") (Name (codes "{}")) }
    ensures text { Reads standard (codes "\"ab\".") (cell (natural 97) (cell (natural 98) nil)) }
    ensures variables { Reads standard (codes "f(X,_,_A,X,_).") (with_arguments (codes "f") (Var 0 ∷ Var 1 ∷ Var 2 ∷ Var 0 ∷ Var 3 ∷ [])) }
{}

/// A `-` directly before a digit is the sign of a number where an operand may stand. Else it is a name, and an operator.
pub fn signs()
    ensures number { Reads standard (codes "-1.") (negative 1) }
    ensures operator { Reads standard (codes "- 1.") (unary (codes "-") (number 1)) }
    ensures functional { Reads standard (codes "-(1).") (unary (codes "-") (number 1)) }
    ensures quoted { Reads standard (codes "'-'1.") (unary (codes "-") (number 1)) }
    ensures number_to_a_power { Reads standard (codes "-1^2.") (binary (codes "^") (negative 1) (number 2)) }
    ensures operator_and_power { Reads standard (codes "- 1^2.") (unary (codes "-") (binary (codes "^") (number 1) (number 2))) }
    ensures difference { Reads standard (codes "a -1.") (binary (codes "-") (Name (codes "a")) (number 1)) }
    ensures difference_of_a_number { Reads standard (codes "a - -1.") (binary (codes "-") (Name (codes "a")) (negative 1)) }
{}

/// A name that is an operator is an atom where it is not applied; the next token decides whether a prefix operator is.
pub fn operators_as_atoms()
    ensures operand { Reads standard (codes "- = a.") (binary (codes "=") (Name (codes "-")) (Name (codes "a"))) }
    ensures operands { Reads standard (codes "= = = .") (binary (codes "=") (Name (codes "=")) (Name (codes "="))) }
    ensures arguments { Reads standard (codes "f(:-,-).") (Compound (codes "f") (more (Name (codes ":-")) (one (Name (codes "-"))))) }
    ensures element { Reads standard (codes "[-|T].") (cell (Name (codes "-")) (Var 0)) }
    ensures alone { Reads standard (codes "\\+ .") (Name (codes "\\+")) }
    ensures operand_of_a_prefix { Reads standard (codes "\\+ - .") (unary (codes "\\+") (Name (codes "-"))) }
    ensures functional { Reads standard (codes "- =(a,b).") (unary (codes "-") (binary (codes "=") (Name (codes "a")) (Name (codes "b")))) }
{}

/// The operators may be others: with a postfix operator in the table the innermost term that can takes it.
pub fn postfix_operators()
    ensures taken_within { Reads with_factorial (codes "- 3 fact.") (unary (codes "-") (unary (codes "fact") (number 3))) }
    ensures taken_outside { Reads with_factorial (codes "3*4 fact.") (binary (codes "*") (number 3) (unary (codes "fact") (number 4))) }
    ensures as_atom { Reads with_factorial (codes "fact.") (Name (codes "fact")) }
{}

/// Texts with just the tokens that are written of their trees: where parentheses stand, and where they do not.
pub fn texts_that_are_written_again()
    ensures operator_and_number { IsWrittenAgain standard (codes "-(1) .") }
    ensures operator_and_power { IsWrittenAgain standard (codes "- 1^2 .") }
    ensures operator_and_negative { IsWrittenAgain standard (codes "-(-1) .") }
    ensures operator_and_fraction { IsWrittenAgain standard (codes "-(1r2) .") }
    ensures nested_operators { IsWrittenAgain standard (codes "- -(1) .") }
    ensures operator_and_atom { IsWrittenAgain standard (codes "- (-) .") }
    ensures atom_on_the_left { IsWrittenAgain standard (codes "(-)=a .") }
    ensures atom_on_the_right { IsWrittenAgain standard (codes "a=(=) .") }
    ensures negative_on_the_right { IsWrittenAgain standard (codes "1-(-1) .") }
    ensures negative_on_the_left { IsWrittenAgain standard (codes "(-1)^2 .") }
    ensures operator_on_the_left { IsWrittenAgain standard (codes "(-(1))^2 .") }
    ensures prefix_on_the_right { IsWrittenAgain standard (codes "a= -b .") }
    ensures high_priority_on_the_right { IsWrittenAgain standard (codes "a=(\\+b) .") }
    ensures grouped_right { IsWrittenAgain standard (codes "1-(2-3) .") }
    ensures grouped_left { IsWrittenAgain standard (codes "1-2-3 .") }
    ensures right_of_a_right { IsWrittenAgain standard (codes "2^3^4 .") }
    ensures left_of_a_right { IsWrittenAgain standard (codes "(2^3)^4 .") }
    ensures rule { IsWrittenAgain standard (codes "a:-b,c .") }
    ensures rule_on_the_left { IsWrittenAgain standard (codes "(a:-b):-c .") }
    ensures conjunction { IsWrittenAgain standard (codes "\\+ (a,b) .") }
    ensures argument { IsWrittenAgain standard (codes "f((a,b),-,a=b) .") }
    ensures element { IsWrittenAgain standard (codes "[(a:-b),-|c] .") }
    ensures list { IsWrittenAgain standard (codes "[a,b|_] .") }
    ensures empty_list { IsWrittenAgain standard (codes "[] .") }
    ensures pair { IsWrittenAgain standard (codes "[a|b] .") }
    ensures letters { IsWrittenAgain standard (codes "dynamic a .") }
    ensures letters_and_list { IsWrittenAgain standard (codes "dynamic[a] .") }
    ensures indicator { IsWrittenAgain standard (codes "(dynamic)/1 .") }
    ensures quoted_comma { IsWrittenAgain standard (codes "(',')/2 .") }
    ensures braces { IsWrittenAgain standard (codes "{a,b} .") }
    ensures empty_braces { IsWrittenAgain standard (codes "{} .") }
    ensures remainder { IsWrittenAgain standard (codes "_ is 7 mod (-2) .") }
    ensures postfix { IsWrittenAgain with_factorial (codes "(3 fact)fact .") }
{}

/// Texts that are refused, and at which token, counted from 0.
pub fn refused_tokens()
    ensures two_atoms { Refuses standard (codes "a b.") 1 }
    ensures two_variables { Refuses standard (codes "X = = Y.") 3 }
    ensures comma_as_argument { Refuses standard (codes "f(,).") 2 }
    ensures no_argument { Refuses standard (codes "f().") 2 }
    ensures space_before_arguments { Refuses standard (codes "f (a).") 1 }
    ensures not_associative { Refuses standard (codes "a:-b:-c.") 3 }
    ensures prefix_as_argument { Refuses standard (codes "f(:- a).") 3 }
    ensures prefix_before_a_functor { Refuses standard (codes "f(:- =(b)).") 3 }
    ensures prefix_of_high_priority { Refuses standard (codes "X = \\+ a.") 3 }
    ensures quoted_name_begins { Refuses standard (codes "- '=' a.") 2 }
    ensures bar_in_parentheses { Refuses standard (codes "(a|b).") 2 }
    ensures two_bars { Refuses standard (codes "[a|b|c].") 4 }
    ensures comma_behind_bar { Refuses standard (codes "[a|b,c].") 4 }
    ensures bar_first { Refuses standard (codes "[|a].") 1 }
    ensures no_operand { Refuses standard (codes "a= .") 2 }
    ensures nothing { Refuses standard (codes " .") 0 }
    ensures open_parenthesis { Refuses standard (codes "(a.") 2 }
{}
