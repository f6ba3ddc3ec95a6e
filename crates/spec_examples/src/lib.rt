//! Whole transcripts, derived from bytes by the definitions: examples to see what these say, and nothing to be believed. No
//! code: each function has an empty body, and its contract is what some inputs write.
#![tactic(auto)]

ghost use Rattle.std.specs.Prelude.{[], codes};
ghost use Rattle.spec_examples.specs.Rows.{answers, goals, Writes, WritesError, WritesStop, WritesWithin, StopsWithin, WritesAfter, WritesErrorAfter, StopsAfter};

/// Nothing, and goals that fail.
pub fn failures()
    ensures nothing { Writes [] [] }
    ensures failure { Writes (codes "?- fail.") (codes "no\n") }
    ensures occurs { Writes (codes "?- X=f(X).") (codes "no\n") }
{}

/// Answers that bind variables, one after the other.
pub fn bindings()
    ensures variables { Writes (codes "?- X=Y.") (codes "Y = X\n;\nno\n") }
    ensures alternatives { Writes (codes "?- ( X=1 ; X=2 ), ( X=1 -> Y=a ; Y=b ).") (codes "X = 1\nY = a\n;\nX = 2\nY = b\n;\nno\n") }
    ensures terms { Writes (codes "?- X = 'hello world', Y = [a|T], Z = -(1), W = (a:-b).")
        (codes "X = 'hello world'\nY = [a|T]\nZ = -(1)\nW = (a:-b)\n;\nno\n") }
    ensures order { Writes (codes "?- f(b) @> 3, a @< f(b), 1r2 @< 1.") (codes "true\n;\nno\n") }
    ensures concatenations { Writes (codes "?- atom_concat(X,Y,ab).") (codes "X = ''\nY = ab\n;\nX = a\nY = b\n;\nX = ab\nY = ''\n;\nno\n") }
{}

/// Values of expressions, and what has none.
pub fn arithmetic()
    ensures values { Writes (codes "?- X is 7 mod -2, Y is -7//2, Z is 1/3.") (codes "X = -1\nY = -3\nZ = 1r3\n;\nno\n") }
    ensures evaluable { WritesError (codes "?- X is foo+1.") (codes "error: error(type_error(evaluable,foo/0),(is)/2)\n") }
    ensures overflow { WritesStop (codes "?- X is 170141183460469231731687303715884105727+1.") (codes "stop: overflow\n") }
{}

/// Output stands where it was made.
pub fn output()
    ensures write { Writes (codes "?- write(a).") (codes "atrue\n;\nno\n") }
    ensures quoted { Writes (codes "?- writeq('hello world'), nl.") (codes "'hello world'\ntrue\n;\nno\n") }
    ensures operator { Writes (codes "?- op(700,xfx,===>). ?- writeq(a===>b).") (codes "true\n;\nno\na===>btrue\n;\nno\n") }
{}

/// Balls: those that nothing catches, one that a catch takes, and one that it hands on.
pub fn balls()
    ensures unknown { WritesError (codes "?- foo.") (codes "error: error(existence_error(procedure,foo/0),foo/0)\n") }
    ensures instantiation { WritesError (codes "?- atom_length(X,N).") (codes "error: error(instantiation_error,atom_length/2)\n") }
    ensures thrown { WritesError (codes "?- throw(b(X)).") (codes "error: b(_1)\n") }
    ensures caught { Writes (codes "?- catch(p(X),error(existence_error(procedure,PI),_),true).") (codes "PI = p/1\n;\nno\n") }
    ensures handed_on { WritesError (codes "?- catch(throw(a),b,true).") (codes "error: a\n") }
{}

/// Goals that are asked for all solutions, or for none.
pub fn solutions()
    ensures all { Writes (codes "?- findall(X,(X=1;X=2),L).") (codes "L = [1,2]\n;\nno\n") }
    ensures none { Writes (codes "?- findall(X,fail,L).") (codes "L = []\n;\nno\n") }
    ensures refuted { Writes (codes "?- \\+ fail.") (codes "true\n;\nno\n") }
    ensures proved { Writes (codes "?- \\+ X=1.") (codes "no\n") }
{}

/// Texts in which no clause stands, and what stands behind them.
pub fn syntax()
    ensures cut { WritesError (codes "?- {X = ") (codes "error: syntax 8\n") }
    ensures refused { WritesError (codes "?- a b. true.") (codes "error: syntax 5\ntrue\n;\nno\n") }
    ensures float { WritesError (codes "?- X = 1.5.") (codes "error: syntax 8\n") }
    ensures wide { WritesError (codes "?- X = 170141183460469231731687303715884105728.") (codes "error: syntax 7\n") }
{}

/// Queries that end by their budgets.
pub fn budgets()
    ensures goals { StopsWithin (goals 2) (codes "?- X=1 ; X=2.") (codes "X = 1\n;\nstop: resolutions\n") }
    ensures enough { WritesWithin (goals 3) (codes "?- X=1 ; X=2.") (codes "X = 1\n;\nX = 2\n;\nno\n") }
    ensures answers { WritesWithin (answers 1) (codes "?- X=1 ; X=2.") (codes "X = 1\n;\nmore\n") }
    ensures endless { StopsAfter (codes "loop :- loop.") (codes "?- loop.") (codes "stop: resolutions\n") }
{}

/// Goals that change the clauses, and what is asked of them then.
pub fn changes()
    ensures added { Writes (codes "?- assertz(p(1)). ?- p(X).") (codes "true\n;\nno\nX = 1\n;\nno\n") }
    ensures removed { WritesAfter (codes ":- dynamic p/1. p(1). p(2).") (codes "?- retract(p(1)). ?- p(X).") (codes "true\n;\nno\nX = 2\n;\nno\n") }
    // a call that runs doesn't see the clause that is added
    ensures snapshot { WritesAfter (codes ":- dynamic p/1. p(1).") (codes "?- p(X), Y is X+1, assertz(p(Y)). ?- p(X).")
        (codes "X = 1\nY = 2\n;\nno\nX = 1\n;\nX = 2\n;\nno\n") }
{}

/// Directives: one that succeeds writes nothing of its own, and one goal waits for the end of its file.
pub fn directives()
    ensures success { Writes (codes ":- write(a).") (codes "a") }
    ensures failure { Writes (codes ":- fail.") (codes "no\n") }
    ensures later { WritesAfter (codes ":- initialization(write(b)). :- write(a).") [] (codes "ab") }
{}

/// Clauses of files.
pub fn clauses()
    ensures cut { WritesAfter (codes "q(1). q(2). r(X) :- q(X), !.") (codes "?- r(X).") (codes "X = 1\n;\nno\n") }
    ensures refused { WritesErrorAfter (codes "atom_length(a,1). p.") (codes "?- p.")
        (codes "error: error(permission_error(modify,static_procedure,atom_length/2),assertz/1)\ntrue\n;\nno\n") }
    ensures opaque { WritesAfter (codes "p(1). p(2).") (codes "?- call((p(X),!)), p(Y).") (codes "X = 1\nY = 1\n;\nX = 1\nY = 2\n;\nno\n") }
{}

/// Told constraints: one that fixes a variable, one that follows from another, two of which a variable is eliminated, one that
/// waits, one that a binding breaks, and one whose numbers overflow.
pub fn constraints()
    ensures value { Writes (codes "?- {2*X+3=7}.") (codes "X = 2\n;\nno\n") }
    ensures inequality { Writes (codes "?- {X>=3, X>=5}.") (codes "{X>=5}\n;\nno\n") }
    // a variable whose name begins with `_` isn't asked for
    ensures projection { Writes (codes "?- {X=<_A, _A=<3}.") (codes "{X=<3}\n;\nno\n") }
    ensures delayed { Writes (codes "?- {X*Y=6}.") (codes "{X*Y=6}\n;\nno\n") }
    // a numeric variable becomes no atom
    ensures clash { Writes (codes "?- {X>0}, X=a.") (codes "no\n") }
    ensures overflow { WritesStop (codes "?- {X=170141183460469231731687303715884105727+1}.") (codes "stop: overflow\n") }
{}

/// Goals that sleep until their variable is bound: one that is left asleep, and two that wake in the order in which they went to sleep.
pub fn sleepers()
    ensures asleep { Writes (codes "?- freeze(X,foo(Y)).") (codes "freeze(X,foo(Y))\n;\nno\n") }
    ensures woken { Writes (codes "?- freeze(X,write(a)), freeze(X,write(b)), X=1.") (codes "abX = 1\n;\nno\n") }
{}
