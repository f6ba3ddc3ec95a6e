//! Logs of lists of linear constraints that have no solution, and what a check of one finds. No code but the enum of what
//! is found: each function has an empty body, and its contract is a law of the definitions.
#![tactic(auto)]

ghost use Rattle.std.specs.Prelude.{◌≡◌, ℕ, List, ◌++◌, codes};
ghost use Rattle.std.specs.List.{AllByRecursion};
ghost use Rattle.spec_numbers.specs.Rational.{ℚ};
ghost use Rattle.spec_numbers.specs.Texts.{Text};
ghost use Rattle.spec_linear.specs.Solution.{Constraint, Unsolvable};
ghost use Rattle.spec_linear.specs.Certificate.{Refutes};
ghost use Rattle.spec_log.specs.Log.{Run, certificate, IsLog};
ghost use Rattle.spec_log.specs.Verdicts.{verdict};
ghost use Rattle.spec_log.specs.Written.{runs_of};

/// What a check of a log finds. Lines count from 1.
#[derive(Clone, Copy, Debug, PartialEq, Eq)]
pub enum Verdict {
    /// The text is a log of so many entries.
    Accepted(usize),
    /// The first line that does not belong there, or the last of a certificate that does not refute.
    Wrong(usize),
    /// The line of a run whose multiples cannot be added up in 128 bits.
    Wide(usize),
}

/// What is accepted is a log.
pub fn accepted_texts_are_logs()
    ensures { (text : Text) (n : ℕ) → verdict text ≡ Verdict.Accepted n → IsLog n text }
{}

/// No list of a log has a solution.
pub fn logs_have_no_solvable_list()
    ensures { (text : Text) (n : ℕ) (h : IsLog n text) → AllByRecursion (λ e. Unsolvable e.list) h.entries }
{}

/// A certificate goes on refuting a list that grows at its end.
pub fn certificates_go_on()
    ensures { (cert : List (ℕ × ℚ)) (l m : List Constraint) → Refutes cert l → Refutes cert (l ++ m) }
{}

/// The runs into which a certificate is cut are the certificate.
pub fn runs_are_the_certificate()
    ensures { (l : List Constraint) (cert : Run) → certificate (runs_of l cert) ≡ cert }
{}

/// Five texts and what a check finds.
pub fn some_verdicts()
    // x >= 1 and x =< 0
    ensures accepted { verdict (codes "clpq proof 1\nlist 2\nge -1 1:1\nge 0 1:-1\nrun 1:1 2:1\ndone 1\n") ≡ Verdict.Accepted 1 }
    // the multipliers leave a variable
    ensures wrong { verdict (codes "clpq proof 1\nlist 2\nge -1 1:1\nge 0 1:-1\nrun 1:1 2:2\ndone 1\n") ≡ Verdict.Wrong 5 }
    // the last line is missing
    ensures missing { verdict (codes "clpq proof 1\nlist 2\nge -1 1:1\nge 0 1:-1\nrun 1:1 2:1\n") ≡ Verdict.Wrong 6 }
    ensures empty { verdict (codes "clpq proof 1\ndone 0\n") ≡ Verdict.Accepted 0 }
    // x =\= 0 and x = 0
    ensures apart { verdict (codes "clpq proof 1\nlist 2\nne 0 1:1\neq 0 1:1\nrun 1:1 2:-1\nrun 1:-1 2:1\ndone 1\n")
        ≡ Verdict.Accepted 1 }
{}
