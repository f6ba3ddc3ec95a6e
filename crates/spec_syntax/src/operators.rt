//! The operator table: its definition, and laws about it.
#![tactic(auto)]

ghost use Rattle.std.specs.Prelude.{◌≡◌, Some, None, Ok, Err, codes, pos, neg_ℤ, IsSome, IsTrue, ◌⊎◌};
ghost use Rattle.spec_numbers.specs.Texts.{Text};
ghost use Rattle.spec_syntax.specs.Operators.{Ops, set, Position, Prefix, Infix, Postfix, Fits, Refusal, BadPriority, BadKind, Comma, Clash};
ghost use Rattle.spec_syntax.specs.Standard.{standard};

/// The kinds of operators: `f` is the operator, `y` an operand of at most its priority, `x` one of a lower priority.
#[derive(Clone, Copy, PartialEq, Eq)]
pub enum OpKind {
    Xfx,
    Xfy,
    Yfx,
    Fy,
    Fx,
    Xf,
    Yf,
}

/// What a name is as an operator: its priority, from 1 to 1200, and its kind.
#[derive(Clone, Copy, PartialEq, Eq)]
pub struct OpDef {
    pub priority: u16,
    pub kind: OpKind,
}

/// What the table says at the start.
pub fn operators_at_the_start()
    ensures rule { standard.infixed (codes ":-") ≡ Some (record { priority = 1200; kind = OpKind.Xfx }) }
    ensures directive { standard.prefix (codes ":-") ≡ Some (record { priority = 1200; kind = OpKind.Fx }) }
    ensures minus { standard.prefix (codes "-") ≡ Some (record { priority = 200; kind = OpKind.Fy }) }
    ensures difference { standard.infixed (codes "-") ≡ Some (record { priority = 500; kind = OpKind.Yfx }) }
    ensures comma { standard.infixed (codes ",") ≡ Some (record { priority = 1000; kind = OpKind.Xfy }) }
    ensures power { standard.infixed (codes "^") ≡ Some (record { priority = 200; kind = OpKind.Xfy }) }
    ensures bar { standard.infixed (codes "|") ≡ None }
    ensures no_postfix { (name : Text) → standard.postfix name ≡ None }
{}

/// What `op/3` refuses, and in which order it looks.
pub fn refusals()
    ensures high { set standard (pos 1201) (codes "abc") (codes ",") ≡ Err BadPriority }
    ensures negative { set standard (neg_ℤ (pos 1)) (codes "abc") (codes ",") ≡ Err BadPriority }
    ensures kind { set standard (pos 1200) (codes "abc") (codes ",") ≡ Err BadKind }
    ensures comma { set standard (pos 0) (codes "xfx") (codes ",") ≡ Err Comma }
    ensures both { set standard (pos 100) (codes "xf") (codes "+") ≡ Err Clash }
    ensures list { set standard (pos 0) (codes "xf") (codes "[]") ≡ Err Clash }
{}
