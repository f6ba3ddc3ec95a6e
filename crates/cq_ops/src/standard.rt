// The operators at the start.
ghost use Rattle.std.specs.Prelude.{◌≡◌, ◌≤◌, List, map, take, drop, IfOk, OnOk};
ghost use Rattle.spec_numbers.specs.Texts.{Text};
ghost use Rattle.cq_term.specs.Texts.{KeepsTexts};
ghost use Rattle.spec_syntax.specs.Standard.{standard, rows, put_names, put_rows, empty};
ghost use Rattle.cq_ops.specs.Tables.{AreNamed, named};

use crate::Ops;
use crate::operators::Operators;
use cq_term::atoms::Atoms;
use spec_syntax::operators::OpKind;
use std::alloc::{AllocError, Global};

impl Ops {
    /// The operators at the start, whose names are given numbers.
    pub fn standard(alloc: Global, atoms: &mut Atoms) -> Result<Ops, AllocError>
        ensures table { IfOk result (λ ops. named atoms.new ops ≡ standard) }
        ensures known { IfOk result (AreNamed atoms.new) }
        ensures kept { KeepsTexts atoms.old atoms.new }
    {
        let mut ops = Ops::empty(alloc);
        ops.put_declarations(atoms)?;
        ops.put_control(atoms)?;
        ops.put_comparisons(atoms)?;
        ops.put_powers(atoms)?;
        Ok(ops)
    }

    /// The operators of clauses, queries and declarations.
    fn put_declarations(&mut self, atoms: &mut Atoms) -> Result<(), AllocError>
        requires { AreNamed atoms.old self.old }
        ensures table { OnOk result (named atoms.new self.new ≡ put_rows (named atoms.old self.old) (take 3 rows)) }
        ensures known { OnOk result (AreNamed atoms.new self.new) }
        ensures kept { KeepsTexts atoms.old atoms.new }
    {
        self.put_names(atoms, 1200, OpKind::Xfx, &[":-", "-->"])?;
        self.put_names(atoms, 1200, OpKind::Fx, &[":-", "?-"])?;
        self.put_names(
            atoms,
            1150,
            OpKind::Fx,
            &["dynamic", "discontiguous", "initialization"],
        )?;
        Ok(())
    }

    /// The operators of disjunctions, implications, conjunctions and negations.
    fn put_control(&mut self, atoms: &mut Atoms) -> Result<(), AllocError>
        requires { AreNamed atoms.old self.old }
        ensures table { OnOk result (named atoms.new self.new ≡ put_rows (named atoms.old self.old) (take 4 (drop 3 rows))) }
        ensures known { OnOk result (AreNamed atoms.new self.new) }
        ensures kept { KeepsTexts atoms.old atoms.new }
    {
        self.put_names(atoms, 1100, OpKind::Xfy, &[";"])?;
        self.put_names(atoms, 1050, OpKind::Xfy, &["->"])?;
        self.put_names(atoms, 1000, OpKind::Xfy, &[","])?;
        self.put_names(atoms, 900, OpKind::Fy, &["\\+"])?;
        Ok(())
    }

    /// Comparisons, sums and products.
    fn put_comparisons(&mut self, atoms: &mut Atoms) -> Result<(), AllocError>
        requires { AreNamed atoms.old self.old }
        ensures table { OnOk result (named atoms.new self.new ≡ put_rows (named atoms.old self.old) (take 3 (drop 7 rows))) }
        ensures known { OnOk result (AreNamed atoms.new self.new) }
        ensures kept { KeepsTexts atoms.old atoms.new }
    {
        self.put_names(
            atoms,
            700,
            OpKind::Xfx,
            &[
                "=", "\\=", "==", "\\==", "@<", "@=<", "@>", "@>=", "=..", "is", "=:=", "=\\=",
                "<", "=<", ">", ">=",
            ],
        )?;
        self.put_names(atoms, 500, OpKind::Yfx, &["+", "-", "/\\", "\\/"])?;
        self.put_names(
            atoms,
            400,
            OpKind::Yfx,
            &["*", "/", "//", "rem", "mod", "<<", ">>"],
        )?;
        Ok(())
    }

    /// Powers and signs.
    fn put_powers(&mut self, atoms: &mut Atoms) -> Result<(), AllocError>
        requires { AreNamed atoms.old self.old }
        ensures table { OnOk result (named atoms.new self.new ≡ put_rows (named atoms.old self.old) (drop 10 rows)) }
        ensures known { OnOk result (AreNamed atoms.new self.new) }
        ensures kept { KeepsTexts atoms.old atoms.new }
    {
        self.put_names(atoms, 200, OpKind::Xfx, &["**"])?;
        self.put_names(atoms, 200, OpKind::Xfy, &["^"])?;
        self.put_names(atoms, 200, OpKind::Fy, &["-", "\\", "+"])?;
        Ok(())
    }

    /// No operators.
    fn empty(alloc: Global) -> Ops
        ensures table { (texts : List Text) → named texts result ≡ empty }
        ensures known { (texts : List Text) → AreNamed texts result }
    {
        Ops {
            prefix: Operators::new(alloc),
            infixed: Operators::new(alloc),
            postfix: Operators::new(alloc),
        }
    }

    /// Sets an operator for each of these names.
    fn put_names(
        &mut self,
        atoms: &mut Atoms,
        priority: u16,
        kind: OpKind,
        names: &[&str],
    ) -> Result<(), AllocError>
        requires in_range { priority ≤ 1200 }
        requires known { AreNamed atoms.old self.old }
        ensures table { OnOk result (named atoms.new self.new ≡ put_names (named atoms.old self.old) priority kind (map (λ name. name.now) names.now)) }
        ensures known { OnOk result (AreNamed atoms.new self.new) }
        ensures kept { KeepsTexts atoms.old atoms.new }
    {
        for name in names {
            let atom = atoms.intern(name)?;
            self.put(priority, kind, atom)?;
        }
        Ok(())
    }
}
