//! The parameters and locals of a function.

ghost use Rattle.std.specs.Prelude.{◌≡◌, [], ◌∷◌, ◌++◌, map, IfOk, OnOk};
ghost use Rattle.c_tree.specs.Lifting as lifting;
ghost use Rattle.c_lift.specs.Variables.{as_slot, slots_of, slots_list, slots_other};

use c_tree::{Boxed, Field, Function, Name, Row, Slot, Stmt, StmtKind, Ty};
use std::alloc::{AllocError, Global};

fn add(slots: &mut Vec<Slot>, name: &Name, ty: &Ty) -> Result<(), AllocError>
    ensures { OnOk result (slots.new.items ≡ slots.old.items ++ record {
      name = name.now;
      ty =
          ty.now;
    } ∷ []) }
{
    slots.push(Slot {
        name: name.clone()?,
        ty: ty.clone()?,
    })?;
    Ok(())
}

/// The parameters and locals of a function in order of declaration, with their names as they are
/// declared.
pub fn variables(alloc: Global, function: &Function) -> Result<Vec<Slot>, AllocError>
    ensures { IfOk result (λ v. v.items ≡ map as_slot (lifting.variables_of function.now)) }
{
    let mut slots = Vec::new(alloc);
    add_parameters(&mut slots, function.params.as_slice())?;
    add_body(&function.body, &mut slots)?;
    Ok(slots)
}

fn add_body(body: &Option<Row<Stmt>>, slots: &mut Vec<Slot>) -> Result<(), AllocError>
    ensures { OnOk result (slots.new.items ≡ slots.old.items ++ slots_list (lifting.body_of
        body.now)) }
{
    match body {
        None => Ok(()),
        Some(stmts) => add_all(stmts.as_slice(), slots),
    }
}

fn add_parameters(slots: &mut Vec<Slot>, params: &[Field]) -> Result<(), AllocError>
    ensures { OnOk result (slots.new.items ≡ slots.old.items ++ map (λ q. record {
      name =
          q.name.it;
      ty = q.ty;
    }) params.now) }
{
    for param in params {
        add(slots, &param.name.it, &param.ty)?;
    }
    Ok(())
}

/// The locals that a statement declares.
#[cycle(locals)]
#[tactic(auto, using(crate::proofs::VariableLemmas::slot_rules))]
fn add_locals(s: &Stmt, slots: &mut Vec<Slot>) -> Result<(), AllocError>
    ensures { OnOk result (slots.new.items ≡ slots.old.items ++ slots_of s.now.kind) }
{
    match &s.kind {
        StmtKind::Block(inner) => add_all(inner.as_slice(), slots),
        StmtKind::Declare(ty, name, _) => add(slots, name, ty),
        StmtKind::If(_, yes, no) => {
            add_locals(yes.get(), slots)?;
            add_other(no, slots)
        }
        StmtKind::While(_, inner) => add_locals(inner.get(), slots),
        StmtKind::For(starts, _, _, inner) => {
            add_all(starts.as_slice(), slots)?;
            add_locals(inner.get(), slots)
        }
        StmtKind::Empty => Ok(()),
        StmtKind::Break => Ok(()),
        StmtKind::Continue => Ok(()),
        StmtKind::Return(_) => Ok(()),
        StmtKind::Assign(_, _, _) => Ok(()),
        StmtKind::Run(_) => Ok(()),
        StmtKind::Free(_) => Ok(()),
        StmtKind::Print(_, _) => Ok(()),
    }
}

#[cycle(locals)]
#[tactic(auto, using(crate::proofs::VariableLemmas::slot_rules))]
fn add_all(stmts: &[Stmt], slots: &mut Vec<Slot>) -> Result<(), AllocError>
    ensures { OnOk result (slots.new.items ≡ slots.old.items ++ slots_list stmts.now) }
{
    for s in stmts {
        add_locals(s, slots)?;
    }
    Ok(())
}

#[cycle(locals)]
#[tactic(auto, using(crate::proofs::VariableLemmas::slot_rules))]
fn add_other(other: &Option<Boxed<Stmt>>, slots: &mut Vec<Slot>) -> Result<(), AllocError>
    ensures { OnOk result (slots.new.items ≡ slots.old.items ++ slots_other other.now) }
{
    match other {
        None => Ok(()),
        Some(s) => add_locals(s.get(), slots),
    }
}
