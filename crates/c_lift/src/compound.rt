//! The parts of statements that hold statements.

ghost use Rattle.std.specs.Prelude.{◌≡◌, [], ◌∷◌, ◌++◌, take, length, IfOk, OnOk};
ghost use Rattle.c_tree.specs.Lifting as lifting;
ghost use Rattle.c_tree.specs.declared.lifted.LStmt as t;
ghost use Rattle.c_tree.specs.declared.program.StmtKind.TheVariants as s;
ghost use Rattle.c_tree.specs.declared.scope.Meaning.TheVariants as m;
ghost use Rattle.c_lift.specs.Around.{standing};
ghost use Rattle.c_lift.specs.Lifts.{Lifts};
ghost use Rattle.c_lift.specs.Taking.{Took};

use crate::call::add_call;
use crate::simple::start_value;
use crate::spot::{Locals, Setting, Spot};
use crate::take::take;
use crate::taken::Taken;
use c_tree::{Expr, Items, LExpr, LStmt, Meaning, Name, Named, Ty, narrowed};
use std::alloc::AllocError;

/// The calls of a loop's test, and what is left of it.
#[derive(Drop)]
pub struct LoopTest {
    pub calls: Vec<LStmt>,
    pub value: LExpr,
}

/// The number of names in scope.
pub fn scope_depth(locals: &Locals) -> usize
    ensures { result ≡ length locals.now.names.items }
{
    locals.names.len()
}

/// Leaves a block: of the names the first so many stay in scope.
pub fn leave(locals: &mut Locals, count: usize)
    ensures names { locals.new.names.items ≡ take count locals.old.names.items }
    ensures slots { locals.new.slots.items ≡ locals.old.slots.items }
{
    locals.names.truncate(count);
}

/// Forgets all locals but the first so many names and slots.
pub fn back_to(locals: &mut Locals, names: usize, slots: usize)
    ensures names { locals.new.names.items ≡ take names locals.old.names.items }
    ensures slots { locals.new.slots.items ≡ take slots locals.old.slots.items }
{
    locals.names.truncate(names);
    locals.slots.truncate(slots);
}

/// A local comes into scope.
pub fn add_local(at: u32, ty: &Ty, name: &Name, locals: &mut Locals) -> Result<u32, AllocError>
    ensures slot { IfOk result (λ k. k ≡ length locals.old.slots.items) }
    ensures names { OnOk result (locals.new.names.items ≡ locals.old.names.items ++ record {
      at
          = at;
      name = name.now;
      meaning = m.Local (length locals.old.slots.items);
    } ∷ []) }
    ensures slots { OnOk result (locals.new.slots.items ≡ locals.old.slots.items ++ ty.now ∷ []) }
{
    let slot = narrowed(locals.slots.len())?;
    let named = Named {
        at,
        name: name.clone()?,
        meaning: Meaning::Local(slot),
    };
    locals.slots.push(ty.clone()?)?;
    locals.names.push(named)?;
    Ok(slot)
}

/// A declaration.
pub fn declare(
    at: u32,
    ty: &Ty,
    name: &Name,
    value: &Option<Expr>,
    setting: &Setting,
    locals: &mut Locals,
    made: &mut Vec<Ty>,
    body: &mut Vec<LStmt>,
) -> Result<(), AllocError>
    ensures { OnOk result (Lifts setting.now at (s.Declare ty.now name.now value.now) locals.old
        made.old.items body.old.items locals.new made.new.items body.new.items) }
{
    let slot = add_local(at, ty, name, locals)?;
    start_value(slot, ty, value, &Spot { setting, locals }, body, made)?;
    Ok(())
}

/// The test of a branch, of which the calls are added to those before.
pub fn branch_test(
    test: &Expr,
    setting: &Setting,
    locals: &Locals,
    made: &mut Vec<Ty>,
    body: &mut Vec<LStmt>,
) -> Result<Taken, AllocError>
    ensures { IfOk result (λ t. Took (standing setting.now locals.now) test.now.kind
        body.old.items made.old.items t.value t.ty body.new.items made.new.items) }
{
    let taken = take(test, &Spot { setting, locals }, body, made)?;
    Ok(taken)
}

/// The test of a loop.
pub fn loop_test(
    test: &Expr,
    setting: &Setting,
    locals: &Locals,
    made: &mut Vec<Ty>,
) -> Result<LoopTest, AllocError>
    ensures calls { IfOk result (λ t. t.calls.items
        ≡ (lifting.take_calls (standing setting.now locals.now) made.old.items
        test.now.kind).calls) }
    ensures value { IfOk result (λ t. t.value
        ≡ (lifting.take_calls (standing setting.now locals.now) made.old.items
        test.now.kind).value) }
    ensures made { OnOk result (made.new.items
        ≡ (lifting.take_calls (standing setting.now locals.now) made.old.items
        test.now.kind).made) }
{
    let mut calls = Vec::new(setting.alloc);
    let value = take(test, &Spot { setting, locals }, &mut calls, made)?.into_value();
    Ok(LoopTest { calls, value })
}

/// The test of a `for`. An absent one is the literal 1.
pub fn for_test(
    test: &Option<Expr>,
    setting: &Setting,
    locals: &Locals,
    made: &mut Vec<Ty>,
) -> Result<LoopTest, AllocError>
    ensures calls { IfOk result (λ t. t.calls.items
        ≡ (lifting.take_test (standing setting.now locals.now) made.old.items test.now).calls) }
    ensures value { IfOk result (λ t. t.value
        ≡ (lifting.take_test (standing setting.now locals.now) made.old.items test.now).value) }
    ensures made { OnOk result (made.new.items
        ≡ (lifting.take_test (standing setting.now locals.now) made.old.items test.now).made) }
{
    match test {
        None => Ok(LoopTest {
            calls: Vec::new(setting.alloc),
            value: LExpr::Num(1),
        }),
        Some(test) => loop_test(test, setting, locals, made),
    }
}

/// A branch, after the calls of its test.
pub fn add_if(
    test: Taken,
    yes: Vec<LStmt>,
    no: Vec<LStmt>,
    body: &mut Vec<LStmt>,
) -> Result<(), AllocError>
    ensures { OnOk result (body.new.items ≡ body.old.items ++ t.If test.value yes.items no.items
        ∷ []) }
{
    add_call(
        body,
        LStmt::If(test.into_value(), Items::from_vec(yes), Items::from_vec(no)),
    )
}

/// A loop.
pub fn add_loop(
    test: LoopTest,
    inner: Vec<LStmt>,
    step: Vec<LStmt>,
    body: &mut Vec<LStmt>,
) -> Result<(), AllocError>
    ensures { OnOk result (body.new.items ≡ body.old.items ++ t.Loop test.calls.items test.value
        inner.items step.items ∷ []) }
{
    let LoopTest { calls, value } = test;
    add_call(
        body,
        LStmt::Loop(
            Items::from_vec(calls),
            value,
            Items::from_vec(inner),
            Items::from_vec(step),
        ),
    )
}
