//! Functions are lifted.

ghost use Rattle.std.specs.Prelude.{◌≡◌, [], ◌++◌, length, IfOk, OnOk};
ghost use Rattle.c_tree.specs.Lifting as lifting;
ghost use Rattle.c_tree.specs.Scope as spec;
ghost use Rattle.c_lift.specs.Adding.{Adds};
ghost use Rattle.c_lift.specs.Around.{standing};
ghost use Rattle.c_lift.specs.Lifts.{body_lifted, lift_list};
ghost use Rattle.c_lift.specs.Variables.{numbered_after};

use crate::compound::add_local;
use crate::names::{add_temporaries, numbered};
use crate::spot::{Locals, Setting};
use crate::stmt::lift_all;
use crate::variables::variables;
use c_tree::{Field, Function, LFunction, LStmt, Row, Slot, Stmt, Ty, narrowed};
use name_index::File;
use std::alloc::{AllocError, Global};

/// The parameters come into scope.
fn add_parameters(
    params: &[Field],
    setting: &Setting,
    locals: &mut Locals,
) -> Result<(), AllocError>
    ensures { OnOk result ((standing setting.now locals.new).scope ≡ spec.with_parameters
        (standing setting.now locals.old).scope params.now) }
{
    for param in params {
        add_local(param.name.at, &param.ty, &param.name.it, locals)?;
    }
    Ok(())
}

/// The statements of a body. A prototype has none.
fn lift_stmts(
    body: &Option<Row<Stmt>>,
    setting: &Setting,
    locals: &mut Locals,
    made: &mut Vec<Ty>,
) -> Result<Vec<LStmt>, AllocError>
    ensures { IfOk result (λ v. Adds (lift_list (standing setting.now locals.old) made.old.items
        (lifting.body_of body.now)) [] v.items made.new.items) }
{
    let mut lifted = Vec::new(setting.alloc);
    match body {
        None => Ok(lifted),
        Some(stmts) => {
            lift_all(stmts.as_slice(), setting, locals, made, &mut lifted)?;
            Ok(lifted)
        }
    }
}

/// The body of a function, of which the temporaries are all there are.
fn lift_body(
    setting: &Setting,
    function: &Function,
    made: &mut Vec<Ty>,
) -> Result<Vec<LStmt>, AllocError>
    requires { made.old.items ≡ [] }
    ensures { IfOk result (λ v. Adds (body_lifted setting.now function.now) [] v.items
        made.new.items) }
{
    let mut locals = Locals {
        names: Vec::new(setting.alloc),
        slots: Vec::new(setting.alloc),
    };
    add_parameters(function.params.as_slice(), setting, &mut locals)?;
    let body = lift_stmts(&function.body, setting, &mut locals, made)?;
    Ok(body)
}

/// The names and types of all slots: parameters, locals, temporaries.
fn all_slots(alloc: Global, plain: &[Slot], made: &[Ty]) -> Result<Vec<Slot>, AllocError>
    ensures { IfOk result (λ v. v.items ≡ numbered_after [] plain.now ++ lifting.temporary_slots
        1 made.now) }
{
    let mut slots = numbered(alloc, plain)?;
    add_temporaries(alloc, &mut slots, made)?;
    Ok(slots)
}

fn with_parts(
    function: &Function,
    slots: Vec<Slot>,
    body: Vec<LStmt>,
) -> Result<LFunction, AllocError>
    ensures { IfOk result (λ g. g ≡ record {
      name = function.now.name.it;
      ret = function.now.ret;
      params = length function.now.params;
      slots = slots.items;
      body = body.items;
    }) }
{
    Ok(LFunction {
        name: function.name.it.clone()?,
        ret: function.ret.clone()?,
        params: narrowed(function.params.len())?,
        slots: Row::from_vec(slots),
        body: Row::from_vec(body),
    })
}

/// A function's lifting.
pub fn lift_function(
    alloc: Global,
    file: &File,
    function: &Function,
) -> Result<LFunction, AllocError>
    ensures { IfOk result (λ g. g ≡ lifting.lift_function file.now function.now) }
{
    let plain = variables(alloc, function)?;
    let setting = Setting {
        alloc,
        file,
        base: narrowed(plain.len())?,
        ret: &function.ret,
    };
    let mut made = Vec::new(alloc);
    let body = lift_body(&setting, function, &mut made)?;
    let slots = all_slots(alloc, plain.as_slice(), made.as_slice())?;
    let lifted = with_parts(function, slots, body)?;
    Ok(lifted)
}
