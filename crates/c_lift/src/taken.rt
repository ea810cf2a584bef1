//! Values that are left of expressions without calls.

ghost use Rattle.std.specs.Prelude.{◌≡◌, ◌&&◌, [], ◌∷◌, ◌++◌, Some, None, pos, true, IfOk, OnOk};
ghost use Rattle.c_tree.specs.Lifting as lifting;
ghost use Rattle.c_tree.specs.Scope as spec;
ghost use Rattle.c_tree.specs.Types as types;
ghost use Rattle.c_tree.specs.declared.lifted.LExpr as l;
ghost use Rattle.c_tree.specs.declared.ty.Ty.TheVariants as ty;
ghost use Rattle.c_lift.specs.Around.{around};

use crate::build::{array_number, bin, elem, field, literal, named, un};
use crate::kind::{field_number, field_type, name_type};
use crate::spot::Spot;
use c_tree::{BinOp, Expr, Field, LExpr, Name, Ty, UnOp};
use name_index::{File, element_type};
use std::alloc::AllocError;

/// What is left of an expression without its calls, and its type where it can be told.
pub struct Taken {
    /// The expression.
    pub value: LExpr,
    /// Its type, of a void call or a wrong expression none.
    pub ty: Option<Ty>,
}

impl Drop for Taken {
    fn drop(self) {
        let Taken { value: _, ty: _ } = self;
    }
}

impl Taken {
    /// The expression alone.
    pub fn into_value(self) -> LExpr
        ensures { result ≡ self.value }
    {
        let Taken { value, ty: _ } = self;
        value
    }

    /// The expression and its type.
    pub fn into_parts(self) -> (LExpr, Option<Ty>)
        ensures value { result.0 ≡ self.value }
        ensures ty { result.1 ≡ self.ty }
    {
        let Taken { value, ty } = self;
        (value, ty)
    }

    /// A field of the struct that the value points to.
    pub fn member(self, at: &Spot, name: &Name) -> Result<Taken, AllocError>
        ensures value { IfOk result (λ t. t.value
            ≡ lifting.field_in (around at.now).scope self.value self.ty name.now) }
        ensures ty { IfOk result (λ t. t.ty
            ≡ types.member_type (around at.now).scope self.ty name.now) }
    {
        let Taken { value, ty } = self;
        match ty {
            Some(Ty::Ptr(owner)) => field_of(at, value, &owner, name),
            _ => Ok(untold()),
        }
    }
}

/// The fields of the first struct of a name.
fn fields_of<'a>(file: &'a File<'_>, owner: &Name) -> &'a [Field]
    ensures { result.now
        ≡ lifting.fields_of (spec.struct_named (spec.file_scope file.now) owner.now) }
{
    match file.struct_named(owner) {
        Some(found) => found.fields.as_slice(),
        None => &[],
    }
}

/// A field of a struct that a value points to.
fn field_of(at: &Spot, value: LExpr, owner: &Name, name: &Name) -> Result<Taken, AllocError>
    ensures value { IfOk result (λ t. t.value
        ≡ lifting.field_in (around at.now).scope value (Some (ty.Ptr owner.now)) name.now) }
    ensures ty { IfOk result (λ t. t.ty
        ≡ types.member_type (around at.now).scope (Some (ty.Ptr owner.now)) name.now) }
{
    let fields = fields_of(at.setting.file, owner);
    let number = field_number(fields, name)?;
    let ty = field_type(fields, name)?;
    let place = at.setting.file.struct_number(owner);
    let value = field(at.setting.alloc, value, place, number)?;
    Ok(Taken { value, ty })
}

/// A value of the type `int`.
pub fn int(value: LExpr) -> Taken
    ensures { result ≡ record { value = value; ty = Some ty.Int } }
{
    Taken {
        value,
        ty: Some(Ty::Int),
    }
}

/// A number.
pub fn literal_value(n: &i32) -> Taken
    ensures { result ≡ record { value = l.Num n.now; ty = Some ty.Int } }
{
    int(LExpr::Num(*n))
}

/// `NULL`.
pub fn null_pointer() -> Taken
    ensures { result ≡ record { value = l.Null; ty = Some ty.AnyPtr } }
{
    Taken {
        value: LExpr::Null,
        ty: Some(Ty::AnyPtr),
    }
}

/// A null pointer of a type that cannot be told.
pub fn untold() -> Taken
    ensures { result ≡ record { value = l.Null; ty = None } }
{
    Taken {
        value: LExpr::Null,
        ty: None,
    }
}

/// `-1`.
pub fn end_of_file(at: &Spot) -> Result<Taken, AllocError>
    ensures { IfOk result (λ t. t ≡ record {
      value = lifting.literal true (pos 1);
      ty = Some
          ty.Int;
    }) }
{
    Ok(int(literal(at.setting.alloc, true, 1)?))
}

/// A name's value.
pub fn name_value(at: &Spot, name: &Name) -> Result<Taken, AllocError>
    ensures { IfOk result (λ t. let what = spec.meaning (around at.now).scope name.now in t ≡
        record {
          value = lifting.named at.now.setting.now.file.now what;
          ty = types.name_type (around at.now).scope what;
        }) }
{
    let what = at.meaning(name);
    let value = named(at.setting.alloc, at.setting.file.program(), what)?;
    let ty = name_type(at.setting.file.program(), at.locals.slots.as_slice(), what)?;
    Ok(Taken { value, ty })
}

/// An array's element.
pub fn element(at: &Spot, name: &Name, index: Taken) -> Result<Taken, AllocError>
    ensures value { IfOk result (λ t. t.value ≡ l.Elem (lifting.array_number (spec.meaning
        (around at.now).scope name.now)) index.value) }
    ensures ty { IfOk result (λ t. t.ty ≡ types.element_type
        at.now.setting.now.file.now (spec.meaning (around at.now).scope name.now)) }
{
    let what = at.meaning(name);
    let value = elem(at.setting.alloc, array_number(what), index.into_value())?;
    let ty = element_type(at.setting.file.program(), what)?;
    Ok(Taken { value, ty })
}

/// An operator before a value.
pub fn unary(at: &Spot, op: UnOp, operand: Taken) -> Result<Taken, AllocError>
    ensures { IfOk result (λ t. t ≡ record { value = l.Un op operand.value; ty = Some ty.Int }) }
{
    let value = un(at.setting.alloc, op, operand.into_value())?;
    Ok(int(value))
}

/// The same value at another type.
pub fn cast(operand: Taken, to: &Ty) -> Result<Taken, AllocError>
    ensures { IfOk result (λ t. t ≡ record { value = operand.value; ty = Some to.now }) }
{
    let ty = to.clone()?;
    Ok(Taken {
        value: operand.into_value(),
        ty: Some(ty),
    })
}

/// An operator's value, from those of its sides.
pub fn joined(
    at: &Spot,
    op: BinOp,
    left: &Expr,
    a: Taken,
    right: &Expr,
    b: Taken,
) -> Result<Taken, AllocError>
    ensures { IfOk result (λ t. t ≡ record {
      value = l.Bin op
          (lifting.in_place (lifting.is_equality op && lifting.is_pointer_type b.ty)
          (types.is_zero (around at.now).scope left.now.kind) a.value)
          (lifting.in_place (lifting.is_equality op && lifting.is_pointer_type a.ty)
          (types.is_zero (around at.now).scope right.now.kind) b.value);
      ty = Some ty.Int;
    }) }
{
    let (x, x_ty) = a.into_parts();
    let (y, y_ty) = b.into_parts();
    let x = at.beside(op, left, &y_ty, x);
    let y = at.beside(op, right, &x_ty, y);
    let value = bin(at.setting.alloc, op, x, y)?;
    Ok(int(value))
}

/// Adds an argument.
pub fn add_value(values: &mut Vec<LExpr>, value: LExpr) -> Result<(), AllocError>
    ensures { OnOk result (values.new.items ≡ values.old.items ++ value ∷ []) }
{
    values.push(value)?;
    Ok(())
}
