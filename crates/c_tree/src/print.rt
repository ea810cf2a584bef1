//! The text of an expression, with the fewest parentheses.

ghost use Rattle.std.specs.Prelude.{◌≡◌, ◌++◌, ℕ, IfOk, OnOk, slice_get, codes};
ghost use Rattle.std.specs.Fmt.{signed_decimal};
ghost use Rattle.c_tree.specs.Names as names;
ghost use Rattle.c_tree.specs.Operators as operators;
ghost use Rattle.c_tree.specs.MapExpr.{Reads, reads_of, slots_of, fields_of};
ghost use Rattle.c_tree.specs.Shown as spec;
ghost use Rattle.c_tree.specs.Printing.{reads};

use crate::lifted::{LExpr, Lifted, Slot};
use crate::names::slot_name;
use crate::op::{BinOp, UnOp};
use crate::text::Text;
use itoa::Buffer;
use std::alloc::{AllocError, Global};

/// The strength of a prefix operator, which is above that of each binary one.
const PREFIX: u32 = 10;

/// The strength of what never needs parentheses.
const WHOLE: u32 = 11;

/// The text of an expression, with the fewest parentheses: its slots are those of the function, and
/// its fields of the old object those of the struct.
pub fn print_expr(
    alloc: Global,
    program: &Lifted,
    function: Option<u32>,
    owner: Option<u32>,
    expr: &LExpr,
) -> Result<Text, AllocError>
    ensures { IfOk result (λ text.
        text ≡ spec.shown (reads_of program.now function owner) expr.now) }
{
    let names = Names {
        program,
        slots: slots(program, function),
        own: fields(program, owner),
    };
    let mut out = Vec::new(alloc);
    append_expr(&names, expr, &mut out)?;
    Ok(Text::from_vec(out))
}

/// What the names of an expression are looked up in.
#[derive(Drop)]
struct Names<'a> {
    program: &'a Lifted,
    slots: &'a [Slot],
    own: &'a [Slot],
}

fn slots(program: &Lifted, function: Option<u32>) -> &[Slot]
    ensures { result.now ≡ slots_of program.now function }
{
    let Some(function) = function else {
        return &[];
    };
    match program.functions.as_slice().get(function as usize) {
        Some(function) => function.slots.as_slice(),
        None => &[],
    }
}

fn fields(program: &Lifted, owner: Option<u32>) -> &[Slot]
    ensures { result.now ≡ fields_of program.now owner }
{
    let Some(owner) = owner else {
        return &[];
    };
    match program.structs.as_slice().get(owner as usize) {
        Some(owner) => owner.fields.as_slice(),
        None => &[],
    }
}

#[tactic(auto, using(crate::proofs::PrintLemmas::global_name))]
fn global_name(program: &Lifted, global: u32) -> &[u8]
    ensures { result.now ≡ names.name_at program.now 2 global }
{
    match program.globals.as_slice().get(global as usize) {
        Some(global) => global.name.as_bytes(),
        None => &[],
    }
}

fn field_name(program: &Lifted, owner: u32, field: u32) -> &[u8]
    ensures { result.now ≡ names.field_name program.now owner field }
{
    match program.structs.as_slice().get(owner as usize) {
        Some(owner) => slot_name(owner.fields.as_slice(), field),
        None => &[],
    }
}

/// The strength of a binary operator, from 0 for the one that binds least.
fn binding(op: BinOp) -> u32
    ensures { result ≡ operators.binding op }
{
    match op {
        BinOp::Or => 0,
        BinOp::And => 1,
        BinOp::BitOr => 2,
        BinOp::BitXor => 3,
        BinOp::BitAnd => 4,
        BinOp::Eq | BinOp::Ne => 5,
        BinOp::Lt | BinOp::Le | BinOp::Gt | BinOp::Ge => 6,
        BinOp::Shl | BinOp::Shr => 7,
        BinOp::Add | BinOp::Sub => 8,
        BinOp::Mul | BinOp::Div | BinOp::Rem => 9,
    }
}

fn strength(expr: &LExpr) -> u32
    ensures { result ≡ spec.strength expr.now }
{
    match expr {
        LExpr::Bin(op, _, _) => binding(*op),
        LExpr::Un(_, _) => PREFIX,
        LExpr::Num(_)
        | LExpr::Null
        | LExpr::Slot(_)
        | LExpr::Global(_)
        | LExpr::Elem(_, _)
        | LExpr::Field(_, _, _)
        | LExpr::Own(_) => WHOLE,
    }
}

fn append_number(n: i32, out: &mut Vec<u8>) -> Result<(), AllocError>
    ensures { OnOk result (out.new.items ≡ out.old.items ++ signed_decimal n) }
{
    let mut buffer = Buffer::new();
    out.extend_from_slice(buffer.format(n).as_bytes())?;
    Ok(())
}

/// The first byte of an expression's text. It tells where a minus would touch another one.
#[cycle(first)]
#[tactic(auto, using(crate::proofs::PrintLemmas::print_rules))]
fn first_byte(names: &Names<'_>, expr: &LExpr) -> Option<u8>
    ensures { result ≡ slice_get (spec.shown (reads names.now) expr.now) 0 }
{
    match expr {
        LExpr::Num(n) => first_of_number(*n),
        LExpr::Null => Some(b'N'),
        LExpr::Slot(slot) => slot_name(names.slots, *slot).first().copied(),
        LExpr::Global(global) => global_name(names.program, *global).first().copied(),
        LExpr::Elem(global, _) => {
            global_name(names.program, *global)
                .first()
                .copied()
                .or(Some(b'['))
        }
        LExpr::Field(pointer, _, _) => {
            first_of_operand(names, WHOLE, pointer.get()).or(Some(b'-'))
        }
        LExpr::Own(field) => slot_name(names.own, *field).first().copied(),
        LExpr::Un(op, _) => op.text().first().copied(),
        LExpr::Bin(op, left, _) => {
            first_of_operand(names, binding(*op), left.get()).or(Some(b' '))
        }
    }
}

#[cycle(first)]
fn first_of_operand(names: &Names<'_>, asked: u32, expr: &LExpr) -> Option<u8>
    ensures { result ≡ slice_get (spec.within asked (spec.strength expr.now)
        (spec.shown (reads names.now) expr.now)) 0 }
{
    if strength(expr) < asked {
        Some(b'(')
    } else {
        first_byte(names, expr)
    }
}

fn first_of_number(n: i32) -> Option<u8>
    ensures { result ≡ slice_get (signed_decimal n) 0 }
{
    let mut buffer = Buffer::new();
    buffer.format(n).as_bytes().first().copied()
}

/// Appends an expression.
#[cycle(append)]
#[tactic(auto, using(crate::proofs::PrintLemmas::append_rules))]
fn append_expr(names: &Names<'_>, expr: &LExpr, out: &mut Vec<u8>) -> Result<(), AllocError>
    ensures { OnOk result (out.new.items
        ≡ out.old.items ++ spec.shown (reads names.now) expr.now) }
{
    match expr {
        LExpr::Num(n) => append_number(*n, out),
        LExpr::Null => out.extend_from_slice(b"NULL"),
        LExpr::Slot(slot) => out.extend_from_slice(slot_name(names.slots, *slot)),
        LExpr::Global(global) => out.extend_from_slice(global_name(names.program, *global)),
        LExpr::Elem(global, index) => {
            append_array(names.program, *global, out)?;
            append_expr(names, index.get(), out)?;
            out.extend_from_slice(b"]")
        }
        LExpr::Field(pointer, owner, field) => {
            append_operand(names, WHOLE, pointer.get(), out)?;
            out.extend_from_slice(b"->")?;
            out.extend_from_slice(field_name(names.program, *owner, *field))
        }
        LExpr::Own(field) => out.extend_from_slice(slot_name(names.own, *field)),
        LExpr::Un(op, operand) => {
            let touches = touches(names, *op, operand.get());
            append_sign(*op, touches, out)?;
            append_operand(names, PREFIX, operand.get(), out)
        }
        LExpr::Bin(op, left, right) => {
            append_operand(names, binding(*op), left.get(), out)?;
            append_operator(*op, out)?;
            append_operand(names, binding(*op) + 1, right.get(), out)
        }
    }
}

/// Appends an operand, in parentheses where it binds less tightly than is asked.
#[cycle(append)]
fn append_operand(
    names: &Names<'_>,
    asked: u32,
    expr: &LExpr,
    out: &mut Vec<u8>,
) -> Result<(), AllocError>
    ensures { OnOk result (out.new.items ≡ out.old.items
        ++ spec.within asked (spec.strength expr.now) (spec.shown (reads names.now) expr.now)) }
{
    let is_loose = strength(expr) < asked;
    if is_loose {
        out.extend_from_slice(b"(")?;
        append_expr(names, expr, out)?;
        out.extend_from_slice(b")")
    } else {
        append_expr(names, expr, out)
    }
}

/// Appends the name of an array, and the bracket of its index.
fn append_array(program: &Lifted, global: u32, out: &mut Vec<u8>) -> Result<(), AllocError>
    ensures { OnOk result (out.new.items
        ≡ out.old.items ++ (names.name_at program.now 2 global ++ codes "[")) }
{
    out.extend_from_slice(global_name(program, global))?;
    out.extend_from_slice(b"[")
}

/// Whether a prefix operator is a minus that would touch the minus of its operand.
fn touches(names: &Names<'_>, op: UnOp, operand: &LExpr) -> bool
    ensures { result ≡ spec.touches (operators.un_text op)
        (spec.within PREFIX (spec.strength operand.now)
        (spec.shown (reads names.now) operand.now)) }
{
    op == UnOp::Neg && first_of_operand(names, PREFIX, operand) == Some(b'-')
}

/// Appends a prefix operator, and a space where its operand would touch it.
fn append_sign(op: UnOp, touches: bool, out: &mut Vec<u8>) -> Result<(), AllocError>
    ensures { OnOk result (out.new.items
        ≡ out.old.items ++ spec.sign (operators.un_text op) touches) }
{
    out.extend_from_slice(op.text())?;
    if touches {
        out.extend_from_slice(b" ")?;
    }
    Ok(())
}

/// Appends a binary operator with a space on each side.
fn append_operator(op: BinOp, out: &mut Vec<u8>) -> Result<(), AllocError>
    ensures { OnOk result (out.new.items
        ≡ out.old.items ++ spec.spaced (operators.bin_text op)) }
{
    out.extend_from_slice(b" ")?;
    out.extend_from_slice(op.text())?;
    out.extend_from_slice(b" ")
}
