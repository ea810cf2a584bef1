//! The stack of values: the newest is last. A value of another sort than the wanted one never
//! comes, as the rules' sorts show; a fixed value then stands for it.

ghost use Rattle.std.specs.Prelude.{◌≡◌, [], ◌∷◌, reverse, OnOk, IfOk};
ghost use Rattle.c_grammar.specs.Effects.{named};
ghost use Rattle.c_grammar.specs.Tokens.{text_of};
ghost use Rattle.c_grammar.specs.Values as spec;

use crate::token::text_of;
use crate::value::{Operand, Value};
use c_tree::{
    At, Boxed, Const, Count, Define, Expr, ExprKind, Field, Fill, Mapping, Name, Part, PlaceKind,
    Program, Pt, Row, Stmt, StmtKind, Text, Token, TokenKind, Ty,
};
use std::alloc::{AllocError, Global};

/// Puts a value on the stack.
pub fn push_value(values: &mut Vec<Value>, value: Value) -> Result<(), AllocError>
    ensures { OnOk result (reverse values.new.items ≡ value ∷ reverse values.old.items) }
{
    values.push(value)?;
    Ok(())
}

/// Lets a value go that was not wanted.
/// It is generic so that it calls the drop of the value's type, which is then proved once.
fn discard<T: Drop>(_value: T) {}

/// Drops the newest value.
pub fn drop_value(values: &mut Vec<Value>)
    ensures { reverse values.new.items ≡ spec.older (reverse values.old.items) }
{
    discard(values.pop());
}

/// Takes a token.
pub fn pop_word(values: &mut Vec<Value>) -> Token
    ensures value { result ≡ spec.word_in (reverse values.old.items) }
    ensures rest { reverse values.new.items ≡ spec.older (reverse values.old.items) }
{
    match values.pop() {
        Some(Value::Word(token)) => token,
        other => {
            discard(other);
            Token {
                kind: TokenKind::Punct(0),
                at: 0,
                len: 0,
            }
        }
    }
}

/// Takes a name, at its offset.
pub fn pop_name(alloc: Global, values: &mut Vec<Value>) -> At<Name>
    ensures value { result ≡ named (reverse values.old.items) }
    ensures rest { reverse values.new.items ≡ spec.older (reverse values.old.items) }
{
    let token = pop_word(values);
    At {
        at: token.at,
        it: text_of(alloc, token.kind),
    }
}

/// Takes a type.
pub fn pop_ty(values: &mut Vec<Value>) -> Ty
    ensures value { result ≡ spec.ty_in (reverse values.old.items) }
    ensures rest { reverse values.new.items ≡ spec.older (reverse values.old.items) }
{
    match values.pop() {
        Some(Value::Ty(ty)) => ty,
        other => {
            discard(other);
            Ty::Int
        }
    }
}

/// Takes an expression as an operand.
pub fn pop_operand(values: &mut Vec<Value>) -> Operand
    ensures value { result ≡ spec.operand_in (reverse values.old.items) }
    ensures rest { reverse values.new.items ≡ spec.older (reverse values.old.items) }
{
    match values.pop() {
        Some(Value::Operand(operand)) => operand,
        other => {
            discard(other);
            Operand {
                expr: Expr {
                    at: 0,
                    kind: ExprKind::Null,
                },
                first: 0,
            }
        }
    }
}

/// Takes a list of expressions.
pub fn pop_exprs(alloc: Global, values: &mut Vec<Value>) -> Row<Expr>
    ensures value { result ≡ spec.exprs_in (reverse values.old.items) }
    ensures rest { reverse values.new.items ≡ spec.older (reverse values.old.items) }
{
    match values.pop() {
        Some(Value::Exprs(exprs)) => exprs,
        other => {
            discard(other);
            Row::from_vec(Vec::new(alloc))
        }
    }
}

/// Takes an expression that may be left out.
pub fn pop_maybe_expr(values: &mut Vec<Value>) -> Option<Expr>
    ensures value { result ≡ spec.maybe_expr_in (reverse values.old.items) }
    ensures rest { reverse values.new.items ≡ spec.older (reverse values.old.items) }
{
    match values.pop() {
        Some(Value::MaybeExpr(expr)) => expr,
        other => {
            discard(other);
            None
        }
    }
}

/// Takes a statement.
pub fn pop_stmt(alloc: Global, values: &mut Vec<Value>) -> Result<Boxed<Stmt>, AllocError>
    ensures value { IfOk result (λ stmt. stmt ≡ spec.stmt_in (reverse values.old.items)) }
    ensures rest { OnOk result
        (reverse values.new.items ≡ spec.older (reverse values.old.items)) }
{
    match values.pop() {
        Some(Value::Stmt(stmt)) => Ok(stmt),
        other => {
            discard(other);
            Boxed::new(
                alloc,
                Stmt {
                    at: 0,
                    kind: StmtKind::Empty,
                },
            )
        }
    }
}

/// Takes a list of statements.
pub fn pop_stmts(alloc: Global, values: &mut Vec<Value>) -> Row<Stmt>
    ensures value { result ≡ spec.stmts_in (reverse values.old.items) }
    ensures rest { reverse values.new.items ≡ spec.older (reverse values.old.items) }
{
    match values.pop() {
        Some(Value::Stmts(stmts)) => stmts,
        other => {
            discard(other);
            Row::from_vec(Vec::new(alloc))
        }
    }
}

/// Takes the fields of a struct, or the parameters of a function.
pub fn pop_fields(alloc: Global, values: &mut Vec<Value>) -> Row<Field>
    ensures value { result ≡ spec.fields_in (reverse values.old.items) }
    ensures rest { reverse values.new.items ≡ spec.older (reverse values.old.items) }
{
    match values.pop() {
        Some(Value::Fields(fields)) => fields,
        other => {
            discard(other);
            Row::from_vec(Vec::new(alloc))
        }
    }
}

/// Takes a statement that may be left out.
pub fn pop_maybe_stmt(values: &mut Vec<Value>) -> Option<Boxed<Stmt>>
    ensures value { result ≡ spec.maybe_stmt_in (reverse values.old.items) }
    ensures rest { reverse values.new.items ≡ spec.older (reverse values.old.items) }
{
    match values.pop() {
        Some(Value::MaybeStmt(stmt)) => stmt,
        other => {
            discard(other);
            None
        }
    }
}

/// Takes the length of an array.
pub fn pop_count(values: &mut Vec<Value>) -> At<Count>
    ensures value { result ≡ spec.count_in (reverse values.old.items) }
    ensures rest { reverse values.new.items ≡ spec.older (reverse values.old.items) }
{
    match values.pop() {
        Some(Value::Count(count)) => count,
        other => {
            discard(other);
            At {
                at: 0,
                it: Count::Number(0),
            }
        }
    }
}

/// Takes the initialiser of a global.
pub fn pop_const(values: &mut Vec<Value>) -> At<Const>
    ensures value { result ≡ spec.const_in (reverse values.old.items) }
    ensures rest { reverse values.new.items ≡ spec.older (reverse values.old.items) }
{
    match values.pop() {
        Some(Value::Const(value)) => value,
        other => {
            discard(other);
            At {
                at: 0,
                it: Const::Null,
            }
        }
    }
}

/// Takes a define.
pub fn pop_define(alloc: Global, values: &mut Vec<Value>) -> Define
    ensures value { result ≡ spec.define_in (reverse values.old.items) }
    ensures rest { reverse values.new.items ≡ spec.older (reverse values.old.items) }
{
    match values.pop() {
        Some(Value::Define(define)) => define,
        other => {
            discard(other);
            Define {
                name: At {
                    at: 0,
                    it: Text::from_vec(Vec::new(alloc)),
                },
                minus: false,
                value: 0,
            }
        }
    }
}

/// A program without anything, of a file of no bytes.
pub fn no_program(alloc: Global) -> Program
    ensures { result ≡ spec.no_program }
{
    Program {
        structs: Row::from_vec(Vec::new(alloc)),
        globals: Row::from_vec(Vec::new(alloc)),
        mutexes: Row::from_vec(Vec::new(alloc)),
        defines: Row::from_vec(Vec::new(alloc)),
        functions: Row::from_vec(Vec::new(alloc)),
        len: 0,
    }
}

/// Takes the program.
pub fn pop_program(alloc: Global, values: &mut Vec<Value>) -> Program
    ensures value { result ≡ spec.program_in (reverse values.old.items) }
    ensures rest { reverse values.new.items ≡ spec.older (reverse values.old.items) }
{
    match values.pop() {
        Some(Value::Program(program)) => program,
        other => {
            discard(other);
            no_program(alloc)
        }
    }
}

/// Takes a point of a mapping.
pub fn pop_pt(values: &mut Vec<Value>) -> Pt
    ensures value { result ≡ spec.pt_in (reverse values.old.items) }
    ensures rest { reverse values.new.items ≡ spec.older (reverse values.old.items) }
{
    let value = values.pop();
    let pt = match &value {
        Some(Value::Pt(pt)) => *pt,
        _ => Pt {
            kind: PlaceKind::Entry,
            number: 1,
        },
    };
    discard(value);
    pt
}

/// Takes what slots are filled with.
pub fn pop_fills(alloc: Global, values: &mut Vec<Value>) -> Row<Fill>
    ensures value { result ≡ spec.fills_in (reverse values.old.items) }
    ensures rest { reverse values.new.items ≡ spec.older (reverse values.old.items) }
{
    match values.pop() {
        Some(Value::Fills(fills)) => fills,
        other => {
            discard(other);
            Row::from_vec(Vec::new(alloc))
        }
    }
}

/// Takes an added part of a point.
pub fn pop_part(alloc: Global, values: &mut Vec<Value>) -> Part
    ensures value { result ≡ spec.part_in (reverse values.old.items) }
    ensures rest { reverse values.new.items ≡ spec.older (reverse values.old.items) }
{
    match values.pop() {
        Some(Value::Part(part)) => part,
        other => {
            discard(other);
            Part {
                function: Some(Name::from_vec(Vec::new(alloc))),
                point: Pt {
                    kind: PlaceKind::Entry,
                    number: 1,
                },
                fills: Row::from_vec(Vec::new(alloc)),
            }
        }
    }
}

/// Takes the parts of a point.
pub fn pop_parts(alloc: Global, values: &mut Vec<Value>) -> Row<Part>
    ensures value { result ≡ spec.parts_in (reverse values.old.items) }
    ensures rest { reverse values.new.items ≡ spec.older (reverse values.old.items) }
{
    match values.pop() {
        Some(Value::Parts(parts)) => parts,
        other => {
            discard(other);
            Row::from_vec(Vec::new(alloc))
        }
    }
}

/// A mapping without entries.
pub fn no_mapping(alloc: Global) -> Mapping
    ensures { result ≡ spec.no_mapping }
{
    Mapping {
        entries: Row::from_vec(Vec::new(alloc)),
    }
}

/// Takes the mapping.
pub fn pop_mapping(alloc: Global, values: &mut Vec<Value>) -> Mapping
    ensures value { result ≡ spec.mapping_in (reverse values.old.items) }
    ensures rest { reverse values.new.items ≡ spec.older (reverse values.old.items) }
{
    match values.pop() {
        Some(Value::Mapping(mapping)) => mapping,
        other => {
            discard(other);
            no_mapping(alloc)
        }
    }
}

/// The word of a token that was read.
pub fn word_of(alloc: Global, value: Value) -> Text
    ensures { result ≡ text_of (spec.word_in (value ∷ [])).kind }
{
    match value {
        Value::Word(token) => text_of(alloc, token.kind),
        other => {
            discard(other);
            Text::from_vec(Vec::new(alloc))
        }
    }
}
