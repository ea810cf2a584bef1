//! Trees of sources and mappings as text: each node before its parts, with its offset behind `@`.

use crate::causes::word;
use c_tree::{Expr, ExprKind, Name, Stmt, StmtKind, Ty};
use std::alloc::{AllocError, Global};

/// A node of a tree.
#[derive(Clone, Copy)]
pub enum Node<'a> {
    Expr(&'a Expr),
    Stmt(&'a Stmt),
}

/// As many nodes as a tree of a row has at most.
const MOST_NODES: u32 = 1000;

/// A type as a source writes it, with a blank behind `int` and the like.
pub fn put_type(text: &mut String, ty: &Ty) -> Result<(), AllocError> {
    match ty {
        Ty::Int => text.push_str("int "),
        Ty::Thread => text.push_str("pthread_t "),
        Ty::Void => text.push_str("void "),
        Ty::AnyPtr => text.push_str("void *"),
        Ty::Ptr(name) => put_named(text, "struct ", name, " *"),
    }
}

fn put_named(text: &mut String, front: &str, name: &Name, behind: &str) -> Result<(), AllocError> {
    let name = word(name);
    write!(text, "{front}{name}{behind}")
}

fn put_numbered(text: &mut String, name: &Name, n: usize) -> Result<(), AllocError> {
    let name = word(name);
    write!(text, "{name}.{n}")
}

pub(crate) fn put_bytes(text: &mut String, bytes: &[u8]) -> Result<(), AllocError> {
    text.push_str(std::str::from_utf8(bytes).unwrap_or("?"))
}

fn put_cast(text: &mut String, ty: &Ty) -> Result<(), AllocError> {
    text.push_str("cast ")?;
    put_type(text, ty)
}

fn put_start(text: &mut String, at: u32, name: &Name) -> Result<(), AllocError> {
    let name = word(name);
    write!(text, "create {name}@{at} ")
}

fn put_expr(text: &mut String, kind: &ExprKind) -> Result<(), AllocError> {
    match kind {
        ExprKind::Num(n) => write!(text, "{n}"),
        ExprKind::Null => text.push_str("NULL"),
        ExprKind::Eof => text.push_str("EOF"),
        ExprKind::Getchar => text.push_str("getchar"),
        ExprKind::Slot(name, n) => put_numbered(text, name, *n as usize),
        ExprKind::Name(name) => text.push_str(word(name)),
        ExprKind::Index(name, _) => put_named(text, "", name, "[]"),
        ExprKind::Field(_, name) => put_named(text, "->", name, ""),
        ExprKind::Un(op, _) => put_bytes(text, op.text()),
        ExprKind::Bin(op, _, _) => put_bytes(text, op.text()),
        ExprKind::Cast(ty, _) => put_cast(text, ty),
        ExprKind::Call(name, args) => put_numbered(text, name, args.len()),
        ExprKind::Malloc(name) => put_named(text, "malloc ", &name.it, ""),
        ExprKind::Create(_, start, _) => put_start(text, start.at, &start.it),
        ExprKind::Join(_) => text.push_str("join"),
        ExprKind::Lock(name) => put_named(text, "lock ", &name.it, ""),
        ExprKind::Unlock(name) => put_named(text, "unlock ", &name.it, ""),
    }
}

fn put_declared(
    text: &mut String,
    ty: &Ty,
    name: &Name,
    has_value: bool,
) -> Result<(), AllocError> {
    put_type(text, ty)?;
    put_named(text, "", name, if has_value { "=" } else { "" })
}

fn put_for(
    text: &mut String,
    inits: usize,
    has_test: bool,
    has_step: bool,
) -> Result<(), AllocError> {
    let test = if has_test { " test" } else { "" };
    let step = if has_step { " step" } else { "" };
    write!(text, "for {inits}{test}{step}")
}

fn put_print(text: &mut String, printed: &Name, args: usize) -> Result<(), AllocError> {
    let printed = word(printed);
    write!(text, "print \"{printed}\" {args}")
}

fn put_stmt(text: &mut String, kind: &StmtKind) -> Result<(), AllocError> {
    match kind {
        StmtKind::Empty => text.push_str(";"),
        StmtKind::Block(items) => write!(text, "block {}", items.len()),
        StmtKind::Declare(ty, name, value) => put_declared(text, ty, name, value.is_some()),
        StmtKind::If(_, _, None) => text.push_str("if"),
        StmtKind::If(_, _, Some(_)) => text.push_str("if else"),
        StmtKind::While(_, _) => text.push_str("while"),
        StmtKind::For(inits, test, step, _) => {
            put_for(text, inits.len(), test.is_some(), step.is_some())
        }
        StmtKind::Break => text.push_str("break"),
        StmtKind::Continue => text.push_str("continue"),
        StmtKind::Return(None) => text.push_str("return"),
        StmtKind::Return(Some(_)) => text.push_str("return value"),
        StmtKind::Assign(_, None, _) => text.push_str("="),
        StmtKind::Assign(_, Some(op), _) => put_changed(text, op.text()),
        StmtKind::Run(_) => text.push_str("run"),
        StmtKind::Free(_) => text.push_str("free"),
        StmtKind::Print(printed, args) => put_print(text, printed, args.len()),
    }
}

fn put_changed(text: &mut String, op: &[u8]) -> Result<(), AllocError> {
    put_bytes(text, op)?;
    text.push_str("=")
}

/// Takes up a part of a node; the last that is taken up is told first.
fn take<'a>(work: &mut Vec<Node<'a>>, node: Node<'a>) -> Result<(), AllocError> {
    work.push(node)?;
    Ok(())
}

fn take_exprs<'a>(work: &mut Vec<Node<'a>>, exprs: &'a [Expr]) -> Result<(), AllocError> {
    for expr in exprs.iter().rev() {
        work.push(Node::Expr(expr))?;
    }
    Ok(())
}

fn take_stmts<'a>(work: &mut Vec<Node<'a>>, stmts: &'a [Stmt]) -> Result<(), AllocError> {
    for stmt in stmts.iter().rev() {
        work.push(Node::Stmt(stmt))?;
    }
    Ok(())
}

fn take_two<'a>(
    work: &mut Vec<Node<'a>>,
    first: Node<'a>,
    second: Node<'a>,
) -> Result<(), AllocError> {
    work.push(second)?;
    work.push(first)?;
    Ok(())
}

fn take_of_expr<'a>(work: &mut Vec<Node<'a>>, kind: &'a ExprKind) -> Result<(), AllocError> {
    match kind {
        ExprKind::Index(_, part) => take(work, Node::Expr(part.get())),
        ExprKind::Field(part, _) => take(work, Node::Expr(part.get())),
        ExprKind::Un(_, part) => take(work, Node::Expr(part.get())),
        ExprKind::Cast(_, part) => take(work, Node::Expr(part.get())),
        ExprKind::Join(part) => take(work, Node::Expr(part.get())),
        ExprKind::Bin(_, left, right) => {
            take_two(work, Node::Expr(left.get()), Node::Expr(right.get()))
        }
        ExprKind::Create(to, _, value) => {
            take_two(work, Node::Expr(to.get()), Node::Expr(value.get()))
        }
        ExprKind::Call(_, args) => take_exprs(work, args.as_slice()),
        _ => Ok(()),
    }
}

fn take_value<'a>(work: &mut Vec<Node<'a>>, value: &'a Option<Expr>) -> Result<(), AllocError> {
    match value {
        Some(value) => take(work, Node::Expr(value)),
        None => Ok(()),
    }
}

fn take_choice<'a>(work: &mut Vec<Node<'a>>, kind: &'a StmtKind) -> Result<(), AllocError> {
    match kind {
        StmtKind::If(test, yes, Some(no)) => {
            work.push(Node::Stmt(no.get()))?;
            take_two(work, Node::Expr(test), Node::Stmt(yes.get()))
        }
        StmtKind::If(test, yes, None) => take_two(work, Node::Expr(test), Node::Stmt(yes.get())),
        _ => Ok(()),
    }
}

fn take_loop<'a>(work: &mut Vec<Node<'a>>, kind: &'a StmtKind) -> Result<(), AllocError> {
    match kind {
        StmtKind::For(inits, test, step, body) => {
            work.push(Node::Stmt(body.get()))?;
            if let Some(step) = step {
                work.push(Node::Stmt(step.get()))?;
            }
            take_value(work, test)?;
            take_stmts(work, inits.as_slice())
        }
        _ => Ok(()),
    }
}

fn take_of_stmt<'a>(work: &mut Vec<Node<'a>>, kind: &'a StmtKind) -> Result<(), AllocError> {
    match kind {
        StmtKind::Block(items) => take_stmts(work, items.as_slice()),
        StmtKind::Declare(_, _, value) => take_value(work, value),
        StmtKind::If(_, _, _) => take_choice(work, kind),
        StmtKind::While(test, body) => take_two(work, Node::Expr(test), Node::Stmt(body.get())),
        StmtKind::For(_, _, _, _) => take_loop(work, kind),
        StmtKind::Return(value) => take_value(work, value),
        StmtKind::Assign(to, _, value) => take_two(work, Node::Expr(to), Node::Expr(value)),
        StmtKind::Run(expr) => take(work, Node::Expr(expr)),
        StmtKind::Free(expr) => take(work, Node::Expr(expr)),
        StmtKind::Print(_, args) => take_exprs(work, args.as_slice()),
        _ => Ok(()),
    }
}

fn put_node<'a>(
    text: &mut String,
    work: &mut Vec<Node<'a>>,
    node: Node<'a>,
) -> Result<(), AllocError> {
    match node {
        Node::Expr(expr) => {
            put_expr(text, &expr.kind)?;
            write!(text, "@{} ", expr.at)?;
            take_of_expr(work, &expr.kind)
        }
        Node::Stmt(stmt) => {
            put_stmt(text, &stmt.kind)?;
            write!(text, "@{} ", stmt.at)?;
            take_of_stmt(work, &stmt.kind)
        }
    }
}

/// A node and all below it.
///
/// # Errors
/// Memory for the text.
pub fn put_tree(text: &mut String, alloc: Global, root: Node<'_>) -> Result<(), AllocError> {
    let mut work = Vec::new(alloc);
    work.push(root)?;
    for _ in 0..MOST_NODES {
        match work.pop() {
            Some(node) => put_node(text, &mut work, node)?,
            None => return Ok(()),
        }
    }
    text.push_str("and more")
}

/// The statements of a body.
///
/// # Errors
/// Memory for the text.
pub fn put_body(text: &mut String, alloc: Global, body: &[Stmt]) -> Result<(), AllocError> {
    for stmt in body {
        put_tree(text, alloc, Node::Stmt(stmt))?;
    }
    Ok(())
}
