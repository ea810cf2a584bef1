//! Expressions of mappings over a small program, with the numbers and the types that were found by
//! hand.

use crate::programs::program_of;
use c_reader::{expr_at, tokens};
use c_tree::{ExprKind, Lifted, Ty};
use map_entries::{Reads, Typed, numbered};
use patch_match::Tables;
use row_calls::{RowsDiffer, compare, judged};
use std::alloc::{AllocError, Global};
use tree_texts::put_shape;

const SOURCE: &str = r"
struct node { int value; struct node *next; };
struct pair { int value; int total; };
int total;
struct node *head;
int row[3];
int i;
int main(void) { int i; int a; { struct node *a; } int row; return 0; }
";

/// What an expression reads beside the globals, its text, and its numbers with its type.
#[rattlefmt::skip]
const ROWS: &[(&str, &str, &str)] = &[
    ("nothing", "i", "Global 3: int"),
    ("slots 0", "i", "Slot 0: int"),
    ("slots 1", "i", "Global 3: int"),
    ("slots 0", "head", "Global 1: struct *"),
    ("nothing", "total", "Global 0: int"),
    ("fields 0", "total", "Global 0: int"),
    ("fields 1", "total", "Own 1: int"),
    ("fields 0", "next", "Own 1: struct *"),
    ("nothing", "row", "Global 2: no type"),
    ("slots 0", "row", "Slot 3: int"),
    ("nothing", "next", "none"),
    ("slots 0", "node", "none"),
    ("slots 0", "a.2", "Slot 2: struct *"),
    ("slots 0", "a.10", "none"),
    ("nothing", "a.2", "none"),
    ("nothing", "row[i]", "Elem 2 Global 3: int"),
    ("slots 0", "row[i]", "none"),
    ("nothing", "row[NULL]", "Elem 2 NULL: no type"),
    ("nothing", "head->next->value", "Field 0 0 Field 0 1 Global 1: int"),
    ("nothing", "head->total", "none"),
    ("nothing", "total->value", "none"),
    ("nothing", "!head", "! Global 1: int"),
    ("nothing", "-head", "- Global 1: no type"),
    ("nothing", "head == 0", "== Global 1 NULL: int"),
    ("nothing", "head != 0", "!= Global 1 NULL: int"),
    ("nothing", "head < 0", "< Global 1 0: no type"),
    ("nothing", "head && 0", "&& Global 1 0: int"),
    ("nothing", "0 == i", "== 0 Global 3: int"),
    ("nothing", "EOF + NULL", "+ - 1 NULL: no type"),
    ("nothing", "getchar", "none"),
];

fn reads_of(text: &str) -> Reads {
    match text {
        "slots 0" => Reads::Slots(0),
        "slots 1" => Reads::Slots(1),
        "fields 0" => Reads::Fields(0),
        "fields 1" => Reads::Fields(1),
        _ => Reads::Nothing,
    }
}

fn type_word(ty: &Option<Ty>) -> &'static str {
    match ty {
        None => "no type",
        Some(Ty::Int) => "int",
        Some(Ty::Thread) => "pthread_t",
        Some(Ty::Void) => "void",
        Some(Ty::AnyPtr) => "void *",
        Some(Ty::Ptr(_)) => "struct *",
    }
}

fn shown(alloc: Global, typed: &Option<Typed>) -> Result<String, AllocError> {
    let mut text = String::new(alloc);
    match typed {
        None => text.push_str("none")?,
        Some(typed) => {
            put_shape(&mut text, alloc, &typed.expr)?;
            write!(text, ": {}", type_word(&typed.ty))?;
        }
    }
    Ok(text)
}

/// The expression of a text; `getchar` is one that no mapping can write.
fn expr_of(alloc: Global, text: &str) -> Result<ExprKind, AllocError> {
    if text == "getchar" || text.len() > 4_194_304 {
        return Ok(ExprKind::Getchar);
    }
    let Ok(tokens) = tokens(alloc, text.as_bytes()) else {
        return Ok(ExprKind::Null);
    };
    if !tokens
        .as_slice()
        .iter()
        .all(|t| t.at.checked_add(t.len).is_some())
    {
        return Ok(ExprKind::Null);
    }
    match expr_at(alloc, tokens.as_slice(), 0) {
        Ok((expr, _)) => Ok(expr.kind),
        Err(_) => Ok(ExprKind::Null),
    }
}

fn answer(alloc: Global, program: &Lifted, reads: &str, text: &str) -> Result<String, AllocError> {
    let old = Tables::of(alloc, program)?;
    let expr = expr_of(alloc, text)?;
    shown(alloc, &numbered(alloc, &old, reads_of(reads), &expr)?)
}

fn put_rows(differing: &mut String, alloc: Global, program: &Lifted) -> Result<(), AllocError> {
    for (reads, text, wanted) in ROWS {
        compare(
            differing,
            text,
            wanted,
            &answer(alloc, program, reads, text)?,
        )?;
    }
    Ok(())
}

fn differing_rows(alloc: Global) -> Result<String, AllocError> {
    let mut differing = String::new(alloc);
    match program_of(alloc, SOURCE)? {
        Some(program) => put_rows(&mut differing, alloc, &program)?,
        None => differing.push_str("the source is refused")?,
    }
    Ok(differing)
}

#[test]
fn expressions_are_numbered(rt: HostRuntime) -> Result<(), RowsDiffer> {
    judged(differing_rows(rt.alloc()))
}
