//! What texts of mappings are read as, or their first fault.

mod limits;
mod rows;
mod trees;

use crate::map_lang_rows::rows::{ENTRIES, FAULTS, FIRST, UNEXPECTED};
use crate::repeats::{Repeat, repeated};
use c_tree::{At, Entry, Fill, Mapping, Name, Part};
use map_lang::{MapRefused, read_map};
use row_calls::{RowsDiffer, compare, judged, opened};
use std::alloc::{AllocError, Global};
use tree_texts::{Node, fault, kind_word, put_tree, word};

/// How many entries a mapping has, or its first fault.
fn count(alloc: Global, text: &str) -> Result<String, AllocError> {
    if text.len() > 4_194_304 {
        return String::from_str(alloc, "longer than a mapping may be");
    }
    match read_map(alloc, text.as_bytes()) {
        Ok(mapping) => format!(in alloc; "{}", mapping.entries.len()),
        Err(MapRefused::At(at, cause)) => fault(alloc, at, &cause),
        Err(MapRefused::Memory(e)) => Err(e),
    }
}

fn put_match(
    text: &mut String,
    kind: u8,
    old: &Name,
    new: &Option<Name>,
) -> Result<(), AllocError> {
    let old = word(old);
    write!(text, "match {kind} {old} ")?;
    match new {
        Some(new) => write!(text, "{} ", word(new)),
        None => Ok(()),
    }
}

fn put_field(text: &mut String, owner: &Name, field: &Name) -> Result<(), AllocError> {
    let (owner, field) = (word(owner), word(field));
    write!(text, "field {owner} {field} ")
}

fn put_head(text: &mut String, entry: &Entry) -> Result<(), AllocError> {
    match entry {
        Entry::Match(kind, old, new) => put_match(text, *kind, old, new),
        Entry::Field(owner, field, _) => put_field(text, owner, field),
        Entry::Init(global, _) => write!(text, "init {} ", word(global)),
        Entry::Point(function, old, _) => {
            let (function, kind) = (word(function), kind_word(old.kind));
            write!(text, "point {function} {kind} {} ", old.number)
        }
        Entry::Check(_) => text.push_str("check "),
    }
}

fn put_fills(text: &mut String, alloc: Global, fills: &[Fill]) -> Result<(), AllocError> {
    for fill in fills {
        write!(text, "fill {} ", word(&fill.slot))?;
        put_tree(text, alloc, Node::Expr(&fill.expr))?;
    }
    Ok(())
}

fn put_parts(text: &mut String, alloc: Global, parts: &[Part]) -> Result<(), AllocError> {
    for part in parts {
        if let Some(function) = &part.function {
            write!(text, "part {} ", word(function))?;
        }
        let kind = kind_word(part.point.kind);
        write!(text, "{kind} {} ", part.point.number)?;
        put_fills(text, alloc, part.fills.as_slice())?;
    }
    Ok(())
}

fn put_entry(text: &mut String, alloc: Global, entry: &At<Entry>) -> Result<(), AllocError> {
    put_head(text, &entry.it)?;
    write!(text, "@{} ", entry.at)?;
    match &entry.it {
        Entry::Match(_, _, _) => Ok(()),
        Entry::Field(_, _, expr) => put_tree(text, alloc, Node::Expr(expr)),
        Entry::Init(_, expr) => put_tree(text, alloc, Node::Expr(expr)),
        Entry::Check(expr) => put_tree(text, alloc, Node::Expr(expr)),
        Entry::Point(_, _, parts) => put_parts(text, alloc, parts.as_slice()),
    }
}

fn put_mapping(text: &mut String, alloc: Global, mapping: &Mapping) -> Result<(), AllocError> {
    for entry in mapping.entries.as_slice() {
        put_entry(text, alloc, entry)?;
    }
    Ok(())
}

/// The tree of a mapping, or its first fault.
fn tree(alloc: Global, source: &str) -> Result<String, AllocError> {
    let mut text = String::new(alloc);
    if source.len() > 4_194_304 {
        return Ok(text);
    }
    match read_map(alloc, source.as_bytes()) {
        Ok(mapping) => put_mapping(&mut text, alloc, &mapping)?,
        Err(MapRefused::At(at, cause)) => return fault(alloc, at, &cause),
        Err(MapRefused::Memory(e)) => return Err(e),
    }
    Ok(text)
}

/// Expressions with as many operators as there may be, in each place of a mapping.
fn full_mapping(alloc: Global) -> Result<String, AllocError> {
    let sum = repeated(
        alloc,
        &Repeat {
            head: "1",
            before: "+1",
            middle: "",
            after: "",
            count: 1000,
        },
    )?;
    format!(in alloc;
        "check {sum}; init g = {sum}; point f entry -> entry {{ a = {sum}; b = {sum}; }};"
    )
}

fn differing_rows(alloc: Global) -> Result<String, AllocError> {
    let mut differing = String::new(alloc);
    for rows in [ENTRIES, FAULTS, UNEXPECTED, FIRST] {
        for (text, wanted) in rows {
            compare(&mut differing, text, wanted, &count(alloc, opened(text))?)?;
        }
    }
    for (head, before, middle, after, times, last, wanted) in limits::LIMITS {
        let repeat = Repeat {
            head,
            before,
            middle,
            after,
            count: *times,
        };
        let mut text = repeated(alloc, &repeat)?;
        text.push_str(last)?;
        compare(&mut differing, head, wanted, &count(alloc, &text)?)?;
    }
    compare(
        &mut differing,
        "full",
        "3",
        &count(alloc, &full_mapping(alloc)?)?,
    )?;
    for (text, wanted) in trees::TREES {
        compare(&mut differing, text, wanted, &tree(alloc, text)?)?;
    }
    Ok(differing)
}

#[test]
fn mappings_are_read(rt: HostRuntime) -> Result<(), RowsDiffer> {
    judged(differing_rows(rt.alloc()))
}
