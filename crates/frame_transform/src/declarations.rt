//! The lines that declare structs, globals, mutexes and slots, and the heads of functions.

ghost use Rattle.std.specs.Prelude.{◌≡◌, ◌++◌, codes, drop, take, OnOk};
ghost use Rattle.std.specs.Fmt.{signed_decimal};
ghost use Rattle.std.specs.List.{flat_map};
ghost use Rattle.frame_transform.specs.Declarations as spec;
ghost use Rattle.frame_transform.specs.Line.{each, line};
ghost use Rattle.frame_transform.specs.TargetText.{declarations_text};

use crate::line::{append_indent, append_numbered};
use c_tree::{LFunction, LGlobal, LStruct, Lifted, Name, Slot, Ty};
use itoa::Buffer;
use std::alloc::AllocError;

fn append_pointer(owner: &Name, out: &mut Vec<u8>) -> Result<(), AllocError>
    ensures { OnOk result (out.new.items
        ≡ out.old.items ++ (codes "struct " ++ (owner.now ++ codes " *"))) }
{
    out.extend_from_slice(b"struct ")?;
    out.extend_from_slice(owner.as_bytes())?;
    out.extend_from_slice(b" *")
}

/// Appends a type as it stands directly before a name.
fn append_type(ty: &Ty, out: &mut Vec<u8>) -> Result<(), AllocError>
    ensures { OnOk result (out.new.items ≡ out.old.items ++ spec.typed ty.now) }
{
    match ty {
        Ty::Int => out.extend_from_slice(b"int "),
        Ty::Thread => out.extend_from_slice(b"pthread_t "),
        Ty::Void => out.extend_from_slice(b"void "),
        Ty::AnyPtr => out.extend_from_slice(b"void *"),
        Ty::Ptr(owner) => append_pointer(owner, out),
    }
}

fn append_declared(slot: &Slot, out: &mut Vec<u8>) -> Result<(), AllocError>
    ensures { OnOk result (out.new.items ≡ out.old.items ++ spec.declared slot.now) }
{
    append_type(&slot.ty, out)?;
    out.extend_from_slice(slot.name.as_bytes())
}

fn append_fields(fields: &[Slot], out: &mut Vec<u8>) -> Result<(), AllocError>
    ensures { OnOk result (out.new.items ≡ out.old.items
        ++ flat_map (λ field. spec.declared field ++ codes "; ") fields.now) }
{
    'fields: for i in 0..fields.len() {
        append_declared(&fields[i], out)?;
        out.extend_from_slice(b"; ")?;
    }
    Ok(())
}

fn append_struct(owner: &LStruct, out: &mut Vec<u8>) -> Result<(), AllocError>
    ensures { OnOk result (out.new.items ≡ out.old.items ++ spec.struct_text owner.now) }
{
    out.extend_from_slice(b"struct ")?;
    out.extend_from_slice(owner.name.as_bytes())?;
    out.extend_from_slice(b" { ")?;
    append_fields(owner.fields.as_slice(), out)?;
    out.extend_from_slice(b"};")
}

fn append_signed(n: i32, out: &mut Vec<u8>) -> Result<(), AllocError>
    ensures { OnOk result (out.new.items
        ≡ out.old.items ++ (codes " = " ++ signed_decimal n)) }
{
    let mut buffer = Buffer::new();
    out.extend_from_slice(b" = ")?;
    out.extend_from_slice(buffer.format(n).as_bytes())?;
    Ok(())
}

/// Appends what a global begins as, where that is not 0.
fn append_start(init: i32, out: &mut Vec<u8>) -> Result<(), AllocError>
    ensures { OnOk result (out.new.items ≡ out.old.items ++ spec.start_text init) }
{
    if init == 0 {
        Ok(())
    } else {
        append_signed(init, out)
    }
}

fn append_size(count: Option<u32>, init: i32, out: &mut Vec<u8>) -> Result<(), AllocError>
    ensures { OnOk result (out.new.items ≡ out.old.items ++ spec.size_text count init) }
{
    match count {
        Some(count) => append_numbered(b"[", count as usize, b"]", out),
        None => append_start(init, out),
    }
}

fn append_global(global: &LGlobal, out: &mut Vec<u8>) -> Result<(), AllocError>
    ensures { OnOk result (out.new.items ≡ out.old.items ++ spec.global_text global.now) }
{
    append_type(&global.ty, out)?;
    out.extend_from_slice(global.name.as_bytes())?;
    append_size(global.count, global.init, out)?;
    out.extend_from_slice(b";")
}

fn append_mutex(name: &Name, out: &mut Vec<u8>) -> Result<(), AllocError>
    ensures { OnOk result (out.new.items ≡ out.old.items ++ spec.mutex_text name.now) }
{
    out.extend_from_slice(b"pthread_mutex_t ")?;
    out.extend_from_slice(name.as_bytes())?;
    out.extend_from_slice(b";")
}

#[tactic(auto, using(crate::proofs::LineLemmas::line_rules))]
fn append_struct_line(owner: &LStruct, out: &mut Vec<u8>) -> Result<(), AllocError>
    ensures { OnOk result (out.new.items ≡ out.old.items ++ line 0 (spec.struct_text owner.now)) }
{
    append_indent(0, out)?;
    append_struct(owner, out)?;
    out.extend_from_slice(b"\n")
}

#[tactic(auto, using(crate::proofs::LineLemmas::line_rules))]
fn append_global_line(global: &LGlobal, out: &mut Vec<u8>) -> Result<(), AllocError>
    ensures { OnOk result (out.new.items
        ≡ out.old.items ++ line 0 (spec.global_text global.now)) }
{
    append_indent(0, out)?;
    append_global(global, out)?;
    out.extend_from_slice(b"\n")
}

#[tactic(auto, using(crate::proofs::LineLemmas::line_rules))]
fn append_mutex_line(name: &Name, out: &mut Vec<u8>) -> Result<(), AllocError>
    ensures { OnOk result (out.new.items ≡ out.old.items ++ line 0 (spec.mutex_text name.now)) }
{
    append_indent(0, out)?;
    append_mutex(name, out)?;
    out.extend_from_slice(b"\n")
}

fn append_structs(structs: &[LStruct], out: &mut Vec<u8>) -> Result<(), AllocError>
    ensures { OnOk result (out.new.items ≡ out.old.items
        ++ flat_map (λ x. line 0 (spec.struct_text x)) structs.now) }
{
    'structs: for i in 0..structs.len() {
        append_struct_line(&structs[i], out)?;
    }
    Ok(())
}

fn append_globals(globals: &[LGlobal], out: &mut Vec<u8>) -> Result<(), AllocError>
    ensures { OnOk result (out.new.items ≡ out.old.items
        ++ flat_map (λ x. line 0 (spec.global_text x)) globals.now) }
{
    'globals: for i in 0..globals.len() {
        append_global_line(&globals[i], out)?;
    }
    Ok(())
}

fn append_mutexes(mutexes: &[Name], out: &mut Vec<u8>) -> Result<(), AllocError>
    ensures { OnOk result (out.new.items ≡ out.old.items
        ++ flat_map (λ name. line 0 (spec.mutex_text name)) mutexes.now) }
{
    'mutexes: for i in 0..mutexes.len() {
        append_mutex_line(&mutexes[i], out)?;
    }
    Ok(())
}

/// Appends what a program declares before its functions.
pub fn append_declarations(program: &Lifted, out: &mut Vec<u8>) -> Result<(), AllocError>
    ensures { OnOk result (out.new.items ≡ out.old.items ++ declarations_text program.now) }
{
    append_structs(program.structs.as_slice(), out)?;
    append_globals(program.globals.as_slice(), out)?;
    append_mutexes(program.mutexes.as_slice(), out)
}

/// The slots that are parameters.
fn parameters(function: &LFunction) -> &[Slot]
    ensures { result.now ≡ take function.now.params function.now.slots }
{
    let slots = function.slots.as_slice();
    let count = function.params as usize;
    if count < slots.len() {
        &slots[..count]
    } else {
        slots
    }
}

/// The slots that are no parameters.
fn locals(function: &LFunction) -> &[Slot]
    ensures { result.now ≡ drop function.now.params function.now.slots }
{
    let slots = function.slots.as_slice();
    let count = function.params as usize;
    if count < slots.len() {
        &slots[count..]
    } else {
        &[]
    }
}

fn append_more_parameters(slots: &[Slot], out: &mut Vec<u8>) -> Result<(), AllocError>
    ensures { OnOk result (out.new.items ≡ out.old.items ++ each spec.declared slots.now) }
{
    'slots: for i in 0..slots.len() {
        out.extend_from_slice(b", ")?;
        append_declared(&slots[i], out)?;
    }
    Ok(())
}

fn append_parameters(slots: &[Slot], out: &mut Vec<u8>) -> Result<(), AllocError>
    ensures { OnOk result (out.new.items ≡ out.old.items ++ spec.parameters_text slots.now) }
{
    match slots.split_first() {
        None => out.extend_from_slice(b"void"),
        Some((first, rest)) => {
            append_declared(first, out)?;
            append_more_parameters(rest, out)
        }
    }
}

/// Appends the head of a function.
pub fn append_head(function: &LFunction, out: &mut Vec<u8>) -> Result<(), AllocError>
    ensures { OnOk result (out.new.items ≡ out.old.items ++ spec.head_text function.now) }
{
    append_type(&function.ret, out)?;
    out.extend_from_slice(function.name.as_bytes())?;
    out.extend_from_slice(b"(")?;
    append_parameters(parameters(function), out)?;
    out.extend_from_slice(b") {")
}

fn append_declaration(slot: &Slot, out: &mut Vec<u8>) -> Result<(), AllocError>
    ensures { OnOk result (out.new.items
        ≡ out.old.items ++ (spec.declared slot.now ++ codes ";")) }
{
    append_declared(slot, out)?;
    out.extend_from_slice(b";")
}

#[tactic(auto, using(crate::proofs::LineLemmas::line_rules))]
fn append_local(slot: &Slot, out: &mut Vec<u8>) -> Result<(), AllocError>
    ensures { OnOk result (out.new.items
        ≡ out.old.items ++ line 1 (spec.declared slot.now ++ codes ";")) }
{
    append_indent(1, out)?;
    append_declaration(slot, out)?;
    out.extend_from_slice(b"\n")
}

/// Appends the lines that declare the slots of a function that are no parameters.
pub fn append_locals(function: &LFunction, out: &mut Vec<u8>) -> Result<(), AllocError>
    ensures { OnOk result (out.new.items ≡ out.old.items ++ spec.locals_text function.now) }
{
    let slots = locals(function);
    'slots: for i in 0..slots.len() {
        append_local(&slots[i], out)?;
    }
    Ok(())
}
