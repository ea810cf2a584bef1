//! The mapping from the old program to the new one.

ghost use Rattle.std.specs.Prelude.{◌≡◌, ◌++◌, IfOk, OnOk};
ghost use Rattle.std.specs.List.{flat_map, range_with_len};
ghost use Rattle.load_texts.specs.Texts as spec;

use crate::number::append_numbered;
use c_tree::Text;
use std::alloc::{AllocError, Global};

fn append_entry(k: u32, out: &mut Vec<u8>) -> Result<(), AllocError>
    ensures { OnOk result (out.new.items ≡ out.old.items ++ spec.entry k) }
{
    append_numbered(b"point f", k, out)?;
    out.extend_from_slice(b" entry -> entry;\n")
}

#[tactic(auto, unfolding(crate::specs::Texts::kept))]
fn append_kept(point: &[u8], out: &mut Vec<u8>) -> Result<(), AllocError>
    ensures { OnOk result (out.new.items ≡ out.old.items ++ spec.kept point.now) }
{
    out.extend_from_slice(point)?;
    out.extend_from_slice(b" -> ")?;
    out.extend_from_slice(point)
}

#[tactic(auto, unfolding(crate::specs::Texts::fill))]
fn append_fill(k: u32, out: &mut Vec<u8>) -> Result<(), AllocError>
    ensures { OnOk result (out.new.items ≡ out.old.items ++ spec.fill k) }
{
    append_numbered(b" { z = i * ", k, out)?;
    out.extend_from_slice(b"; };\n")
}

/// Appends a point at which the new slot gets a value.
fn append_filled(k: u32, point: &[u8], out: &mut Vec<u8>) -> Result<(), AllocError>
    ensures { OnOk result (out.new.items ≡ out.old.items ++ spec.filled k point.now) }
{
    append_numbered(b"point f", k, out)?;
    out.extend_from_slice(b" ")?;
    append_kept(point, out)?;
    append_fill(k, out)
}

/// Appends the point of a function's call, which the first has not.
fn append_called(k: u32, out: &mut Vec<u8>) -> Result<(), AllocError>
    ensures { OnOk result (out.new.items ≡ out.old.items ++ spec.called k) }
{
    if k <= 1 {
        return Ok(());
    }
    append_filled(k, b"call 1", out)
}

fn append_frames(k: u32, out: &mut Vec<u8>) -> Result<(), AllocError>
    ensures { OnOk result (out.new.items ≡ out.old.items ++ spec.frames k) }
{
    append_entry(k, out)?;
    append_filled(k, b"loop 1", out)?;
    append_called(k, out)
}

fn append_all_frames(n: u32, out: &mut Vec<u8>) -> Result<(), AllocError>
    ensures { OnOk result (out.new.items
        ≡ out.old.items ++ flat_map spec.frames (range_with_len 1 n)) }
{
    'functions: for i in 0..n {
        append_frames(i + 1, out)?;
    }
    Ok(())
}

fn append_main_frames(out: &mut Vec<u8>) -> Result<(), AllocError>
    ensures { OnOk result (out.new.items ≡ out.old.items ++ spec.main_frames) }
{
    out.extend_from_slice(b"point main entry -> entry;\n")?;
    out.extend_from_slice(b"point main block 1 -> block 1;\n")?;
    out.extend_from_slice(b"point main block 2 -> block 2;\n")?;
    out.extend_from_slice(b"point main block 3 -> block 3;\n")?;
    out.extend_from_slice(b"point main block 4 -> block 4;\n")
}

/// The mapping between the two programs of this size: a point for each frame that the update may
/// find.
///
/// # Errors
///
/// Where the memory for the text is wanting.
#[tactic(auto, unfolding(crate::specs::Texts::mapping))]
pub fn mapping(alloc: Global, n: u32) -> Result<Text, AllocError>
    ensures { IfOk result (λ t. t ≡ spec.mapping n) }
{
    let mut out = Vec::new(alloc);
    append_all_frames(n, &mut out)?;
    append_main_frames(&mut out)?;
    Ok(Text::from_vec(out))
}
