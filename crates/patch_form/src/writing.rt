//! The bytes of a patch file.

ghost use Rattle.std.specs.Prelude.{◌≡◌, ◌++◌, IfOk, OnOk};
ghost use Rattle.patch_form.specs.Framing.{number_line, framed};
ghost use Rattle.patch_form.specs.declared.format.Format.TheVariants.{Two};

use itoa::Buffer;
use std::alloc::{AllocError, Global};

/// Appends a word and the line of a length.
fn append_head(word: &[u8], len: usize, out: &mut Vec<u8>) -> Result<(), AllocError>
    ensures { OnOk result (out.new.items ≡ out.old.items ++ word.now ++ number_line len) }
{
    let mut buffer = Buffer::new();
    out.extend_from_slice(word)?;
    out.extend_from_slice(buffer.format(len).as_bytes())?;
    out.extend_from_slice(b"\n")?;
    Ok(())
}

/// The bytes of the patch file of three texts, in format 2.
pub fn write_frame(alloc: Global, old: &[u8], new: &[u8], map: &[u8]) -> Result<Vec<u8>, AllocError>
    ensures { IfOk result (λ bytes. bytes.items ≡ framed Two old.now new.now map.now) }
{
    let mut out = Vec::from_slice(alloc, b"upstare-patch 2\n")?;
    append_head(b"old ", old.len(), &mut out)?;
    out.extend_from_slice(old)?;
    append_head(b"new ", new.len(), &mut out)?;
    out.extend_from_slice(new)?;
    append_head(b"map ", map.len(), &mut out)?;
    out.extend_from_slice(map)?;
    out.extend_from_slice(b"end\n")?;
    Ok(out)
}
