//! Patches that are read back from their files.

use patch_file::{FileRefused, read_patch, write_patch};
use row_calls::{RowsDiffer, compare, judged, opened};
use std::alloc::{AllocError, Global};

const C1: &str =
    r#"int n; int main(void) { while (n < 4) { n = n + 1; printf("old %d\n", n); } return 0; }
"#;

const C2: &str =
    r#"int n; int main(void) { while (n < 4) { n = n + 1; printf("new %d\n", n); } return 0; }
"#;

/// Mappings in their canonical text.
#[rattlefmt::skip]
const MAPPINGS: &[&str] = &[
    "",
    "point main loop 1 -> loop 1;\n",
    "check - -n >= 0;\n",
    r"
function main -> main;
global n -> n;
init n = n + 1;
point main entry -> loop 1;
check n;
",
];

/// What comes of a file: the file that its patch is written to, or the offset of its first fault.
fn read_again(alloc: Global, file: &str) -> Result<String, AllocError> {
    match read_patch(alloc, file.as_bytes()) {
        Ok(patch) => {
            let bytes = write_patch(alloc, &patch)?;
            String::from_str(
                alloc,
                std::str::from_utf8(bytes.as_slice()).unwrap_or("no text"),
            )
        }
        Err(FileRefused::At(at, _)) => format!(in alloc; "refused at {at}"),
        Err(FileRefused::Memory(e)) => Err(e),
    }
}

/// Each front of a file is refused at its end.
fn put_cuts(differing: &mut String, alloc: Global, file: &str) -> Result<(), AllocError> {
    for len in 0..file.len() {
        let cut = file.get(..len).unwrap_or("");
        let wanted = format!(in alloc; "refused at {len}")?;
        compare(differing, "a cut file", &wanted, &read_again(alloc, cut)?)?;
    }
    Ok(())
}

fn differing_rows(alloc: Global) -> Result<String, AllocError> {
    let mut differing = String::new(alloc);
    for map in MAPPINGS {
        let map = opened(map);
        let len = map.len();
        let file = format!(in alloc;
            "upstare-patch 2\nold 88\n{C1}new 88\n{C2}map {len}\n{map}end\n"
        )?;
        compare(&mut differing, map, &file, &read_again(alloc, &file)?)?;
        put_cuts(&mut differing, alloc, &file)?;
        let first = format!(in alloc;
            "upstare-patch 1\nold 88\n{C1}new 88\n{C2}map {len}\n{map}end\n"
        )?;
        compare(&mut differing, map, &file, &read_again(alloc, &first)?)?;
    }
    Ok(differing)
}

#[test]
fn a_patch_is_read_back(rt: HostRuntime) -> Result<(), RowsDiffer> {
    judged(differing_rows(rt.alloc()))
}

/// More bytes than a patch may have, and as many.
fn differing_limit(alloc: Global) -> Result<String, AllocError> {
    let mut differing = String::new(alloc);
    let rest = "x".repeat(alloc, 4_194_289)?;
    let more = format!(in alloc; "upstare-patch 2\n{rest}")?;
    compare(
        &mut differing,
        "one byte more",
        "refused at 4194304",
        &read_again(alloc, &more)?,
    )?;
    let most = more.get(..4_194_304).unwrap_or("");
    compare(
        &mut differing,
        "as many",
        "refused at 16",
        &read_again(alloc, most)?,
    )?;
    Ok(differing)
}

#[test]
fn a_patch_has_its_limit(rt: HostRuntime) -> Result<(), RowsDiffer> {
    judged(differing_limit(rt.alloc()))
}
