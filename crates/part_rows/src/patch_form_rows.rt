//! Files of patches worked by hand.

use patch_form::{Frame, FrameFault, read_frame, write_frame};
use row_calls::{RowsDiffer, compare, judged, opened};
use std::alloc::{AllocError, Global};

/// Where each text begins and how long it is, or the fault.
fn answer(alloc: Global, bytes: &[u8]) -> Result<String, AllocError> {
    match read_frame(bytes) {
        Ok(frame) => {
            let (old_at, old) = (frame.old.at, frame.old.text.len());
            let (new_at, new) = (frame.new.at, frame.new.text.len());
            let (map_at, map) = (frame.map.at, frame.map.text.len());
            format!(in alloc; "{old_at}+{old} {new_at}+{new} {map_at}+{map}")
        }
        Err(FrameFault::Short) => String::from_str(alloc, "short"),
        Err(FrameFault::BadHead(at)) => format!(in alloc; "bad at {at}"),
    }
}

/// What stands behind the first line, and the answer to the file.
#[rattlefmt::skip]
const FILES: &[(&str, &str)] = &[
    ("old 0\nnew 0\nmap 0\nend\n", "22+0 28+0 34+0"),
    (r"
old 1

new 1

map 1

end
", "22+1 29+1 36+1"),
    ("old 10\n0123456789new 0\nmap 3\na->end\n", "23+10 39+0 45+3"),
    (r"
old 6
new 0
new 6
end
  map 6
old 6
end
", "22+6 34+6 46+6"),
    ("", "short"),
    ("old ", "short"),
    ("old 0", "short"),
    ("old 3\nab", "short"),
    ("old 0\nnew 0\nmap 0\nend", "short"),
    ("old 18446744073709551615\n", "short"),
    ("old 18446744073709551616\nabc", "short"),
    ("old 18446744073709551617\nabc", "short"),
    ("\n\nold 0\n", "bad at 16"),
    ("Old 0\n", "bad at 16"),
    ("new 0\n", "bad at 16"),
    ("old\t0\n", "bad at 19"),
    ("old \n", "bad at 20"),
    ("old  0\n", "bad at 20"),
    ("old +1\n", "bad at 20"),
    ("old -1\n", "bad at 20"),
    ("old x", "bad at 20"),
    ("old 00\n", "bad at 21"),
    ("old 01\n", "bad at 21"),
    ("old 0x1\n", "bad at 21"),
    ("old 1 \n", "bad at 21"),
    ("old 0\r\n", "bad at 21"),
    ("old 1\nnew 0\nmap 0\nend\n", "bad at 23"),
    ("old 0\nmap 0\nend\n", "bad at 22"),
    ("old 0\nnew 0\nmap 0\n\nend\n", "bad at 34"),
    ("old 0\nnew 0\nmap 0\nend\n\n", "bad at 38"),
    ("old 0\nnew 0\nmap 0\nend\nend\n", "bad at 38"),
];

/// Whole files, and their answers.
#[rattlefmt::skip]
const FIRST_LINES: &[(&str, &str)] = &[
    ("", "short"),
    ("upstare-patch ", "short"),
    ("upstare-patch 1", "short"),
    ("upstare-patch 2", "short"),
    ("U", "bad at 0"),
    ("\nupstare-patch 1\n", "bad at 0"),
    ("upstare patch 1\n", "bad at 7"),
    ("upstare-patch 0\n", "bad at 14"),
    ("upstare-patch 3\n", "bad at 14"),
    ("upstare-patch a\n", "bad at 14"),
    ("upstare-patch 10\n", "bad at 15"),
    ("upstare-patch 22\n", "bad at 15"),
];

/// What stands behind a length of 200 digits, and the answer to the file.
#[rattlefmt::skip]
const LONG_LENGTHS: &[(&str, &str)] = &[
    ("", "short"),
    ("0", "short"),
    ("\n", "short"),
    ("\nabc", "short"),
    (" ", "bad at 220"),
];

fn differing_rows(alloc: Global) -> Result<String, AllocError> {
    let mut differing = String::new(alloc);
    for head in ["upstare-patch 1\n", "upstare-patch 2\n"] {
        for (tail, wanted) in FILES {
            let file = format!(in alloc; "{head}{}", opened(tail))?;
            compare(
                &mut differing,
                tail,
                wanted,
                &answer(alloc, file.as_bytes())?,
            )?;
        }
    }
    for (file, wanted) in FIRST_LINES {
        compare(
            &mut differing,
            file,
            wanted,
            &answer(alloc, file.as_bytes())?,
        )?;
    }
    let digits = "9".repeat(alloc, 200)?;
    for (tail, wanted) in LONG_LENGTHS {
        let file = format!(in alloc; "upstare-patch 1\nold {digits}{tail}")?;
        compare(
            &mut differing,
            tail,
            wanted,
            &answer(alloc, file.as_bytes())?,
        )?;
    }
    Ok(differing)
}

#[test]
fn each_file_has_its_answer(rt: HostRuntime) -> Result<(), RowsDiffer> {
    judged(differing_rows(rt.alloc()))
}

/// Three texts, and their file.
#[rattlefmt::skip]
const WRITTEN: &[(&str, &str, &str, &str)] = &[
    ("", "", "", "upstare-patch 2\nold 0\nnew 0\nmap 0\nend\n"),
    ("int main(void) { return 0; }\n", "end\n", "old 3\n", r"
upstare-patch 2
old 29
int main(void) { return 0; }
new 4
end
map 6
old 3
end
"),
    ("0", r"
upstare-patch 1
old 0
new 0
map 0
end
", "\0\u{ff}\r\n", "\
upstare-patch 2\nold 1\n0new 38\n\
upstare-patch 1\nold 0\nnew 0\nmap 0\n\
end\nmap 5\n\0\u{ff}\r\nend\n"),
];

fn put_text(differing: &mut String, wanted: &str, got: &[u8]) -> Result<(), AllocError> {
    let got = std::str::from_utf8(got).unwrap_or("no text");
    compare(differing, "a text that is read", wanted, got)
}

/// The texts of a file that is read again.
fn put_frame(
    differing: &mut String,
    frame: &Frame<'_>,
    texts: (&str, &str, &str),
) -> Result<(), AllocError> {
    put_text(differing, texts.0, frame.old.text)?;
    put_text(differing, texts.1, frame.new.text)?;
    put_text(differing, texts.2, frame.map.text)
}

/// Each front of a file is cut short.
fn put_cuts(differing: &mut String, alloc: Global, file: &[u8]) -> Result<(), AllocError> {
    for len in 0..file.len() {
        let cut = file.get(..len).unwrap_or(&[]);
        compare(differing, "a cut file", "short", &answer(alloc, cut)?)?;
    }
    Ok(())
}

fn differing_written(alloc: Global) -> Result<String, AllocError> {
    let mut differing = String::new(alloc);
    for (old, new, map, wanted) in WRITTEN {
        let (old, new) = (opened(old), opened(new));
        let file = write_frame(alloc, old.as_bytes(), new.as_bytes(), map.as_bytes())?;
        put_text(&mut differing, opened(wanted), file.as_slice())?;
        match read_frame(file.as_slice()) {
            Ok(frame) => put_frame(&mut differing, &frame, (old, new, map))?,
            Err(_) => differing.push_str("a file that was written is refused")?,
        }
        put_cuts(&mut differing, alloc, file.as_slice())?;
    }
    Ok(differing)
}

#[test]
fn what_is_written_is_read(rt: HostRuntime) -> Result<(), RowsDiffer> {
    judged(differing_written(rt.alloc()))
}
