//! Texts that are no program.

/// What `check` answers to each text.
pub const ROWS: &str = r"
=== nothing
---
0: no main
=== left out word
int main(void) { char c; }
---
17: left out char
";
