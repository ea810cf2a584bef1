//! The limits of a mapping: its names, how deep an expression nests, and how many operators it has.

/// What stands first, a piece, what stands behind the pieces, another piece, how often each of the
/// two stands there, what stands last, and the answer.
pub type LimitRow<'a> = (&'a str, &'a str, &'a str, &'a str, u32, &'a str, &'a str);

/// A mapping has no length of its own, and a name has at most 64 bytes. The nesting is counted from
/// an expression's first token, and the end of a file counts once more. Each expression has its own
/// count of operators, and arrows count among them.
#[rattlefmt::skip]
pub const LIMITS: &[LimitRow<'static>] = &[
    ("", " ", "", "", 1048577, "", "0"),
    ("", " ", ";", "", 1048577, "", "1048577: unexpected"),
    ("function ", "n", " -> g;", "", 64, "", "1"),
    ("function ", "n", " -> g;", "", 65, "", "9: bad token"),
    ("check ", "(", "1", ")", 100, ";", "1"),
    ("check ", "(", "1", ")", 101, ";", "107: too deep"),
    ("check ", "~", "1", "", 100, ";", "1"),
    ("check ", "~", "1", "", 101, ";", "107: too deep"),
    ("check ", "a[", "1", "]", 100, ";", "1"),
    ("check ", "a[", "1", "]", 101, ";", "208: too deep"),
    ("check ", "(", "EOF", ")", 99, ";", "1"),
    ("check ", "(", "EOF", ")", 100, ";", "106: too deep"),
    ("init g = ", "!", "a", "", 100, ";", "1"),
    ("init g = ", "!", "a", "", 101, ";", "110: too deep"),
    ("field s.f = ", "(", "a", ")", 100, ";", "1"),
    ("field s.f = ", "(", "a", ")", 101, ";", "113: too deep"),
    ("point f entry -> entry { a = ", "(", "1", ")", 100, "; };", "1"),
    ("point f entry -> entry { a = ", "(", "1", ")", 101, "; };", "130: too deep"),
    ("check 1", "+1", ";", "", 1000, "", "1"),
    ("check 1", "+1", ";", "", 1001, "", "2007: too deep"),
    ("check a", "->b", ";", "", 1000, "", "1"),
    ("check a", "->b", ";", "", 1001, "", "3007: too deep"),
    ("init g = (1)", "*2", ";", "", 1001, "", "2012: too deep"),
    ("field s.f = a[1", "*2", ";", "", 1001, "", "2015: too deep"),
];
