//! The longest expressions that tokens begin with.

/// A text, the token that the expression begins with, and the offset where the expression stands
/// with the token behind it, or the fault.
#[rattlefmt::skip]
pub const FRONTS: &[(&str, usize, &str)] = &[
    ("w = x * 1000; }", 2, "6 to 5"),
    ("a + ;", 0, "4: unexpected"),
    ("a + char", 0, "4: left out char"),
    ("a char", 0, "0 to 1"),
    ("a +", 0, "3: unexpected"),
    ("a.2 -> b", 0, "0 to 5"),
    (".1", 0, "0 to 2"),
    ("i.2[0]", 0, "0 to 3"),
    ("f(x)", 0, "0 to 1"),
    ("(a)->b[0]", 0, "0 to 5"),
    ("(void*)a", 0, "1: unexpected"),
    ("a[b", 0, "3: unexpected"),
    ("entry == loop", 0, "6 to 3"),
    ("", 0, "0: unexpected"),
    ("a", 1, "1: unexpected"),
];

/// The limits count from the first token on: a piece, what stands behind the pieces, how many
/// pieces there are, and the answer.
#[rattlefmt::skip]
pub const LIMITS: &[(&str, &str, u32, &str)] = &[
    ("- ", "a", 100, "0 to 101"),
    ("- ", "a", 101, "202: too deep"),
    ("- ", ";", 101, "202: too deep"),
    ("- ", "EOF", 99, "0 to 100"),
    ("- ", "EOF", 100, "200: too deep"),
    ("1+", "1", 1001, "2001: too deep"),
];
