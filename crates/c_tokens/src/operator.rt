//! Operators and other signs, by their places in a list (ISO C11, 6.4.6).
ghost use Rattle.std.specs.Prelude.{◌≡◌};
ghost use Rattle.c_tokens.specs.Operator as text;

/// The places of the operators, the longest first.
fn longest_first() -> &'static [u8; 45]
    ensures { result.now ≡ text.longest_first }
{
    &[
        29, 30, 5, 6, 8, 10, 11, 12, 16, 17, 21, 22, 23, 24, 25, 26, 27, 28, 31, 32, 33, 0, 1, 2,
        3, 4, 7, 9, 13, 14, 15, 18, 19, 20, 34, 35, 36, 37, 38, 39, 40, 41, 42, 43, 44,
    ]
}

/// The bytes of the operator of a place, 0 to 44; none for a number that is no place.
#[rattlefmt::skip]
pub fn operator(place: u8) -> &'static [u8]
    ensures { result.now ≡ text.operator place }
{
    match place {
        0 => b"+", 1 => b"-", 2 => b"*", 3 => b"/", 4 => b"%",
        5 => b"<<", 6 => b">>", 7 => b"<", 8 => b"<=", 9 => b">",
        10 => b">=", 11 => b"==", 12 => b"!=", 13 => b"&", 14 => b"^",
        15 => b"|", 16 => b"&&", 17 => b"||", 18 => b"!", 19 => b"~",
        20 => b"=", 21 => b"+=", 22 => b"-=", 23 => b"*=", 24 => b"/=",
        25 => b"%=", 26 => b"&=", 27 => b"^=", 28 => b"|=", 29 => b"<<=",
        30 => b">>=", 31 => b"++", 32 => b"--", 33 => b"->", 34 => b"(",
        35 => b")", 36 => b"[", 37 => b"]", 38 => b"{", 39 => b"}",
        40 => b",", 41 => b";", 42 => b".", 43 => b"?", 44 => b":",
        _ => b"",
    }
}

/// The place of the longest operator that the bytes begin with.
pub fn longest(bytes: &[u8]) -> Option<u8>
    ensures { result ≡ text.longest bytes.now }
{
    longest_first()
        .iter()
        .copied()
        .find(|place| bytes.starts_with(operator(*place)))
}
