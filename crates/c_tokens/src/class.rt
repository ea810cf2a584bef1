//! What the byte at the front of a token says of it.
ghost use Rattle.std.specs.Prelude.{◌≡◌, ◌≤◌, length};
ghost use Rattle.c_tokens.specs.Byte as byte;

/// What a token is that begins with a byte (ISO C11, 6.4).
#[derive(Clone, Copy)]
pub enum Class {
    /// A space, a tab, a carriage return or the end of a line: no token.
    Blank,
    /// A number.
    Digit,
    /// A word.
    Letter,
    /// A string literal.
    Quote,
    /// A character constant.
    Apostrophe,
    /// An operator, a comment, or a byte that begins nothing.
    Sign,
}

/// Whether it is a blank that ends no line: a space, a tab or a carriage return.
pub fn is_gap(b: u8) -> bool
    ensures { result ≡ byte.is_gap b }
{
    b == b' ' || b == b'\t' || b == b'\r'
}

/// Whether it is a blank, which may be the end of a line.
pub fn is_blank(b: u8) -> bool
    ensures { result ≡ byte.is_blank b }
{
    is_gap(b) || b == b'\n'
}

/// Whether it is a decimal digit.
pub fn is_digit(b: u8) -> bool
    ensures { result ≡ byte.is_digit b }
{
    48 <= b && b <= 57
}

/// Whether it is a letter of ASCII or `_`, which an identifier may begin with (ISO C11, 6.4.2).
pub fn is_letter(b: u8) -> bool
    ensures { result ≡ byte.is_letter b }
{
    (65 <= b && b <= 90) || (97 <= b && b <= 122) || b == b'_'
}

/// Whether it may stand in an identifier behind its first byte (ISO C11, 6.4.2).
pub fn is_name_byte(b: u8) -> bool
    ensures { result ≡ byte.is_name_byte b }
{
    is_letter(b) || is_digit(b)
}

/// What a token is that begins with the byte.
pub fn class_of(b: u8) -> Class
    ensures { result ≡ byte.class_of b }
{
    if is_blank(b) {
        Class::Blank
    } else if is_digit(b) {
        Class::Digit
    } else if is_letter(b) {
        Class::Letter
    } else if b == b'"' {
        Class::Quote
    } else if b == b'\'' {
        Class::Apostrophe
    } else {
        Class::Sign
    }
}

/// How many name bytes stand at the front.
pub fn name_run(bytes: &[u8]) -> usize
    ensures run { result ≡ byte.name_run bytes.now }
    ensures within { result ≤ length bytes.now }
{
    bytes.iter().take_while(|b| is_name_byte(**b)).count()
}
