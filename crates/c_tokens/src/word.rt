//! Words that are no names (ISO C11, 6.4.1, and names of the library).
ghost use Rattle.std.specs.Prelude.{◌≡◌, map};
ghost use Rattle.c_tokens.specs.Word as text;

/// The words with a meaning: keywords, and names of the library that have a form of their own.
fn keywords() -> &'static [&'static [u8]]
    ensures { map (λ w. w.now) result.now ≡ text.keywords }
{
    &[
        b"int",
        b"void",
        b"struct",
        b"if",
        b"else",
        b"while",
        b"for",
        b"break",
        b"continue",
        b"return",
        b"static",
        b"sizeof",
        b"NULL",
        b"EOF",
        b"printf",
        b"malloc",
        b"free",
        b"getchar",
        b"pthread_t",
        b"pthread_mutex_t",
        b"pthread_create",
        b"pthread_join",
        b"pthread_mutex_lock",
        b"pthread_mutex_unlock",
        b"PTHREAD_MUTEX_INITIALIZER",
    ]
}

/// The words of C that are left out.
fn left_out_words() -> &'static [&'static [u8]]
    ensures { map (λ w. w.now) result.now ≡ text.left_out_words }
{
    &[
        b"char",
        b"unsigned",
        b"signed",
        b"short",
        b"long",
        b"float",
        b"double",
        b"union",
        b"enum",
        b"typedef",
        b"switch",
        b"case",
        b"default",
        b"goto",
        b"do",
        b"const",
        b"volatile",
        b"extern",
        b"register",
        b"auto",
        b"inline",
    ]
}

/// Whether the word is one of the words.
fn is_among(words: &[&[u8]], word: &[u8]) -> bool
    ensures { result ≡ text.is_among (map (λ w. w.now) words.now) word.now }
{
    'words: for w in words {
        if *w == word {
            return true;
        }
    }
    false
}

/// Whether it is a word of C that is left out.
pub fn is_left_out(word: &[u8]) -> bool
    ensures { result ≡ text.is_left_out word.now }
{
    is_among(left_out_words(), word)
}

/// Whether a word may be a name.
pub fn is_name(word: &[u8]) -> bool
    ensures { result ≡ text.is_name word.now }
{
    !(is_among(keywords(), word) || is_left_out(word))
}
