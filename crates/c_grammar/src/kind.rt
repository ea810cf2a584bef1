//! What a token is to the grammar. Written by tools/reader_tables.py.

/// What a token is to the grammar: a class of tokens, a word or a sign (ISO C11, 6.4). The last
/// ones are words of mappings, which are names in a source.
#[derive(Clone, Copy)]
pub enum Kind {
    /// An identifier that is no word of the language (ISO C11, 6.4.2).
    Name,
    /// An integer constant (ISO C11, 6.4.4.1).
    Number,
    /// A character constant (ISO C11, 6.4.4.4).
    Char,
    /// A string literal (ISO C11, 6.4.5).
    String,
    /// A line with `#include` (ISO C11, 6.10.2), or the front of a directive that is at fault.
    Include,
    /// A line with `#define` (ISO C11, 6.10.3).
    Define,
    /// A word of C that is left out.
    LeftOut,
    /// A number that no sign has.
    Other,
    /// `int`
    Int,
    /// `void`
    Void,
    /// `struct`
    Struct,
    /// `if`
    If,
    /// `else`
    Else,
    /// `while`
    While,
    /// `for`
    For,
    /// `break`
    Break,
    /// `continue`
    Continue,
    /// `return`
    Return,
    /// `static`
    Static,
    /// `sizeof`
    Sizeof,
    /// `NULL`
    Null,
    /// `EOF`
    Eof,
    /// `printf`
    Printf,
    /// `malloc`
    Malloc,
    /// `free`
    Free,
    /// `getchar`
    Getchar,
    /// `pthread_t`
    Thread,
    /// `pthread_mutex_t`
    Mutex,
    /// `pthread_create`
    Create,
    /// `pthread_join`
    Join,
    /// `pthread_mutex_lock`
    Lock,
    /// `pthread_mutex_unlock`
    Unlock,
    /// `PTHREAD_MUTEX_INITIALIZER`
    Initializer,
    /// `+`
    Plus,
    /// `-`
    Minus,
    /// `*`
    Star,
    /// `/`
    Slash,
    /// `%`
    Percent,
    /// `<<`
    ShiftLeft,
    /// `>>`
    ShiftRight,
    /// `<`
    Less,
    /// `<=`
    LessEqual,
    /// `>`
    Greater,
    /// `>=`
    GreaterEqual,
    /// `==`
    EqualEqual,
    /// `!=`
    NotEqual,
    /// `&`
    And,
    /// `^`
    Xor,
    /// `|`
    Or,
    /// `&&`
    AndAnd,
    /// `||`
    OrOr,
    /// `!`
    Bang,
    /// `~`
    Tilde,
    /// `=`
    Equal,
    /// `+=`
    PlusEqual,
    /// `-=`
    MinusEqual,
    /// `*=`
    StarEqual,
    /// `/=`
    SlashEqual,
    /// `%=`
    PercentEqual,
    /// `&=`
    AndEqual,
    /// `^=`
    XorEqual,
    /// `|=`
    OrEqual,
    /// `<<=`
    ShiftLeftEqual,
    /// `>>=`
    ShiftRightEqual,
    /// `++`
    PlusPlus,
    /// `--`
    MinusMinus,
    /// `->`
    Arrow,
    /// `(`
    LeftParen,
    /// `)`
    RightParen,
    /// `[`
    LeftBracket,
    /// `]`
    RightBracket,
    /// `{`
    LeftBrace,
    /// `}`
    RightBrace,
    /// `,`
    Comma,
    /// `;`
    Semicolon,
    /// `.`
    Dot,
    /// `?`
    Question,
    /// `:`
    Colon,
    /// `function`
    FunctionWord,
    /// `global`
    GlobalWord,
    /// `mutex`
    MutexWord,
    /// `field`
    FieldWord,
    /// `init`
    InitWord,
    /// `point`
    PointWord,
    /// `check`
    CheckWord,
    /// `entry`
    EntryWord,
    /// `loop`
    LoopWord,
    /// `call`
    CallWord,
    /// `block`
    BlockWord,
    /// `none`
    NoneWord,
}
