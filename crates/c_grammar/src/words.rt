//! The words with a meaning, and the signs. Written by tools/reader_tables.py.

ghost use Rattle.std.specs.Prelude.{◌≡◌, map};
ghost use Rattle.c_grammar.specs.Words as spec;

use crate::kind::Kind;

/// The words that are no names, with their kinds.
#[rattlefmt::skip]
#[tactic(auto, unfolding(crate::specs::Words::words))]
pub fn words() -> &'static [(&'static [u8], Kind)]
    ensures { map (λ w. record { text = w.0.now; kind = w.1 }) result.now ≡ spec.words }
{
    &[
        (b"int", Kind::Int),
        (b"void", Kind::Void),
        (b"struct", Kind::Struct),
        (b"if", Kind::If),
        (b"else", Kind::Else),
        (b"while", Kind::While),
        (b"for", Kind::For),
        (b"break", Kind::Break),
        (b"continue", Kind::Continue),
        (b"return", Kind::Return),
        (b"static", Kind::Static),
        (b"sizeof", Kind::Sizeof),
        (b"NULL", Kind::Null),
        (b"EOF", Kind::Eof),
        (b"printf", Kind::Printf),
        (b"malloc", Kind::Malloc),
        (b"free", Kind::Free),
        (b"getchar", Kind::Getchar),
        (b"pthread_t", Kind::Thread),
        (b"pthread_mutex_t", Kind::Mutex),
        (b"pthread_create", Kind::Create),
        (b"pthread_join", Kind::Join),
        (b"pthread_mutex_lock", Kind::Lock),
        (b"pthread_mutex_unlock", Kind::Unlock),
        (b"PTHREAD_MUTEX_INITIALIZER", Kind::Initializer),
        (b"char", Kind::LeftOut),
        (b"unsigned", Kind::LeftOut),
        (b"signed", Kind::LeftOut),
        (b"short", Kind::LeftOut),
        (b"long", Kind::LeftOut),
        (b"float", Kind::LeftOut),
        (b"double", Kind::LeftOut),
        (b"union", Kind::LeftOut),
        (b"enum", Kind::LeftOut),
        (b"typedef", Kind::LeftOut),
        (b"switch", Kind::LeftOut),
        (b"case", Kind::LeftOut),
        (b"default", Kind::LeftOut),
        (b"goto", Kind::LeftOut),
        (b"do", Kind::LeftOut),
        (b"const", Kind::LeftOut),
        (b"volatile", Kind::LeftOut),
        (b"extern", Kind::LeftOut),
        (b"register", Kind::LeftOut),
        (b"auto", Kind::LeftOut),
        (b"inline", Kind::LeftOut),
    ]
}

/// The names that have a meaning in mappings, with their kinds.
#[rattlefmt::skip]
#[tactic(auto, unfolding(crate::specs::Words::map_words))]
pub fn map_words() -> &'static [(&'static [u8], Kind)]
    ensures { map (λ w. record { text = w.0.now; kind = w.1 }) result.now ≡ spec.map_words }
{
    &[
        (b"function", Kind::FunctionWord),
        (b"global", Kind::GlobalWord),
        (b"mutex", Kind::MutexWord),
        (b"field", Kind::FieldWord),
        (b"init", Kind::InitWord),
        (b"point", Kind::PointWord),
        (b"check", Kind::CheckWord),
        (b"entry", Kind::EntryWord),
        (b"loop", Kind::LoopWord),
        (b"call", Kind::CallWord),
        (b"block", Kind::BlockWord),
        (b"none", Kind::NoneWord),
    ]
}

/// The kinds of the signs, in the order of their numbers.
#[rattlefmt::skip]
#[tactic(auto, unfolding(crate::specs::Words::signs))]
pub fn signs() -> &'static [Kind]
    ensures { result.now ≡ spec.signs }
{
    &[
        Kind::Plus, // +
        Kind::Minus, // -
        Kind::Star, // *
        Kind::Slash, // /
        Kind::Percent, // %
        Kind::ShiftLeft, // <<
        Kind::ShiftRight, // >>
        Kind::Less, // <
        Kind::LessEqual, // <=
        Kind::Greater, // >
        Kind::GreaterEqual, // >=
        Kind::EqualEqual, // ==
        Kind::NotEqual, // !=
        Kind::And, // &
        Kind::Xor, // ^
        Kind::Or, // |
        Kind::AndAnd, // &&
        Kind::OrOr, // ||
        Kind::Bang, // !
        Kind::Tilde, // ~
        Kind::Equal, // =
        Kind::PlusEqual, // +=
        Kind::MinusEqual, // -=
        Kind::StarEqual, // *=
        Kind::SlashEqual, // /=
        Kind::PercentEqual, // %=
        Kind::AndEqual, // &=
        Kind::XorEqual, // ^=
        Kind::OrEqual, // |=
        Kind::ShiftLeftEqual, // <<=
        Kind::ShiftRightEqual, // >>=
        Kind::PlusPlus, // ++
        Kind::MinusMinus, // --
        Kind::Arrow, // ->
        Kind::LeftParen, // (
        Kind::RightParen, // )
        Kind::LeftBracket, // [
        Kind::RightBracket, // ]
        Kind::LeftBrace, // {
        Kind::RightBrace, // }
        Kind::Comma, // ,
        Kind::Semicolon, // ;
        Kind::Dot, // .
        Kind::Question, // ?
        Kind::Colon, // :
    ]
}
