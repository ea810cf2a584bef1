//! From the bytes of a C source to tokens (ISO C11, 6.4) and directives (6.10), or the first fault.
//! It knows left-out words and how directives are written, and nothing else of the grammar. The
//! layer above rests on `scan`: the lexemes before the first fault, and that fault.
#![tactic(auto)]

mod class;
mod directive;
mod front;
mod laws;
mod lexeme;
mod literal;
mod operator;
mod piece;
mod quoted;
mod refused;
mod source;
mod text_scan;
mod word;

pub use laws::{
    each_source_scans_once, each_text_reads_once, lexemes_stand_before_the_fault,
    longest_operator_is_taken,
};
pub use lexeme::{Lexeme, LexemeKind, Scan};
pub use refused::ReadRefused;
pub use source::scan;
pub use text_scan::{TextScan, scan_text, tokens};
pub use word::{is_left_out, is_name};
