//! The grammar of sources and mappings (ISO C11, 6.5 to 6.10, in part): what a token is to it, its
//! rules, and the tree that a text of it is. It reads nothing; that is the reader's part.
//!
//! Which texts are programs, and what the first fault of the others is, stands in `specs/Source`,
//! the same of mappings in `specs/Mapping`. The layer above rests on `act`: by an action, the
//! values that were read become what its definition makes of them.
#![tactic(auto)]

mod action;
mod actions;
mod kind;
mod laws;
mod readable;
mod rule;
mod symbol;
mod token;
mod value;
mod words;

pub use action::Action;
pub use actions::{
    act, closes, operators_after, pop_mapping, pop_operand, pop_program, push_value, word_of,
};
pub use kind::Kind;
pub use laws::{a_mapping_has_one_answer, a_source_has_one_answer, words_are_those_of_the_tokens};
pub use readable::{MapToken, Readable};
pub use rule::Rule;
pub use symbol::{Mark, Symbol};
pub use value::{Operand, Value};
