//! The reader: from the bytes of a source to its program, or to the first fault. It judges no
//! types.
//!
//! The layer above rests on `read_program`: what it answers is the one program that the source is,
//! or its first fault. An LL(1) machine reads by tables, which a script computes and the check
//! proves. `parse` is that machine for any symbols that a text may begin with.
#![tactic(auto)]

mod choose;
mod found;
mod front;
mod laws;
mod machine;
mod run;
mod source;
mod table;
mod turn;

pub use c_tokens::{ReadRefused, tokens};
pub use found::Found;
pub use front::expr_at;
pub use laws::{
    each_source_has_one_answer, names_can_be_spelt, nearest_if_changes_no_live_list,
    readings_have_their_form,
};
pub use run::parse;
pub use source::read_program;
