//! What every lifting of a well-typed program keeps.
//!
//! The crate has laws alone. The layers above rest on one of them, `a_lifted_program_is_formed`:
//! where no function passes a limit, the lifting of a well-typed program that was read is formed.
#![tactic(auto)]

mod laws;

pub use laws::{a_lifted_program_is_formed, lifted_law, lifted_statements_law};
