//! Entries of a mapping by numbers, and the expressions in them.
//!
//! `lifted_entry` gives an entry by numbers, or the least cause why it is unsound. `numbered` gives
//! the expression and the type that the definitions give, in one walk.
#![tactic(auto)]

mod declared;
mod entry;
mod expr;
mod fill;
mod fits;
mod member;
mod names;
mod numbers;
mod operator;
mod part;
mod points;
mod reads;
mod refused;
mod site;
mod typed;
mod types;

pub use entry::lifted_entry;
pub use expr::numbered;
pub use points::PointTable;
pub use reads::Reads;
pub use refused::EntryRefused;
pub use typed::Typed;
