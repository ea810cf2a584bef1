//! What an action does beside the values.

ghost use Rattle.std.specs.Prelude.{◌≡◌, cond};
ghost use Rattle.c_grammar.specs.Effects as spec;

use crate::action::Action;

/// How many constructs the action closes, 0 or 1.
pub fn closes(action: Action) -> usize
    ensures { result ≡ spec.closes action }
{
    match action {
        Action::Leave => 1,
        _ => 0,
    }
}

/// How many operators the expression has after the action.
pub fn operators_after(action: Action, operators: usize) -> usize
    ensures { result ≡ cond (spec.is_outer action) 0 operators }
{
    match action {
        Action::Outer => 0,
        _ => operators,
    }
}
