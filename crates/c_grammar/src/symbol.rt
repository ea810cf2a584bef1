//! The symbols that are to come in a text.

ghost use Rattle.std.specs.Prelude.{◌≡◌};
ghost use Rattle.c_grammar.specs.Marks as spec;

use crate::action::Action;
use crate::kind::Kind;
use crate::rule::Rule;

/// What a token does that is taken: it is kept or let go, what follows it stands one deeper or as
/// deep, and it counts as an operator or not.
#[derive(Clone, Copy)]
pub enum Mark {
    /// It is let go.
    Skip,
    /// It is kept as a value.
    Keep,
    /// What follows it stands one deeper.
    Open,
    /// It is kept, and what follows it stands one deeper.
    OpenKeep,
    /// It is an operator, of which an expression has at most 1000.
    Count,
    /// It is kept, and is an operator.
    CountKeep,
}

impl Mark {
    /// Whether the token is kept as a value.
    pub fn keeps(self) -> bool
        ensures { result ≡ spec.keeps self }
    {
        match self {
            Mark::Keep | Mark::OpenKeep | Mark::CountKeep => true,
            Mark::Skip | Mark::Open | Mark::Count => false,
        }
    }

    /// Whether what follows the token stands one deeper.
    pub fn opens(self) -> bool
        ensures { result ≡ spec.opens self }
    {
        match self {
            Mark::Open | Mark::OpenKeep => true,
            Mark::Skip | Mark::Keep | Mark::Count | Mark::CountKeep => false,
        }
    }

    /// Whether the token counts as an operator.
    pub fn counts(self) -> bool
        ensures { result ≡ spec.counts self }
    {
        match self {
            Mark::Count | Mark::CountKeep => true,
            Mark::Skip | Mark::Keep | Mark::Open | Mark::OpenKeep => false,
        }
    }
}

/// A symbol to come.
#[derive(Clone, Copy)]
pub enum Symbol {
    /// A token of this kind.
    Take(Kind, Mark),
    /// No token; the next one is not of this kind.
    Unless(Kind),
    /// No token; the values change.
    Act(Action),
    /// One of the rule's alternatives.
    Expand(Rule),
}
