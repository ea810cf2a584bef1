//! Which alternative the next token picks.

ghost use Rattle.std.specs.Prelude.{◌≡◌};
ghost use Rattle.std.specs.Option.{option_copied};
ghost use Rattle.c_reader.specs.Choices.{choices, first_kinds};
ghost use Rattle.c_reader.specs.Follow.{vanishes_end};
ghost use Rattle.c_reader.specs.Picks.{is_kind, begins, leads, is_empty, picks, predict};

use crate::table::{alternatives_of, first_kinds_of};
use c_grammar::{Kind, Rule, Symbol};

/// Whether the next token is of this kind; at the end there is none.
pub fn is_next(kind: Kind, ahead: Option<Kind>) -> bool
    ensures { result ≡ is_kind kind ahead }
{
    match ahead {
        Some(next) => kind as u8 == next as u8,
        None => false,
    }
}

/// Whether a text of the rule may begin with the next token.
fn can_begin(rule: Rule, ahead: Option<Kind>) -> bool
    ensures { result ≡ begins first_kinds rule ahead }
{
    first_kinds_of(rule)
        .iter()
        .any(|kind| is_next(*kind, ahead))
}

/// Whether a text of the symbols may begin with the next token.
fn can_lead(symbols: &[Symbol], ahead: Option<Kind>) -> bool
    ensures { result ≡ leads first_kinds symbols.now ahead }
{
    for symbol in symbols {
        match *symbol {
            Symbol::Take(kind, _) => return is_next(kind, ahead),
            Symbol::Unless(_) => return false,
            Symbol::Act(_) => {}
            Symbol::Expand(rule) => return can_begin(rule, ahead),
        }
    }
    false
}

/// Whether the symbols take no token.
fn takes_none(symbols: &[Symbol]) -> bool
    ensures { result ≡ is_empty symbols.now }
{
    symbols.iter().all(|symbol| match *symbol {
        Symbol::Take(_, _) | Symbol::Expand(_) => false,
        Symbol::Unless(_) | Symbol::Act(_) => true,
    })
}

/// Whether a text of the rule may take nothing.
pub fn may_vanish(rule: Rule) -> bool
    ensures { result ≡ vanishes_end choices rule }
{
    for symbols in alternatives_of(rule) {
        if takes_none(symbols) {
            return true;
        }
    }
    false
}

/// Whether the next token picks the alternative: it begins with the token, or takes none where no
/// text of the rule begins with it.
fn is_picked(rule: Rule, ahead: Option<Kind>, symbols: &[Symbol]) -> bool
    ensures { result ≡ picks first_kinds rule ahead symbols.now }
{
    can_lead(symbols, ahead) || (takes_none(symbols) && !can_begin(rule, ahead))
}

/// The first alternative of the rule that the next token picks.
pub fn pick(rule: Rule, ahead: Option<Kind>) -> Option<&'static [Symbol]>
    ensures { option_copied result ≡ predict choices first_kinds rule ahead }
{
    for symbols in alternatives_of(rule) {
        if is_picked(rule, ahead, symbols) {
            return Some(symbols);
        }
    }
    None
}
