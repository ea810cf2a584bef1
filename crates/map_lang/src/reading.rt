//! Mappings: from bytes to a mapping, or to the first fault.

ghost use Rattle.std.specs.Prelude.{◌≡◌, ◌≤◌, IfOk, MatchResult, length, map};
ghost use Rattle.c_tree.specs.MapForm.{HasMapForm};
ghost use Rattle.c_tokens.specs.Text.{scanned, text_of};
ghost use Rattle.c_grammar.specs.Mapping.{IsMappingIn, IsMappingOf, IsFirstMappingOf};
ghost use Rattle.map_lang.specs.Formats.{HasSingleParts, IsMapStart};
ghost use Rattle.map_lang.specs.Refusal.{IsRefusal, IsFirstRefusal, IsRefusalIn};

use crate::refused::MapRefused;
use c_grammar::{Action, MapToken, Rule, Symbol, pop_mapping};
use c_reader::{Found, parse};
use c_tokens::{TextScan, scan_text};
use c_tree::{At, Mapping, ReadCause, Row, Token};
use std::alloc::{AllocError, Global};

/// The tokens, as those of a mapping.
fn map_tokens(alloc: Global, tokens: Row<Token>) -> Result<Vec<MapToken>, AllocError>
    ensures { IfOk result (λ ms. ms.items ≡ map (λ t. record { token = t }) tokens) }
{
    tokens
        .into_vec()
        .into_iter()
        .map(|token| MapToken { token })
        .collect(alloc)
}

/// Reads what was scanned of a text of `len` bytes, from the symbols that its mapping begins with.
fn read_scan(
    alloc: Global,
    begin: &[Symbol],
    tokens: &[MapToken],
    fault: Option<At<ReadCause>>,
    len: u32,
) -> Result<Mapping, MapRefused>
    requires { IsMapStart begin.now }
    ensures { let scan = scanned (map (λ m. m.token) tokens.now) fault
        in MatchResult result (IsMappingIn begin.now scan) (IsRefusalIn begin.now scan len) }
{
    match parse(alloc, begin, tokens) {
        Ok(Found::Done(mut values)) => match fault {
            None => Ok(pop_mapping(alloc, &mut values)),
            Some(why) => Err(MapRefused::At(why.at, why.it)),
        },
        Ok(Found::Fault(i, cause)) => Err(MapRefused::At(tokens[i].token.at, cause)),
        Ok(Found::CutShort) => match fault {
            None => Err(MapRefused::At(len, ReadCause::Unexpected)),
            Some(why) => Err(MapRefused::At(why.at, why.it)),
        },
        Err(e) => Err(MapRefused::Memory(e)),
    }
}

/// Reads a text of at most 4194304 bytes, from the symbols that its mapping begins with.
fn read_text(alloc: Global, begin: &[Symbol], bytes: &[u8]) -> Result<Mapping, MapRefused>
    requires short { length bytes.now ≤ 4194304 }
    requires start { IsMapStart begin.now }
    ensures { MatchResult result
        (IsMappingIn begin.now (text_of bytes.now))
        (IsRefusalIn begin.now (text_of bytes.now) (length bytes.now)) }
{
    match scan_text(alloc, bytes) {
        Ok(TextScan { tokens, fault }) => match map_tokens(alloc, tokens) {
            Ok(tokens) => read_scan(alloc, begin, tokens.as_slice(), fault, bytes.len() as u32),
            Err(e) => Err(MapRefused::Memory(e)),
        },
        Err(e) => Err(MapRefused::Memory(e)),
    }
}

/// Reads a mapping of at most 4194304 bytes: the mapping that the text is, or the offset and the
/// cause of its first fault. It has the comments and blanks of a source, and no directives. The
/// matches of the mapping are of the four kinds, none of its points is a plain place, and a point
/// has one to four parts.
pub fn read_map(alloc: Global, bytes: &[u8]) -> Result<Mapping, MapRefused>
    requires { length bytes.now ≤ 4194304 }
    ensures answer { MatchResult result (IsMappingOf bytes.now) (IsRefusal bytes.now) }
    ensures form { IfOk result HasMapForm }
{
    let begin = [
        Symbol::Act(Action::StartMapping),
        Symbol::Expand(Rule::Entries),
    ];
    read_text(alloc, &begin, bytes)
}

/// Reads a mapping of the first format, in which a point has one part: a `+` behind a part is
/// unexpected where it stands.
pub fn read_first_map(alloc: Global, bytes: &[u8]) -> Result<Mapping, MapRefused>
    requires { length bytes.now ≤ 4194304 }
    ensures answer { MatchResult result (IsFirstMappingOf bytes.now) (IsFirstRefusal bytes.now) }
    ensures form { IfOk result HasMapForm }
    ensures parts { IfOk result HasSingleParts }
{
    let begin = [
        Symbol::Act(Action::StartMapping),
        Symbol::Expand(Rule::FirstEntries),
    ];
    read_text(alloc, &begin, bytes)
}
