//! From the bytes of a source to its program, or to why it is refused.

ghost use Rattle.std.specs.Prelude.{◌≡◌, IfOk, MatchResult};
ghost use Rattle.c_grammar.specs.Source.{IsProgramOf};
ghost use Rattle.c_places.specs.Limit.{KeepsLimit};
ghost use Rattle.c_tree.specs.Formed.{IsFormed};
ghost use Rattle.c_tree.specs.Typing.{IsWellTyped};
ghost use Rattle.c_source.specs.Source.{IsAccepted};
ghost use Rattle.c_source.specs.Refusal as view;
ghost use Rattle.c_source.specs.Refusal.{IsRefusal};

use crate::refused::SourceRefused;
use c_check::{CheckRefused, check};
use c_lift::{LiftRefused, lift};
use c_reader::read_program;
use c_tokens::ReadRefused;
use c_tree::{Checked, Lifted, SourceCause};
use std::alloc::Global;

/// A refusal of the reader, as one of the source.
fn unread(why: ReadRefused) -> SourceRefused
    ensures { result ≡ view.unread why }
{
    match why {
        ReadRefused::At(at, cause) => SourceRefused::At(at, SourceCause::Read(cause)),
        ReadRefused::Memory(e) => SourceRefused::Memory(e),
    }
}

/// A refusal of the checker, as one of the source.
fn ill_typed(why: CheckRefused) -> SourceRefused
    ensures { result ≡ view.ill_typed why }
{
    match why {
        CheckRefused::At(at, cause) => SourceRefused::At(at, SourceCause::Check(cause)),
        CheckRefused::Memory(e) => SourceRefused::Memory(e),
    }
}

/// The well-typed tree that a source is the text of.
fn checked(alloc: Global, source: &[u8]) -> Result<Checked, SourceRefused>
    ensures answer { MatchResult result (IsProgramOf source.now) (IsRefusal source.now) }
    ensures well_typed { IfOk result IsWellTyped }
{
    let tree = match read_program(alloc, source) {
        Ok(tree) => tree,
        Err(why) => return Err(unread(why)),
    };
    match check(alloc, tree) {
        Ok(checked) => Ok(checked),
        Err(why) => Err(ill_typed(why)),
    }
}

/// A refusal of the lifting, as one of the source.
fn too_large(why: LiftRefused) -> SourceRefused
    ensures { result ≡ view.too_large why }
{
    match why {
        LiftRefused::Limit(at, kind) => SourceRefused::At(at, SourceCause::Lift(kind)),
        LiftRefused::Memory(e) => SourceRefused::Memory(e),
    }
}

/// The program that a source is accepted as, or the offset and the cause of its refusal: the first
/// fault of its text, the first fault of its tree's typing, or the first limit that a function
/// passes.
pub fn accepted(alloc: Global, source: &[u8]) -> Result<Lifted, SourceRefused>
    ensures verdict { MatchResult result (IsAccepted source.now) (IsRefusal source.now) }
    ensures formed { IfOk result IsFormed }
    ensures small { IfOk result KeepsLimit }
{
    let checked = checked(alloc, source)?;
    match lift(alloc, &checked) {
        Ok(program) => Ok(program),
        Err(why) => Err(too_large(why)),
    }
}
