//! The words of the lines.

ghost use Rattle.std.specs.Prelude.{◌≡◌, ◌++◌, MatchOption};
ghost use Rattle.history.specs.Taken as taken;

/// The word of a kind of event.
#[derive(Clone, Copy)]
pub enum Word {
    Step,
    Request,
    Park,
    Update,
    Refuse,
    Resume,
}

/// The word at the front, and what follows it.
pub fn take_word(bytes: &[u8]) -> Option<(Word, &[u8])>
    ensures { MatchOption result
        (taken.LacksWord bytes.now)
        (λ r. bytes.now ≡ taken.letters r.0 ++ r.1.now) }
{
    if let Some(rest) = bytes.strip_prefix(b"step") {
        Some((Word::Step, rest))
    } else if let Some(rest) = bytes.strip_prefix(b"request") {
        Some((Word::Request, rest))
    } else if let Some(rest) = bytes.strip_prefix(b"park") {
        Some((Word::Park, rest))
    } else if let Some(rest) = bytes.strip_prefix(b"update") {
        Some((Word::Update, rest))
    } else if let Some(rest) = bytes.strip_prefix(b"refuse") {
        Some((Word::Refuse, rest))
    } else if let Some(rest) = bytes.strip_prefix(b"resume") {
        Some((Word::Resume, rest))
    } else {
        None
    }
}
