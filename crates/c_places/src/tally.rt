//! How many places of each kind have been seen.

ghost use Rattle.std.specs.Prelude.{◌≡◌, ◌<◌, ◌+◌};

use c_tree::PlaceKind;

/// How many places of each kind have been seen.
#[derive(Drop)]
pub struct Tally {
    entries: u32,
    loops: u32,
    blocks: u32,
    calls: u32,
    plain: u32,
}

impl Tally {
    ghost use Rattle.c_places.specs.Tally as spec;

    /// No place has been seen.
    pub fn new() -> Tally
        ensures { result ≡ spec.nothing }
    {
        Tally {
            entries: 0,
            loops: 0,
            blocks: 0,
            calls: 0,
            plain: 0,
        }
    }

    /// Counts one place more, and gives its number among those of its kind, from 1.
    pub fn number(&mut self, kind: PlaceKind) -> u32
        requires { spec.seen self.old kind < 10000 }
        ensures number { result ≡ spec.seen self.old kind + 1 }
        ensures counted { self.new ≡ spec.counted self.old kind }
    {
        match kind {
            PlaceKind::Entry => {
                self.entries += 1;
                self.entries
            }
            PlaceKind::LoopEnd => {
                self.loops += 1;
                self.loops
            }
            PlaceKind::Block => {
                self.blocks += 1;
                self.blocks
            }
            PlaceKind::Call => {
                self.calls += 1;
                self.calls
            }
            PlaceKind::Plain => {
                self.plain += 1;
                self.plain
            }
        }
    }
}
