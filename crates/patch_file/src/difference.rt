//! Where two texts differ.

ghost use Rattle.std.specs.Prelude.{◌≡◌, ◌≤◌, MatchOption, length, Some, None};
ghost use Rattle.patch_file.specs.Refused.{IsFirstDifference};

/// The first offset at which two texts differ, or at which one has ended and the other has not.
pub fn first_difference(a: &[u8], b: &[u8]) -> Option<usize>
    ensures same { result ≡ None → a.now ≡ b.now }
    ensures differ { (at : _) → result ≡ Some at → IsFirstDifference at a.now b.now
        × (at ≤ length a.now) }
{
    for (i, byte) in a.iter().enumerate() {
        match b.get(i) {
            Some(other) if *other == *byte => {}
            _ => return Some(i),
        }
    }
    if a.len() < b.len() {
        return Some(a.len());
    }
    None
}
