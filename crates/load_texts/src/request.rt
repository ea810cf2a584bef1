//! When the update is asked for.

ghost use Rattle.std.specs.Prelude.{◌≡◌, ◌*◌};

/// After how many steps the update between the programs of this size is asked for.
pub fn request_at(n: u32) -> u64
    ensures { result ≡ 34 * n }
{
    34 * u64::from(n)
}
