//! Where a statement stands in its function.

ghost use Rattle.std.specs.Prelude.{◌≡◌, true};

use c_tree::Ty;
use name_index::File;

/// The file, the function's result, and whether a loop is around.
#[derive(Drop)]
pub struct Stand<'a> {
    pub file: &'a File<'a>,
    pub ret: &'a Ty,
    pub in_loop: bool,
}

impl<'a> Stand<'a> {
    /// In the body of a loop.
    pub fn in_body(&self) -> Stand<'a>
        ensures file { result.file.now ≡ self.now.file.now }
        ensures ret { result.ret.now ≡ self.now.ret.now }
        ensures in_loop { result.in_loop ≡ true }
    {
        Stand {
            file: self.file,
            ret: self.ret,
            in_loop: true,
        }
    }
}
