// The contents of all 64 cells. A run starts from some, and changes them by its stores.
ghost use Rattle.std.specs.Prelude.{◌≡◌, length};

use crate::bounds::Code;

pub mod access;

// An array, since nothing may be allocated where a run begins.
#[derive(Clone, Copy)]
pub struct Cells {
    pub codes: [Code; 64],
    ghost full: { length codes ≡ 64 },
}
