// Reading and changing cells.
ghost use Rattle.std.specs.Prelude.{◌≡◌};
ghost use Rattle.codes.specs.Contents.{blank, code_in, written};

use super::Cells;
use crate::bounds::{Cell, Code};

impl Cells {
    // All cells at 0.
    pub fn new() -> Cells
        ensures { result ≡ blank }
    {
        let zero = Code::new(0);
        Cells { codes: [zero; 64] }
    }

    pub fn get(&self, from: Cell) -> Code
        ensures { result ≡ code_in self.now from }
    {
        self.codes[from.number as usize]
    }

    pub fn set(&mut self, to: Cell, code: Code)
        ensures { self.new ≡ written self.old «to» code }
    {
        self.codes[to.number as usize] = code;
    }
}
