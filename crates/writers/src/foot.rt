// What the writers at the foot share. Their `take` and `end` differ in the lines that make each the foot that it is.
ghost use Rattle.std.specs.Prelude.{◌≡◌};
ghost use Rattle.writers.specs.Feet.{new_handle};

use lir::bounds::Handle;
use lir::instruction::Instruction;

// The handle that an instruction which is accepted is answered by, if it gives a value: the next one.
pub(crate) fn new_handle(i: &Instruction<Handle>, handles: u16) -> Option<Handle>
    ensures { result ≡ new_handle handles i.now }
{
    match i {
        Instruction::Value(_) => Some(Handle::nth(u32::from(handles))),
        Instruction::Store(_) => None,
        Instruction::Guard(_) => None,
    }
}
