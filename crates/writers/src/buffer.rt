// The buffer keeps the instructions of a trace.
ghost use Rattle.std.specs.Prelude.{◌≡◌, ◌≤◌, vec_len, vec_capacity};
ghost use Rattle.lir.specs.Instructions.{values_in};

use lir::bounds::Handle;
use lir::instruction::Instruction;
use std::marker::PhantomData;

pub mod calls;
pub mod runs;

// Room for all its places is taken at the making, and the vector may have taken more than `places`. The end takes no
// place: `over` stands for it. `handles` is what would else be counted anew, through all that is kept, at each call.
#[derive(Drop)]
pub struct Buffer<K> {
    kind: PhantomData<K>,
    kept: Vec<Instruction<Handle>>,
    places: u16,
    handles: u16,
    over: bool,
    ghost room: { places ≤ vec_capacity kept },
    ghost few: { vec_len kept ≤ places },
    ghost within: { places ≤ 1024 },
    ghost counted: { handles ≡ values_in kept.items },
    ghost fewer: { handles ≤ vec_len kept },
}
