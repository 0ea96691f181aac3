// The evaluator runs each instruction as it arrives.
ghost use Rattle.std.specs.Prelude.{◌≤◌, vec_len};

use crate::machine::Machine;

pub mod calls;

// After its run has left or ended, handles are still counted, and no value is kept for them.
#[derive(Drop)]
pub struct Evaluator<K> {
    machine: Machine<K>,
    handles: u16,
    taken: u64,
    over: bool,
    ghost few: { vec_len machine.values ≤ handles },
    ghost within: { handles ≤ 1024 },
}
