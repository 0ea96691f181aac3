// Running what a buffer keeps.
ghost use Rattle.std.specs.Prelude.{◌≡◌};
ghost use Rattle.writers.specs.Buffers.{viewed, standing_from};
ghost use Rattle.writers.specs.Machines.{stands};

use super::Buffer;
use crate::machine::Machine;
use codes::cells::Cells;
use codes::kind::Kind;
use lir::bounds::Handle;
use lir::instruction::Instruction;

impl<K: Kind> Buffer<K> {
    // The instructions kept, in the order in which they came.
    pub fn instructions(&self) -> &[Instruction<Handle>]
        ensures { result.now ≡ self.now.kept.items }
    {
        self.kept.as_slice()
    }

    // Runs what is kept, from the start given, on a machine that the caller lends; whatever it ran before is gone.
    pub fn run(&self, start: &Cells, machine: &mut Machine<K>)
        ensures { stands machine.new ≡ standing_from K.Kind.arithmetic (viewed self.now) start.now }
    {
        machine.restart(start);
        for i in self.kept.iter() {
            machine.step(*i);
        }
        if self.over {
            machine.end();
        }
    }
}
