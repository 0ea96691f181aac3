// The evaluator as a writer.
ghost use Rattle.std.specs.Prelude.{◌≡◌, IfOk, refl};
ghost use Rattle.lir.specs.declared.fault.Part.TheVariants.{Evaluator as evaluator};
ghost use Rattle.writers.specs.Evaluators.{evaluates, viewed, fresh};
ghost use Rattle.writers.specs.Evaluating.{eval_lawful};

use super::Evaluator;
use crate::foot::new_handle;
use crate::machine::Machine;
use codes::cells::Cells;
use codes::kind::Kind;
use lir::bounds::Handle;
use lir::defined::gives;
use lir::fault::{Fault, Part};
use lir::instruction::Instruction;
use lir::names::HANDLES;
use protocol::writer::Writer;
use std::alloc::{AllocError, Global};

impl<K: Kind> Evaluator<K> {
    // An evaluator at the start given, with nothing run yet.
    pub fn new(heap: Global, start: &Cells) -> Result<Evaluator<K>, AllocError>
        ensures made { IfOk result (λ e. viewed e ≡ fresh start.now) }
        ensures sound { IfOk result (λ e. (evaluates K.Kind.arithmetic).sound e) }
    {
        let machine = Machine::new(heap, start)?;
        Ok(Evaluator {
            machine,
            handles: 0,
            taken: 0,
            over: false,
        })
    }

    // The run, as far as it has come.
    pub fn machine(&self) -> &Machine<K>
        ensures { result.now ≡ self.now.machine }
    {
        &self.machine
    }
}

impl<K: Kind> Writer for Evaluator<K> {
    type Kind = K;

    const PART: Part = Part::Evaluator;

    ghost PART = { evaluator };

    ghost writes = { evaluates K.Kind.arithmetic };

    ghost named = { refl };

    ghost lawful = { eval_lawful K.Kind.arithmetic };

    fn has_ended(&self) -> bool {
        self.over
    }

    fn handles(&self) -> u16 {
        self.handles
    }

    fn taken(&self) -> u64 {
        self.taken
    }

    fn space(&self) -> u16 {
        HANDLES - self.handles
    }

    // Here and in `end` the feet differ in one line each, and a trait for them would name all these methods again.
    fn take(&mut self, i: Instruction<Handle>) -> Result<Option<Handle>, Fault> {
        self.admit_at_foot(&i)?;
        let h = new_handle(&i, self.handles);
        self.machine.step(i);
        self.handles += gives(&i);
        self.taken = self.taken.wrapping_add(1);
        Ok(h)
    }

    fn end(&mut self) -> Result<(), Fault> {
        self.admit_end()?;
        self.machine.end();
        self.over = true;
        Ok(())
    }
}
