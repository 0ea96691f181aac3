// What it takes to be a writer: something that takes the instructions of a trace one after another.
ghost use Rattle.std.specs.Prelude.{◌≡◌};
ghost use Rattle.lir.specs.declared.instruction.Instruction.TheVariants.{Value as value, Store as store, Guard as guard};
ghost use Rattle.raw_calls.specs.Calls.{meant, value_call, store_call, guard_call};
ghost use Rattle.lir.specs.declared.fault.Part.{Part};
ghost use Rattle.protocol.specs.Meanings.{instruct, end, answered, handled, settled, Fitting, refusal, foot_refusal};
ghost use Rattle.protocol.specs.Writers.{Writes, Lawful, own_fault, judgement, Judged, malformed, ByNumbers};

use codes::kind::Kind;
use lir::bounds::Handle;
use lir::defined::defined;
use lir::fault::{Fault, Part, Refusal};
use lir::instruction::{Guard, Instruction, Store, Value};
use raw_calls::fields::Fields;
use raw_calls::read::{read_guard, read_store, read_value};

// Whoever calls a writer may rely on `writes`: the exact steps of its calls, what it means, and the laws that tie
// the two.
pub trait Writer {
    type Kind: Kind;

    // By which faults name the writer.
    const PART: Part;

    ghost PART: { Part };

    ghost writes: { Writes Self };

    // Whether the end was taken.
    fn has_ended(&self) -> bool
        ensures { result ≡ (writes.meaning self.now).over };

    // How many handles were answered: each number below this is one.
    fn handles(&self) -> u16
        ensures { result ≡ (writes.meaning self.now).handles };

    // How many instructions were accepted, modulo 2^64.
    fn taken(&self) -> u64
        ensures { result ≡ (writes.meaning self.now).taken };

    // While there is space, no instruction is refused for want of it.
    fn space(&self) -> u16
        ensures { result ≡ (writes.meaning self.now).space };

    // Takes an instruction, and answers the handle of the value that it gives, if it gives one.
    fn take(&mut self, i: Instruction<Handle>) -> Result<Option<Handle>, Fault>
        ensures exact { writes.steps self.old (instruct i) (answered result) self.new }
        ensures fits { Fitting (instruct i) (answered result) };

    fn end(&mut self) -> Result<(), Fault>
        ensures { writes.steps self.old end (settled result) self.new };

    // One call for each sort: they differ in what they take, and the first in what it answers.
    fn value(&mut self, i: Value<Handle>) -> Result<Handle, Fault>
        ensures { writes.steps self.old (instruct (value i)) (handled result) self.new }
    {
        match self.take(Instruction::Value(i))? {
            Some(h) => Ok(h),
            None => unreachable!(),
        }
    }

    fn store(&mut self, i: Store<Handle>) -> Result<(), Fault>
        ensures { writes.steps self.old (instruct (store i)) (settled result) self.new }
    {
        match self.take(Instruction::Store(i))? {
            Some(_) => unreachable!(),
            None => Ok(()),
        }
    }

    fn guard(&mut self, g: Guard<Handle>) -> Result<(), Fault>
        ensures { writes.steps self.old (instruct (guard g)) (settled result) self.new }
    {
        match self.take(Instruction::Guard(g))? {
            Some(_) => unreachable!(),
            None => Ok(()),
        }
    }

    // A refusal as this writer's own fault.
    fn fault(&self, refusal: Refusal) -> Fault
        ensures { result ≡ own_fault writes self.now refusal }
    {
        Fault {
            refusal,
            part: Self::PART,
            place: self.taken(),
        }
    }

    // The checks that every writer makes first. Here and below `cases` is the verdict by what each result tells of it, as
    // proofs of callers take it; one clause for both would be longer than the two.
    fn admit(&self, i: &Instruction<Handle>) -> Result<(), Fault>
        ensures exact { result ≡ judgement writes self.now (refusal (writes.meaning self.now) (instruct i.now)) }
        ensures cases { Judged writes self.now (refusal (writes.meaning self.now) (instruct i.now)) result }
    {
        if self.has_ended() {
            return Err(self.fault(Refusal::Ended));
        }
        if !defined(i, self.handles()) {
            return Err(self.fault(Refusal::Undefined));
        }
        Ok(())
    }

    // The checks of a writer at the foot, which has no other to ask for space.
    fn admit_at_foot(&self, i: &Instruction<Handle>) -> Result<(), Fault>
        ensures exact { result ≡ judgement writes self.now (foot_refusal (writes.meaning self.now) (instruct i.now)) }
        ensures cases { Judged writes self.now (foot_refusal (writes.meaning self.now) (instruct i.now)) result }
    {
        self.admit(i)?;
        if self.space() == 0 {
            return Err(self.fault(Refusal::NoSpace));
        }
        Ok(())
    }

    fn admit_end(&self) -> Result<(), Fault>
        ensures exact { result ≡ judgement writes self.now (refusal (writes.meaning self.now) end) }
        ensures cases { Judged writes self.now (refusal (writes.meaning self.now) end) result }
    {
        if !self.has_ended() {
            return Ok(());
        }
        Err(self.fault(Refusal::Ended))
    }

    // The fault of a call whose numbers mean no instruction of its sort.
    fn malformed(&self) -> Fault
        ensures { result ≡ malformed writes self.now }
    {
        if !self.has_ended() {
            self.fault(Refusal::Malformed)
        } else {
            self.fault(Refusal::Ended)
        }
    }

    // Callers know a call by numbers for each sort, and each answers what its own sort does, so there are three.
    fn raw_value(&mut self, f: Fields<Handle>) -> Result<Handle, Fault>
        ensures { ByNumbers writes self.old (meant value (value_call f)) (handled result) self.new }
    {
        match read_value(f) {
            Some(i) => self.value(i),
            None => Err(self.malformed()),
        }
    }

    fn raw_store(&mut self, f: Fields<Handle>) -> Result<(), Fault>
        ensures { ByNumbers writes self.old (meant store (store_call f)) (settled result) self.new }
    {
        match read_store(f) {
            Some(i) => self.store(i),
            None => Err(self.malformed()),
        }
    }

    fn raw_guard(&mut self, f: Fields<Handle>, lives: &[Handle]) -> Result<(), Fault>
        ensures { ByNumbers writes self.old (meant guard (guard_call f lives.now)) (settled result) self.new }
    {
        match read_guard(f, lives) {
            Some(g) => self.guard(g),
            None => Err(self.malformed()),
        }
    }

    ghost named: { PART ≡ writes.part };

    ghost lawful: { Lawful Self.Kind.Kind.arithmetic writes };
}
