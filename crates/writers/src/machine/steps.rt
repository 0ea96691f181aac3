// What a machine does at each instruction.
ghost use Rattle.std.specs.Prelude.{◌≡◌, ◌+◌, ◌<◌, ◌≤◌, [], IfOk, vec_len};
ghost use Rattle.lir.specs.Instructions.{gives};
ghost use Rattle.lir.specs.declared.instruction.Instruction.TheVariants.{Guard as guard};
ghost use Rattle.writers.specs.declared.machine.Outcome.TheVariants.{Going};
ghost use Rattle.lir.specs.Standings.{going, value_of, value_at, effect, finished};
ghost use Rattle.lir.specs.Limits.{index_of};
ghost use Rattle.writers.specs.Machines.{stands};

use super::{Machine, Outcome};
use codes::bounds::{Cell, Code};
use codes::cells::Cells;
use codes::kind::Kind;
use lir::apply::{apply, leaves};
use lir::bounds::Handle;
use lir::instruction::{Guard, Instruction, Store, Value};
use lir::names::HANDLES;
use std::alloc::{AllocError, Global};
use std::marker::PhantomData;

impl<K: Kind> Machine<K> {
    pub fn new(heap: Global, start: &Cells) -> Result<Machine<K>, AllocError>
        ensures { IfOk result (λ m. stands m ≡ going [] start.now) }
    {
        let values = Vec::with_capacity(heap, HANDLES as usize)?;
        Ok(Machine {
            kind: PhantomData,
            values,
            cells: *start,
            outcome: Outcome::Going,
        })
    }

    // Begins a new run, in the room of the old one.
    pub fn restart(&mut self, start: &Cells)
        ensures stands { stands self.new ≡ going [] start.now }
        ensures empty { vec_len self.new.values ≡ 0 }
    {
        self.values.clear();
        self.cells = *start;
        self.outcome = Outcome::Going;
    }

    fn value_at(&self, h: Handle) -> Code
        ensures { result ≡ value_at index_of self.now.values.items h }
    {
        self.values
            .get(usize::from(h.number))
            .copied()
            .unwrap_or(Code::new(0))
    }

    fn value_of(&self, i: Value<Handle>) -> Code
        ensures { result ≡ value_of K.Kind.arithmetic (value_at index_of self.now.values.items) self.now.cells i }
    {
        match i {
            Value::Imm(c) => c,
            Value::Binary(op, a, b) => apply::<K>(op, self.value_at(a), self.value_at(b)),
            Value::Ld(k) => self.cells.get(k),
            Value::Ldx(a) => self.cells.get(Cell::low(self.value_at(a))),
        }
    }

    // A function of its own, since a run of pressures takes a third longer where `step` holds this.
    fn leave_or_stay(&mut self, g: Guard<Handle>)
        requires { self.old.outcome ≡ Going }
        ensures stands { stands self.new ≡ effect index_of K.Kind.arithmetic (guard g) (stands self.old) }
        ensures kept { self.new.values.items ≡ self.old.values.items }
    {
        if leaves::<K>(g.test, self.value_at(g.on)) {
            let lives = g.lives.map(|h| self.value_at(h));
            self.outcome = Outcome::Gone(g.exit, lives);
        }
    }

    // An instruction changes only a run that is going. Each arm needs what its own variant holds, so it is a match and no
    // table; `grows` and `kept` are what a call does to the values, which no one state of a machine could say.
    pub(crate) fn step(&mut self, i: Instruction<Handle>)
        requires { vec_len self.old.values < 1024 }
        ensures stands { stands self.new ≡ effect index_of K.Kind.arithmetic i (stands self.old) }
        ensures grows { vec_len self.new.values ≤ vec_len self.old.values + gives i }
        ensures kept { gives i ≡ 0 → self.new.values.items ≡ self.old.values.items }
    {
        let Outcome::Going = self.outcome else {
            return;
        };
        match i {
            Instruction::Value(i) => {
                let code = self.value_of(i);
                self.values.push_reserved(code);
            }
            Instruction::Store(Store::St(a, k)) => {
                let code = self.value_at(a);
                self.cells.set(k, code);
            }
            Instruction::Store(Store::Stx(a, b)) => {
                let code = self.value_at(a);
                let k = Cell::low(self.value_at(b));
                self.cells.set(k, code);
            }
            Instruction::Guard(g) => self.leave_or_stay(g),
        }
    }

    pub(crate) fn end(&mut self)
        ensures stands { stands self.new ≡ finished (stands self.old) }
        ensures grows { vec_len self.new.values ≡ vec_len self.old.values }
    {
        if let Outcome::Going = self.outcome {
            self.outcome = Outcome::Ended;
        }
    }
}
