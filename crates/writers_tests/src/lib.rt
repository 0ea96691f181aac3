// Tests of the two writers at the foot: what each call answers at the edges of what it takes.
#![tactic(auto)]

use assembly::mnemonic::Sort;
use codes::bounds::Code;
use lir::bounds::Handle;
use lir::fault::{Fault, Refusal};
use lir::instruction::Value;
use protocol::writer::Writer;
use raw_calls::fields::Fields;

pub mod calls;
#[cfg(test)]
mod tests;
pub mod traces;

// A call by its sort, op, operands a and b, cell, exit and number of lives (at most five, each the first value), and the refusal
// that it gets, if any. The op is a number, since some of these calls name none.
#[derive(Clone, Copy)]
pub struct Call(
    pub Sort,
    pub u8,
    pub u16,
    pub u16,
    pub u16,
    pub u16,
    pub usize,
    pub Option<Refusal>,
);

fn fields(call: Call) -> Fields<Handle> {
    let Call(_, op, a, b, cell, exit, _, _) = call;
    Fields {
        op,
        a: Handle::nth(u32::from(a)),
        b: Handle::nth(u32::from(b)),
        cell,
        code: Code::new(5),
        exit,
    }
}

// The fault that a call gets, if any.
pub fn fault_of<W: Writer>(w: &mut W, call: Call) -> Option<Fault> {
    let f = fields(call);
    let lives = [Handle::nth(0); 5];
    // Each sort has a call of its own.
    match call.0 {
        Sort::Value => w.raw_value(f).err(),
        Sort::Store => w.raw_store(f).err(),
        Sort::Guard => w.raw_guard(f, &lives[..call.6.min(5)]).err(),
    }
}

// Why a call is refused, if it is.
pub fn refusal_of<W: Writer>(w: &mut W, call: Call) -> Option<Refusal> {
    fault_of(w, call).map(|fault| fault.refusal)
}

// Fills a writer with values, at most so many, and answers how many it took.
pub fn fill<W: Writer>(w: &mut W, most: u16) -> usize {
    (0..most)
        .take_while(|n| w.value(Value::Imm(Code::new(u32::from(*n)))).is_ok())
        .count()
}
