// The same calls on a buffer and on an evaluator.
use crate::{Call, refusal_of};
use codes::bounds::{Cell, Code};
use codes::cells::Cells;
use codes::kind::Kind;
use lir::bounds::{Exit, Handle};
use lir::instruction::{Guard, Lives, Test};
use protocol::writer::Writer;
use writers::machine::{Machine, Outcome};

// The number of calls of a table that did not get the refusal that they should.
pub fn surprises<W: Writer>(w: &mut W, calls: &[Call]) -> usize {
    calls
        .iter()
        .filter(|call| refusal_of(w, **call) != call.7)
        .count()
}

// The cell of a number below 64.
pub fn cell(n: u32) -> Cell {
    Cell::low(Code::new(n))
}

// All cells at 0 but one.
pub fn start_with(n: u32, code: u32) -> Cells {
    let mut cells = Cells::new();
    cells.set(cell(n), Code::new(code));
    cells
}

// A guard with one live.
pub fn guard_on(on: Handle, test: Test, exit: u16, live: Handle) -> Guard<Handle> {
    Guard {
        test,
        on,
        exit: Exit::nth(u32::from(exit)),
        lives: Lives::One(live),
    }
}

// How a run goes that has left by the exit of a label and reports one code.
pub fn left(label: u16, code: u32) -> Outcome<Code> {
    Outcome::Gone(Exit::nth(u32::from(label)), Lives::One(Code::new(code)))
}

// The code in a cell where a machine stands.
pub fn code_at<K: Kind>(machine: &Machine<K>, n: u32) -> u32 {
    machine.cells().get(cell(n)).bits
}
