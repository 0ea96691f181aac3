// The instructions of a trace. N is what an operand is named by: a handle or a value number.
use crate::bounds::Exit;
use codes::bounds::{Cell, Code};

// The pure instructions of two operands, with the numbers by which calls name them.
#[derive(Clone, Copy)]
pub enum Op {
    Add = 2,
    Sub = 3,
    Mul = 4,
    And = 5,
    Or = 6,
    Xor = 7,
    Eq = 10,
    Lt = 11,
}

// What gives a value.
#[derive(Clone, Copy)]
pub enum Value<N> {
    Imm(Code),
    Binary(Op, N, N),
    Ld(Cell),
    Ldx(N),
}

// What changes a cell: the one named, or the one numbered by the low six bits of a value.
#[derive(Clone, Copy)]
pub enum Store<N> {
    St(N, Cell),
    Stx(N, N),
}

// When a guard leaves: on any code but 0, on 0, or on a code that is not less than the one given.
#[derive(Clone, Copy)]
pub enum Test {
    Xt,
    Xf,
    Xge(Code),
}

// The values that an exit reports, at most four. An array with a count beside it could hold more than it counts, and a
// vector could not be copied with its guard.
#[derive(Clone, Copy, Debug, PartialEq, Eq)]
pub enum Lives<N> {
    Zero,
    One(N),
    Two(N, N),
    Three(N, N, N),
    Four(N, N, N, N),
}

// A place where a run may leave the trace.
#[derive(Clone, Copy)]
pub struct Guard<N> {
    pub test: Test,
    pub on: N,
    pub exit: Exit,
    pub lives: Lives<N>,
}

// Everything that a trace may hold before its end.
#[derive(Clone, Copy)]
pub enum Instruction<N> {
    Value(Value<N>),
    Store(Store<N>),
    Guard(Guard<N>),
}
