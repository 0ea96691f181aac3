// What a bench answers.
use assembly::numbers::Number;
use codes::bounds::Cell;
use lir::bounds::Handle;
use lir::fault::Fault;
use writers::machine::Outcome;

// What a writer answered a call: the handle of a value, nothing where a call gives none, or why it was refused.
pub type Answer = Result<Option<Handle>, Fault>;

// How a run stands, in numbers.
pub type Standing = Outcome<Number>;

// A cell, and what it holds.
#[derive(Clone, Copy)]
pub struct Content {
    pub cell: Cell,
    pub number: Number,
}

// How a run stands, and every cell that differs from its start.
#[derive(Drop)]
pub struct Report {
    pub standing: Standing,
    pub changes: Vec<Content>,
}

// What a writer says of itself.
#[derive(Clone, Copy)]
pub struct Counts {
    pub handles: u16,
    pub taken: u64,
    pub space: u16,
    pub ended: bool,
}
