// One run of a trace.
ghost use Rattle.std.specs.Prelude.{◌≤◌, vec_len, vec_capacity};

use codes::bounds::Code;
use codes::cells::Cells;
use lir::bounds::Exit;
use lir::instruction::Lives;
use std::marker::PhantomData;

pub mod questions;
pub mod steps;
pub mod text;

// How a run goes: on; away, by an exit and with what it reports there; or to its end.
#[derive(Clone, Copy, Debug, PartialEq, Eq)]
pub enum Outcome<N> {
    Going,
    Gone(Exit, Lives<N>),
    Ended,
}

// The values are those of a going run. They stand beside the outcome and not in it, since their room is taken at the
// making, for all that a trace can give, and serves one run after another.
#[derive(Drop)]
pub struct Machine<K> {
    pub(crate) kind: PhantomData<K>,
    pub(crate) values: Vec<Code>,
    pub(crate) cells: Cells,
    pub(crate) outcome: Outcome<Code>,
    ghost room: { 1024 ≤ vec_capacity values },
    ghost few: { vec_len values ≤ 1024 },
}
