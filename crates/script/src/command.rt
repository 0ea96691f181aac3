// What a session is asked for.
use assembly::call::Call;
use assembly::kinds::KindName;
use bench::command::FootSpec;
use codes::bounds::{Cell, Code};

// What is done in the kind that was chosen.
#[derive(Drop)]
pub enum Work {
    Cell(Cell, Code),
    Foot(FootSpec),
    Call(Call),
    Run,
    Ask,
}

#[derive(Drop)]
pub enum Command {
    Kind(KindName),
    Work(Work),
}
