// What a run is reported as: how it stands, and what it changed.
ghost use Rattle.std.specs.Prelude.{◌≡◌, IfOk};
ghost use Rattle.bench.specs.Reports.{change, changes, stands, tells, told};
ghost use Rattle.writers.specs.Machines.{stands as where_stands};

use crate::answer::{Content, Report, Standing};
use assembly::kinds::KindName;
use assembly::numbers::Number;
use codes::bounds::{Cell, Code};
use codes::cells::Cells;
use codes::codes::CELLS;
use codes::kind::Kind;
use std::alloc::{AllocError, Global};
use writers::machine::{Machine, Outcome};

fn standing(kind: KindName, outcome: Outcome<Code>) -> Standing
    ensures { result ≡ stands kind outcome }
{
    match outcome {
        Outcome::Going => Outcome::Going,
        Outcome::Gone(exit, lives) => Outcome::Gone(exit, lives.map(|p| Number::of(kind, p))),
        Outcome::Ended => Outcome::Ended,
    }
}

// What the cell of a number holds, if that differs. A struct around the kind and both contents would serve two functions.
fn change(kind: KindName, from: &Cells, to: &Cells, index: u16) -> Option<Content>
    ensures { result ≡ change kind from.now to.now index }
{
    let cell = Cell::new(index)?;
    let code = to.get(cell);
    if code == from.get(cell) {
        return None;
    }
    Some(Content {
        cell,
        number: Number::of(kind, code),
    })
}

// Every cell that differs, in order.
fn changes(
    heap: Global,
    kind: KindName,
    from: &Cells,
    to: &Cells,
) -> Result<Vec<Content>, AllocError>
    ensures { IfOk result (λ v. v.items ≡ changes kind from.now to.now 64) }
{
    (0..CELLS)
        .filter_map(|index| change(kind, from, to, index))
        .collect(heap)
}

// The start comes beside the machine, which does not keep it once its run is on.
pub fn report<K: Kind>(
    heap: Global,
    kind: KindName,
    start: &Cells,
    machine: &Machine<K>,
) -> Result<Report, AllocError>
    ensures { IfOk result (λ p. tells p ≡ told kind start.now (where_stands machine.now)) }
{
    let changes = changes(heap, kind, start, machine.cells())?;
    Ok(Report {
        standing: standing(kind, machine.outcome()),
        changes,
    })
}
