// What the feet answer, and where their runs stand.
use crate::calls::{LISTED, MALFORMED, UNDEFINED, UNUSED};
use crate::traces::{cell, code_at, guard_on, left, start_with, surprises};
use crate::{fault_of, fill, refusal_of};
use codes::bounds::Code;
use codes::cells::Cells;
use codes::count::Count;
use codes::pressure::Bar100;
use lir::bounds::Handle;
use lir::fault::{Fault, Part, Refusal};
use lir::instruction::{Op, Store, Test, Value};
use protocol::writer::Writer;
use std::process::Abort;
use std::test::Fail;
use writers::buffer::Buffer;
use writers::evaluator::Evaluator;
use writers::machine::{Machine, Outcome};

// Two values, then every table; the counts are those of the calls that were accepted.
fn tables<W: Writer>(rt: &impl Abort, w: &mut W) {
    assert_eq!(rt; Refusal::Malformed.number(), 4);
    assert_eq!(rt; Refusal::Undefined.number(), 5);
    assert_eq!(rt; fill(w, 2), 2);
    assert_eq!(rt; surprises(w, &UNDEFINED), 0);
    assert_eq!(rt; surprises(w, &MALFORMED), 0);
    assert_eq!(rt; surprises(w, &LISTED), 0);
    assert_eq!(rt; surprises(w, &UNUSED), 0);
    assert_eq!(rt; w.handles(), 17);
    assert_eq!(rt; w.taken(), 25);
}

// After the end every call is refused for it, whatever its numbers, and the questions answer as before.
fn ends<W: Writer>(rt: &impl Abort, w: &mut W) {
    assert_eq!(rt; Refusal::Ended.number(), 6);
    let space = w.space();
    assert!(rt; w.end().is_ok());
    assert!(rt; w.has_ended());
    for call in LISTED.iter().chain(&MALFORMED) {
        assert_eq!(rt; refusal_of(w, *call), Some(Refusal::Ended));
    }
    assert_eq!(rt;
        w.end().err().map(|fault| fault.refusal),
        Some(Refusal::Ended)
    );
    assert_eq!(rt; w.space(), space);
}

// At space 0 every instruction is refused as the foot's own, with what it has taken, and end is still accepted.
fn full<W: Writer>(rt: &impl Abort, w: &mut W, part: Part, took: u16) -> Result<(), Fail> {
    assert_eq!(rt; Refusal::NoSpace.number(), 9);
    assert_eq!(rt; fill(w, 2000), usize::from(took));
    assert_eq!(rt; w.space(), 0);
    for call in &LISTED {
        let full = Fault {
            refusal: Refusal::NoSpace,
            part,
            place: u64::from(took),
        };
        assert_eq!(rt; fault_of(w, *call), Some(full));
    }
    assert_eq!(rt; surprises(w, &MALFORMED), 0);
    assert!(rt; w.end().is_ok());
    Ok(())
}

// A trace of a press: a pressure times one bar, added to itself, with two guards on the way.
fn pressing<W: Writer>(rt: &impl Abort, w: &mut W) -> Result<(), Fail> {
    let one = w.value(Value::Imm(Code::new(100)))?;
    let pressure = w.value(Value::Ld(cell(3)))?;
    let product = w.value(Value::Binary(Op::Mul, pressure, one))?;
    let again = w.value(Value::Ld(cell(3)))?;
    w.value(Value::Binary(Op::Add, again, product))?;
    w.guard(guard_on(product, Test::Xge(Code::new(250)), 0, pressure))?;
    w.guard(guard_on(again, Test::Xge(Code::new(300)), 1, pressure))?;
    let sum = w.value(Value::Binary(Op::Add, product, again))?;
    w.store(Store::St(sum, cell(4)))?;
    assert!(rt; w.end().is_ok());
    Ok(())
}

#[test]
fn a_buffer_takes_what_is_listed(rt: HostRuntime) -> Result<(), Fail> {
    let mut buffer = Buffer::<Count>::new(rt.alloc(), 1024)?;
    tables(&rt, &mut buffer);
    assert_eq!(rt; buffer.instructions().len(), 25);
    assert_eq!(rt; buffer.space(), 999);
    ends(&rt, &mut buffer);
    Ok(())
}

#[test]
fn an_evaluator_takes_what_is_listed(rt: HostRuntime) -> Result<(), Fail> {
    let mut evaluator = Evaluator::<Count>::new(rt.alloc(), &Cells::new())?;
    tables(&rt, &mut evaluator);
    assert_eq!(rt; evaluator.space(), 1007);
    ends(&rt, &mut evaluator);
    Ok(())
}

#[test]
fn full_feet_refuse_all_but_the_end(rt: HostRuntime) -> Result<(), Fail> {
    let heap = rt.alloc();
    assert_eq!(rt; Part::Buffer.number(), 2);
    assert_eq!(rt; Part::Evaluator.number(), 3);
    full(&rt, &mut Buffer::<Count>::new(heap, 3)?, Part::Buffer, 3)?;
    full(
        &rt,
        &mut Buffer::<Count>::new(heap, 65535)?,
        Part::Buffer,
        1024,
    )?;
    full(
        &rt,
        &mut Evaluator::<Count>::new(heap, &Cells::new())?,
        Part::Evaluator,
        1024,
    )
}

#[test]
fn a_buffer_of_no_places_takes_the_end_alone(rt: HostRuntime) -> Result<(), Fail> {
    let mut buffer = Buffer::<Count>::new(rt.alloc(), 0)?;
    assert_eq!(rt; fill(&mut buffer, 1), 0);
    assert_eq!(rt;
        buffer
            .value(Value::Imm(Code::new(5)))
            .err()
            .map(|fault| fault.refusal),
        Some(Refusal::NoSpace)
    );
    assert!(rt; buffer.end().is_ok());
    Ok(())
}

#[test]
fn a_kept_trace_runs_from_every_start(rt: HostRuntime) -> Result<(), Fail> {
    let mut buffer = Buffer::<Bar100>::new(rt.alloc(), 1024)?;
    pressing(&rt, &mut buffer)?;
    let mut machine = Machine::new(rt.alloc(), &Cells::new())?;
    buffer.run(&start_with(3, 150), &mut machine);
    assert_eq!(rt; machine.outcome(), Outcome::Ended);
    assert_eq!(rt; code_at(&machine, 4), 300);
    buffer.run(&start_with(3, 260), &mut machine);
    assert_eq!(rt; machine.outcome(), left(0, 260));
    assert_eq!(rt; code_at(&machine, 4), 0);
    Ok(())
}

#[test]
fn an_evaluator_runs_from_its_own_start(rt: HostRuntime) -> Result<(), Fail> {
    let mut stays = Evaluator::<Bar100>::new(rt.alloc(), &start_with(3, 150))?;
    pressing(&rt, &mut stays)?;
    assert_eq!(rt; stays.machine().outcome(), Outcome::Ended);
    assert_eq!(rt; code_at(stays.machine(), 4), 300);
    let mut leaves = Evaluator::<Bar100>::new(rt.alloc(), &start_with(3, 260))?;
    pressing(&rt, &mut leaves)?;
    assert_eq!(rt; leaves.machine().outcome(), left(0, 260));
    assert_eq!(rt; code_at(leaves.machine(), 4), 0);
    assert_eq!(rt; leaves.taken(), 9);
    assert_eq!(rt; leaves.handles(), 6);
    Ok(())
}

#[test]
fn stores_take_no_space_of_an_evaluator(rt: HostRuntime) -> Result<(), Fail> {
    let mut evaluator = Evaluator::<Count>::new(rt.alloc(), &Cells::new())?;
    let five = evaluator.value(Value::Imm(Code::new(5)))?;
    for _ in 0..3000 {
        evaluator.store(Store::St(five, cell(1)))?;
    }
    assert_eq!(rt; evaluator.space(), 1023);
    assert_eq!(rt; evaluator.taken(), 3001);
    Ok(())
}

#[test]
fn indexed_cells_go_by_the_low_six_bits(rt: HostRuntime) -> Result<(), Fail> {
    let mut evaluator = Evaluator::<Bar100>::new(rt.alloc(), &start_with(63, 9))?;
    let minus_one = evaluator.value(Value::Imm(Code::new(4294967295)))?;
    let found = evaluator.value(Value::Ldx(minus_one))?;
    evaluator.store(Store::Stx(minus_one, found))?;
    assert_eq!(rt; code_at(evaluator.machine(), 9), 4294967295);
    assert_eq!(rt; code_at(evaluator.machine(), 63), 9);
    Ok(())
}
