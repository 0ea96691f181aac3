// A bench: the start that a script has set and the foot that it works on, in one kind of numbers.
ghost use Rattle.std.specs.Prelude.{◌≡◌, None, OnOk};
ghost use Rattle.codes.specs.Contents.{blank, written};
ghost use Rattle.bench.specs.Benches.{Called, Chosen, Chose, Ran, asked, fresh_bench, with_start};
ghost use Rattle.assembly.specs.Numbers.{shown};

use crate::answer::{Answer, Content, Counts, Report};
use crate::calls;
use crate::command::FootSpec;
use crate::error::Error;
use crate::report::report;
use assembly::call::Call;
use assembly::kinds::KindName;
use assembly::numbers::Number;
use codes::bounds::{Cell, Code};
use codes::cells::Cells;
use codes::kind::Kind;
use protocol::writer::Writer;
use std::alloc::Global;
use writers::buffer::Buffer;
use writers::evaluator::Evaluator;
use writers::machine::Machine;

// What stands at the foot. An evaluator has the start that it was made with beside it, since its run is compared
// with that.
#[derive(Drop)]
pub enum Foot<K> {
    Buffer(Buffer<K>),
    Evaluator(Evaluator<K>, Cells),
}

// `kind` is the name by which numbers are shown, and stands beside K: whoever makes a bench may say any, and is asked for
// no more. The heap comes with the calls that take memory, since a bench is made without.
#[derive(Drop)]
pub struct Bench<K> {
    pub kind: KindName,
    pub start: Cells,
    pub foot: Option<Foot<K>>,
}

impl<K: Kind> Bench<K> {
    pub fn new(kind: KindName) -> Bench<K>
        ensures kind { result.kind ≡ kind }
        ensures start { result.start ≡ blank }
        ensures foot { result.foot ≡ None }
        ensures bench { result ≡ fresh_bench kind }
    {
        Bench {
            kind,
            start: Cells::new(),
            foot: None,
        }
    }

    pub fn set(&mut self, cell: Cell, code: Code) -> Content
        ensures cell { result.cell ≡ cell }
        ensures number { result.number ≡ shown self.old.kind code }
        ensures start { self.new.start ≡ written self.old.start cell code }
        ensures foot { self.new.foot ≡ self.old.foot }
        ensures bench { self.new ≡ with_start self.old (written self.old.start cell code) }
    {
        self.start.set(cell, code);
        Content {
            cell,
            number: Number::of(self.kind, code),
        }
    }

    // What is chosen is answered with the places that a buffer really has.
    pub fn choose(&mut self, heap: Global, spec: FootSpec) -> Result<FootSpec, Error>
        ensures start { self.new.start ≡ self.old.start }
        ensures foot { OnOk result (Chosen spec self.old.start self.new.foot) }
        ensures bench { Chose spec self.old result self.new }
    {
        match spec {
            FootSpec::Buffer(places) => {
                let buffer = Buffer::new(heap, places)?;
                let places = buffer.space();
                self.foot = Some(Foot::Buffer(buffer));
                Ok(FootSpec::Buffer(places))
            }
            FootSpec::Evaluator => {
                let start = self.start;
                let evaluator = Evaluator::new(heap, &start)?;
                self.foot = Some(Foot::Evaluator(evaluator, start));
                Ok(FootSpec::Evaluator)
            }
        }
    }

    // The arms are one call on writers of two types, here as in `run` and `ask`: to hide the types takes a box, and a foot
    // without one is plainer.
    pub fn call(&mut self, call: &Call) -> Result<Answer, Error>
        ensures kind { self.new.kind ≡ self.old.kind }
        ensures start { self.new.start ≡ self.old.start }
        ensures foot { Called K.Kind.arithmetic self.old.foot call.now result self.new.foot }
    {
        match &mut self.foot {
            None => Err(Error::NoFoot),
            Some(Foot::Buffer(buffer)) => Ok(calls::call(buffer, call)),
            Some(Foot::Evaluator(evaluator, _)) => Ok(calls::call(evaluator, call)),
        }
    }

    // A buffer is run from the start as it is set now; an evaluator has been running since it was made.
    pub fn run(&self, heap: Global) -> Result<Report, Error>
        ensures { Ran K.Kind.arithmetic self.now result }
    {
        match &self.foot {
            None => Err(Error::NoFoot),
            Some(Foot::Buffer(buffer)) => {
                let mut machine = Machine::new(heap, &self.start)?;
                buffer.run(&self.start, &mut machine);
                Ok(report(heap, self.kind, &self.start, &machine)?)
            }
            Some(Foot::Evaluator(evaluator, start)) => {
                Ok(report(heap, self.kind, start, evaluator.machine())?)
            }
        }
    }

    pub fn ask(&self) -> Result<Counts, Error>
        ensures { result ≡ asked K.Kind.arithmetic self.now.foot }
    {
        match &self.foot {
            None => Err(Error::NoFoot),
            Some(Foot::Buffer(buffer)) => Ok(calls::ask(buffer)),
            Some(Foot::Evaluator(evaluator, _)) => Ok(calls::ask(evaluator)),
        }
    }
}
