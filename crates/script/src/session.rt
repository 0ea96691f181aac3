// What has been chosen so far, and what a command does to it.
ghost use Rattle.std.specs.Prelude.{◌≡◌};
ghost use Rattle.script.specs.Sessions.{Worked, unchosen, begun, Done, Stepped, KeptIfStopped};

use crate::command::{Command, Work};
use crate::error::Error;
use crate::reply::Reply;
use assembly::kinds::KindName;
use bench::bench::Bench;
use codes::count::Count;
use codes::kind::Kind;
use codes::pressure::{Bar20, Bar100};
use std::alloc::Global;

// A bench of one of the kinds.
#[derive(Drop)]
pub enum AnyBench {
    Count(Bench<Count>),
    Bar20(Bench<Bar20>),
    Bar100(Bench<Bar100>),
}

// The bench of the kind that was chosen, once one is. Steps are lent the heap, as benches are.
#[derive(Drop)]
pub struct Session {
    pub bench: Option<AnyBench>,
}

// What is done on a bench, whatever its kind. A match, since each sort of work holds what its own arm needs.
fn work_on<K: Kind>(bench: &mut Bench<K>, heap: Global, work: &Work) -> Result<Reply, Error>
    ensures { Worked K.Kind.arithmetic bench.old work.now result bench.new }
{
    match work {
        Work::Cell(cell, code) => Ok(Reply::Cell(bench.set(*cell, *code))),
        Work::Foot(spec) => Ok(Reply::Foot(bench.choose(heap, *spec)?)),
        Work::Call(call) => Ok(Reply::Call(bench.call(call)?)),
        Work::Run => Ok(Reply::Run(bench.run(heap)?)),
        Work::Ask => Ok(Reply::Ask(bench.ask()?)),
    }
}

impl Session {
    // No kind is chosen yet.
    pub fn new() -> Session
        ensures { result ≡ unchosen }
    {
        Session { bench: None }
    }

    // No `From`: a session is not what a kind's name becomes, but begins with it.
    pub fn of(kind: KindName) -> Session
        ensures { result ≡ begun kind }
    {
        let bench = match kind {
            KindName::Count => AnyBench::Count(Bench::new(kind)),
            KindName::Bar20 => AnyBench::Bar20(Bench::new(kind)),
            KindName::Bar100 => AnyBench::Bar100(Bench::new(kind)),
        };
        Session { bench: Some(bench) }
    }

    // Each arm is `work_on` in another kind. One `dyn` for the three would put each bench into a box of its own.
    fn work(&mut self, heap: Global, work: &Work) -> Result<Reply, Error>
        ensures { Done self.old work.now result self.new }
    {
        match &mut self.bench {
            None => Err(Error::NoKind),
            Some(AnyBench::Count(bench)) => work_on(bench, heap, work),
            Some(AnyBench::Bar20(bench)) => work_on(bench, heap, work),
            Some(AnyBench::Bar100(bench)) => work_on(bench, heap, work),
        }
    }

    // A kind begins afresh; all else is done on the bench.
    pub fn step(&mut self, heap: Global, command: &Command) -> Result<Reply, Error>
        ensures exact { Stepped self.old command.now result self.new }
        ensures kept { KeptIfStopped self.old result self.new }
    {
        match command {
            Command::Kind(kind) => {
                *self = Session::of(*kind);
                Ok(Reply::Kind(*kind))
            }
            Command::Work(work) => self.work(heap, work),
        }
    }
}
