// Calls and questions on any writer.
ghost use Rattle.std.specs.Prelude.{◌≡◌};
ghost use Rattle.bench.specs.Meanings.{Took, counts};

use crate::answer::{Answer, Counts};
use assembly::call::Call;
use protocol::writer::Writer;

// The writer takes exactly the step of the call, and the answer is the writer's own. A match, since each call holds what
// its own arm needs.
pub fn call<W: Writer>(writer: &mut W, call: &Call) -> Answer
    ensures { Took W.Writer.writes writer.old call.now result writer.new }
{
    match call {
        Call::Value(fields) => return Ok(Some(writer.raw_value(*fields)?)),
        Call::Store(fields) => writer.raw_store(*fields)?,
        Call::Guard(fields, lives) => writer.raw_guard(*fields, lives.as_slice())?,
        Call::End => writer.end()?,
    }
    Ok(None)
}

pub fn ask<W: Writer>(writer: &W) -> Counts
    ensures { result ≡ counts (W.Writer.writes.meaning writer.now) }
{
    Counts {
        handles: writer.handles(),
        taken: writer.taken(),
        space: writer.space(),
        ended: writer.has_ended(),
    }
}
