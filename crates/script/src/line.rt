// One line of a script: what it asks for, and what it is answered.
ghost use Rattle.std.specs.Prelude.{◌≡◌};
ghost use Rattle.script.specs.Lines.{Kept};

use crate::error::Error;
use crate::parse::{action, command};
use crate::reply::Reply;
use crate::session::Session;
use std::alloc::Global;
use std::fmt;

#[derive(Drop)]
pub struct Entry {
    pub action: String,
    pub reply: Reply,
}

impl fmt::Display for Entry {
    fn fmt<W: fmt::Write>(&self, f: &mut fmt::Formatter<W>) -> fmt::Result {
        let action = self.action.as_str();
        let reply = &self.reply;
        write!(f, "{action:<24} {reply}")
    }
}

impl Session {
    // A line without a word asks for nothing. That, and a line that stops the script, leaves the session as it was.
    pub fn line(&mut self, heap: Global, line: &str) -> Result<Option<Entry>, Error>
        ensures { Kept self.old result self.new }
    {
        let action = action(heap, line)?;
        if action.is_empty() {
            return Ok(None);
        }
        let command = command(heap, action.as_str())?;
        let reply = self.step(heap, &command)?;
        Ok(Some(Entry { action, reply }))
    }
}
