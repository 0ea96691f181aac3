// What can be asked of a machine.
ghost use Rattle.std.specs.Prelude.{◌≡◌};

use super::{Machine, Outcome};
use codes::bounds::Code;
use codes::cells::Cells;
use codes::kind::Kind;

impl<K: Kind> Machine<K> {
    // How the run goes.
    pub fn outcome(&self) -> Outcome<Code>
        ensures { result ≡ self.now.outcome }
    {
        self.outcome
    }

    // What the cells hold now.
    pub fn cells(&self) -> &Cells
        ensures { result.now ≡ self.now.cells }
    {
        &self.cells
    }

    // The values so far, where the run is going.
    pub fn values(&self) -> &[Code]
        ensures { result.now ≡ self.now.values.items }
    {
        self.values.as_slice()
    }
}
