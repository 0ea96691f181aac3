// The fields of a call by name, before its operands are filled in.
ghost use Rattle.std.specs.Prelude.{◌≡◌};
ghost use Rattle.assembly.specs.Names.{blank};

use crate::mnemonic::Mnemonic;
use codes::bounds::Code;
use lir::bounds::Handle;
use raw_calls::fields::Fields;

// What a call does not use is 0.
pub fn blank(op: Mnemonic) -> Fields<Handle>
    ensures { result ≡ blank op }
{
    let none = Handle::nth(0);
    Fields {
        op: op.number(),
        a: none,
        b: none,
        cell: 0,
        code: Code::new(0),
        exit: 0,
    }
}
