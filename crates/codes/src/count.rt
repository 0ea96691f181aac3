// Counts: whole numbers modulo 2^32.
ghost use Rattle.std.specs.Prelude.{refl};
ghost use Rattle.codes.specs.Codes.{code};
ghost use Rattle.codes.specs.Counts.{count};
ghost use Rattle.codes.specs.CountLaws.{count_laws};

use crate::bounds::Code;
use crate::kind::Kind;

pub struct Count;

impl Kind for Count {
    const ONE: Code = Code { bits: 1 };

    const FILE_BYTE: u8 = 0;

    ghost ONE = { code 1 };

    ghost FILE_BYTE = { 0 };

    ghost arithmetic = { count };

    ghost one = { refl };

    ghost laws = { count_laws };

    fn sum(p: Code, q: Code) -> Code {
        Code::new(p.bits.wrapping_add(q.bits))
    }

    fn difference(p: Code, q: Code) -> Code {
        Code::new(p.bits.wrapping_sub(q.bits))
    }

    fn product(p: Code, q: Code) -> Code {
        Code::new(p.bits.wrapping_mul(q.bits))
    }

    fn less(p: Code, q: Code) -> bool {
        p.bits < q.bits
    }
}
