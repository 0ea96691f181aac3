// What the pure instructions compute, and when guards leave.
ghost use Rattle.std.specs.Prelude.{◌≡◌};
ghost use Rattle.lir.specs.Instructions.{apply, leaves, truth};

use crate::instruction::{Op, Test};
use codes::bounds::Code;
use codes::kind::Kind;

// A comparison answers the codes 1 and 0 in every kind.
fn truth(b: bool) -> Code
    ensures { result ≡ truth b }
{
    Code::new(u32::from(b))
}

pub fn apply<K: Kind>(op: Op, p: Code, q: Code) -> Code
    ensures { result ≡ apply K.Kind.arithmetic op p q }
{
    match op {
        Op::Add => K::sum(p, q),
        Op::Sub => K::difference(p, q),
        Op::Mul => K::product(p, q),
        Op::And => Code::new(p.bits & q.bits),
        Op::Or => Code::new(p.bits | q.bits),
        Op::Xor => Code::new(p.bits ^ q.bits),
        Op::Eq => truth(p == q),
        Op::Lt => truth(K::less(p, q)),
    }
}

pub fn leaves<K: Kind>(test: Test, p: Code) -> bool
    ensures { result ≡ leaves K.Kind.arithmetic test p }
{
    match test {
        Test::Xt => p.bits != 0,
        Test::Xf => p.bits == 0,
        Test::Xge(c) => !K::less(p, c),
    }
}
