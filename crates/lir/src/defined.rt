// Which values an instruction names, and whether it gives one.
ghost use Rattle.std.specs.Prelude.{◌≡◌};
ghost use Rattle.lir.specs.Instructions.{known, all_known, names, defined_value, defined_store, defined_guard, defined, gives};

use crate::instruction::{Guard, Instruction, Lives, Store, Value};
use crate::names::Name;

fn known<N: Name>(a: &N, n: u16) -> bool
    ensures { result ≡ known N.Name.number n a.now }
{
    a.number() < n
}

fn value_defined<N: Name>(i: &Value<N>, n: u16) -> bool
    ensures { result ≡ defined_value N.Name.number n i.now }
{
    match i {
        Value::Imm(_) => true,
        Value::Binary(_, a, b) => known(a, n) && known(b, n),
        Value::Ld(_) => true,
        Value::Ldx(a) => known(a, n),
    }
}

fn store_defined<N: Name>(i: &Store<N>, n: u16) -> bool
    ensures { result ≡ defined_store N.Name.number n i.now }
{
    match i {
        Store::St(a, _) => known(a, n),
        Store::Stx(a, b) => known(a, n) && known(b, n),
    }
}

// Arm by arm: an `all` beside `map` would have this one caller.
fn lives_defined<N: Name>(lives: &Lives<N>, n: u16) -> bool
    ensures { result ≡ all_known N.Name.number n (names lives.now) }
{
    match lives {
        Lives::Zero => true,
        Lives::One(p) => known(p, n),
        Lives::Two(p, q) => known(p, n) && known(q, n),
        Lives::Three(p, q, s) => known(p, n) && known(q, n) && known(s, n),
        Lives::Four(p, q, s, t) => known(p, n) && known(q, n) && known(s, n) && known(t, n),
    }
}

fn guard_defined<N: Name>(g: &Guard<N>, n: u16) -> bool
    ensures { result ≡ defined_guard N.Name.number n g.now }
{
    known(&g.on, n) && lives_defined(&g.lives, n)
}

// Whether every operand and live names one of the first n values.
pub fn defined<N: Name>(i: &Instruction<N>, n: u16) -> bool
    ensures { result ≡ defined N.Name.number n i.now }
{
    match i {
        Instruction::Value(i) => value_defined(i, n),
        Instruction::Store(i) => store_defined(i, n),
        Instruction::Guard(g) => guard_defined(g, n),
    }
}

// How many values an instruction gives: one or none. A number, since counts rise by it.
pub fn gives<N>(i: &Instruction<N>) -> u16
    ensures { result ≡ gives i.now }
{
    match i {
        Instruction::Value(_) => 1,
        Instruction::Store(_) => 0,
        Instruction::Guard(_) => 0,
    }
}
