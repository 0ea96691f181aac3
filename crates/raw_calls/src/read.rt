// The instruction that the numbers of a call mean.
ghost use Rattle.std.specs.Prelude.{◌≡◌};
ghost use Rattle.raw_calls.specs.Calls.{guard_by, meaning, value_call, store_call, guard_call};

use crate::fields::Fields;
use codes::bounds::Cell;
use lir::bounds::Exit;
use lir::instruction::{Guard, Instruction, Lives, Op, Store, Test, Value};

fn guard_by<N: Copy>(test: Test, f: Fields<N>, lives: &[N]) -> Option<Instruction<N>>
    ensures { result ≡ guard_by f lives.now test }
{
    Some(Instruction::Guard(Guard {
        test,
        on: f.a,
        exit: Exit::new(f.exit)?,
        lives: Lives::new(lives)?,
    }))
}

// The table of all ops, row by row as its definition has it, and in numbers, since any may be handed in. To read the
// pure ones by a table of their own would part it.
// The instruction that a call's numbers mean, or none where its op or one of its fields is out of bounds.
pub fn read<N: Copy>(f: Fields<N>, lives: &[N]) -> Option<Instruction<N>>
    ensures { result ≡ meaning f lives.now }
{
    match f.op {
        1 => Some(Instruction::Value(Value::Imm(f.code))),
        2 => Some(Instruction::Value(Value::Binary(Op::Add, f.a, f.b))),
        3 => Some(Instruction::Value(Value::Binary(Op::Sub, f.a, f.b))),
        4 => Some(Instruction::Value(Value::Binary(Op::Mul, f.a, f.b))),
        5 => Some(Instruction::Value(Value::Binary(Op::And, f.a, f.b))),
        6 => Some(Instruction::Value(Value::Binary(Op::Or, f.a, f.b))),
        7 => Some(Instruction::Value(Value::Binary(Op::Xor, f.a, f.b))),
        10 => Some(Instruction::Value(Value::Binary(Op::Eq, f.a, f.b))),
        11 => Some(Instruction::Value(Value::Binary(Op::Lt, f.a, f.b))),
        12 => Some(Instruction::Value(Value::Ld(Cell::new(f.cell)?))),
        13 => Some(Instruction::Value(Value::Ldx(f.a))),
        16 => Some(Instruction::Store(Store::St(f.a, Cell::new(f.cell)?))),
        17 => Some(Instruction::Store(Store::Stx(f.a, f.b))),
        18 => guard_by(Test::Xt, f, lives),
        19 => guard_by(Test::Xf, f, lives),
        20 => guard_by(Test::Xge(f.code), f, lives),
        _ => None,
    }
}

// A call takes the instructions of its own sort. As conversions of an instruction these would be the same three matches,
// with an error in place of none.
pub fn read_value<N: Copy>(f: Fields<N>) -> Option<Value<N>>
    ensures { result ≡ value_call f }
{
    match read(f, &[])? {
        Instruction::Value(i) => Some(i),
        Instruction::Store(_) => None,
        Instruction::Guard(_) => None,
    }
}

pub fn read_store<N: Copy>(f: Fields<N>) -> Option<Store<N>>
    ensures { result ≡ store_call f }
{
    match read(f, &[])? {
        Instruction::Value(_) => None,
        Instruction::Store(i) => Some(i),
        Instruction::Guard(_) => None,
    }
}

pub fn read_guard<N: Copy>(f: Fields<N>, lives: &[N]) -> Option<Guard<N>>
    ensures { result ≡ guard_call f lives.now }
{
    match read(f, lives)? {
        Instruction::Value(_) => None,
        Instruction::Store(_) => None,
        Instruction::Guard(g) => Some(g),
    }
}
