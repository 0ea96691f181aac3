// Pressures: fixed-point numbers, so many steps to the bar, that stop at the ends of 32 signed bits.
ghost use Rattle.std.specs.Prelude.{◌≡◌, ℕ, ◌<◌, ◌^◌, refl};
ghost use Rattle.codes.specs.Codes.{code};
ghost use Rattle.codes.specs.Pressures.{signed, stopped, pressure};
ghost use Rattle.std.proofs.Common.{lit<};
ghost use Rattle.codes.specs.PressureLaws.{pressure_laws};

use crate::bounds::Code;
use crate::kind::Kind;

// How many steps a kind of pressures has to the bar: at least one, and so few that a bar is a number of 32 signed bits.
pub trait Scale {
    const STEPS: u32;

    const FILE_BYTE: u8;

    ghost STEPS: { ℕ };

    ghost FILE_BYTE: { ℕ };

    ghost some: { 0 < STEPS };

    ghost few: { STEPS < 2 ^ 31 };
}

pub struct Bar20;

impl Scale for Bar20 {
    const STEPS: u32 = 20;

    const FILE_BYTE: u8 = 1;

    ghost STEPS = { 20 };

    ghost FILE_BYTE = { 1 };

    ghost some = { lit< tt };

    ghost few = { lit< tt };
}

pub struct Bar100;

impl Scale for Bar100 {
    const STEPS: u32 = 100;

    const FILE_BYTE: u8 = 2;

    ghost STEPS = { 100 };

    ghost FILE_BYTE = { 2 };

    ghost some = { lit< tt };

    ghost few = { lit< tt };
}

// The number that a code stands for, in two's complement.
fn signed(p: Code) -> i64
    ensures { result ≡ signed p }
{
    i64::from(p.bits.cast_signed())
}

// The code of a number, or of the end of the range that it is beyond.
fn stopped(z: i64) -> Code
    ensures { result ≡ stopped z }
{
    let kept = z.clamp(i64::from(i32::MIN), i64::from(i32::MAX));
    Code::new((kept as i32).cast_unsigned())
}

impl<S: Scale> Kind for S {
    const ONE: Code = Code { bits: S::STEPS };

    const FILE_BYTE: u8 = S::FILE_BYTE;

    ghost ONE = { code S.STEPS };

    ghost FILE_BYTE = { S.Scale.FILE_BYTE };

    ghost arithmetic = { pressure S.STEPS };

    ghost one = { refl };

    ghost laws = { pressure_laws S.STEPS S.some S.few };

    fn sum(p: Code, q: Code) -> Code {
        stopped(signed(p) + signed(q))
    }

    fn difference(p: Code, q: Code) -> Code {
        stopped(signed(p) - signed(q))
    }

    // The product of two fits 64 bits before it is divided, so nothing is stopped too early.
    fn product(p: Code, q: Code) -> Code {
        stopped(signed(p) * signed(q) / i64::from(S::STEPS))
    }

    fn less(p: Code, q: Code) -> bool {
        signed(p) < signed(q)
    }
}
