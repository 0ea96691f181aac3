// The instructions by name.
ghost use Rattle.std.specs.Prelude.{◌≡◌};
ghost use Rattle.assembly.specs.Names.{number, sort, spelling};
ghost use Rattle.assembly.specs.Spelling.{Spelled};

use crate::unknown::UnknownWord;
use lir::instruction::Op;
use std::str::FromStr;

#[derive(Clone, Copy)]
pub enum Mnemonic {
    Imm,
    Binary(Op),
    Ld,
    Ldx,
    St,
    Stx,
    Xt,
    Xf,
    Xge,
}

// What an instruction does: it gives a value, changes a cell, or may leave the trace.
#[derive(Clone, Copy)]
pub enum Sort {
    Value,
    Store,
    Guard,
}

// One table of all names: the pure ones read apart would part it.
impl FromStr for Mnemonic {
    type Err = UnknownWord;

    ghost from_str_gives = { Spelled spelling };

    fn from_str(word: &str) -> Result<Mnemonic, UnknownWord> {
        match word {
            "imm" => Ok(Mnemonic::Imm),
            "add" => Ok(Mnemonic::Binary(Op::Add)),
            "sub" => Ok(Mnemonic::Binary(Op::Sub)),
            "mul" => Ok(Mnemonic::Binary(Op::Mul)),
            "and" => Ok(Mnemonic::Binary(Op::And)),
            "or" => Ok(Mnemonic::Binary(Op::Or)),
            "xor" => Ok(Mnemonic::Binary(Op::Xor)),
            "eq" => Ok(Mnemonic::Binary(Op::Eq)),
            "lt" => Ok(Mnemonic::Binary(Op::Lt)),
            "ld" => Ok(Mnemonic::Ld),
            "ldx" => Ok(Mnemonic::Ldx),
            "st" => Ok(Mnemonic::St),
            "stx" => Ok(Mnemonic::Stx),
            "xt" => Ok(Mnemonic::Xt),
            "xf" => Ok(Mnemonic::Xf),
            "xge" => Ok(Mnemonic::Xge),
            _ => Err(UnknownWord),
        }
    }
}

impl Mnemonic {
    // The op's number in a raw call. A match, since an enum with a variant that holds something is not cast.
    pub fn number(self) -> u8
        ensures { result ≡ number self }
    {
        match self {
            Mnemonic::Imm => 1,
            Mnemonic::Binary(op) => op as u8,
            Mnemonic::Ld => 12,
            Mnemonic::Ldx => 13,
            Mnemonic::St => 16,
            Mnemonic::Stx => 17,
            Mnemonic::Xt => 18,
            Mnemonic::Xf => 19,
            Mnemonic::Xge => 20,
        }
    }

    pub fn sort(self) -> Sort
        ensures { result ≡ sort self }
    {
        match self {
            Mnemonic::Imm | Mnemonic::Binary(_) | Mnemonic::Ld | Mnemonic::Ldx => Sort::Value,
            Mnemonic::St | Mnemonic::Stx => Sort::Store,
            Mnemonic::Xt | Mnemonic::Xf | Mnemonic::Xge => Sort::Guard,
        }
    }
}
