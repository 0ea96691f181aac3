// What codes mean as numbers.
ghost use Rattle.std.specs.Prelude.{◌≡◌, ℕ};
ghost use Rattle.codes.specs.Kinds.{Arithmetic, Laws};
ghost use Rattle.codes.specs.declared.bounds.Code.{Code as CodeOf};

use crate::bounds::Code;

// A kind of number: how codes are summed, subtracted, multiplied and compared. Code 0 is zero in every kind.
pub trait Kind {
    // The code of the number 1.
    const ONE: Code;

    // The byte by which a trace file names the kind: a number, as the file's format gives it.
    const FILE_BYTE: u8;

    ghost ONE: { CodeOf };

    ghost FILE_BYTE: { ℕ };

    ghost arithmetic: { Arithmetic };

    fn sum(p: Code, q: Code) -> Code
        ensures { result ≡ arithmetic.sum p q };

    fn difference(p: Code, q: Code) -> Code
        ensures { result ≡ arithmetic.difference p q };

    fn product(p: Code, q: Code) -> Code
        ensures { result ≡ arithmetic.product p q };

    fn less(p: Code, q: Code) -> bool
        ensures { result ≡ arithmetic.less p q };

    ghost one: { ONE ≡ arithmetic.one };

    ghost laws: { Laws arithmetic };
}
