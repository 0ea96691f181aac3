// The lives of a guard: from a list of any length, and what is made of each.
ghost use Rattle.std.specs.Prelude.{◌≡◌};
ghost use Rattle.lir.specs.Instructions.{lives_of};
ghost use Rattle.lir.specs.Mapping.{Mapped};

use crate::instruction::Lives;

impl<N: Copy> Lives<N> {
    // At most four: none where there are more. An option, as whoever asks answers one.
    pub fn new(names: &[N]) -> Option<Lives<N>>
        ensures { result ≡ lives_of names.now }
    {
        match names {
            [] => Some(Lives::Zero),
            [p] => Some(Lives::One(*p)),
            [p, q] => Some(Lives::Two(*p, *q)),
            [p, q, s] => Some(Lives::Three(*p, *q, *s)),
            [p, q, s, t] => Some(Lives::Four(*p, *q, *s, *t)),
            _ => None,
        }
    }

    // What f makes of each.
    pub fn map<M, F: Fn(N) -> M>(self, f: F) -> Lives<M>
    where
        F: Drop,
        requires { F.IsAlwaysCallable f }
        ensures { Mapped (F.post f) self result }
    {
        match self {
            Lives::Zero => Lives::Zero,
            Lives::One(p) => Lives::One(f(p)),
            Lives::Two(p, q) => Lives::Two(f(p), f(q)),
            Lives::Three(p, q, s) => Lives::Three(f(p), f(q), f(s)),
            Lives::Four(p, q, s, t) => Lives::Four(f(p), f(q), f(s), f(t)),
        }
    }
}
