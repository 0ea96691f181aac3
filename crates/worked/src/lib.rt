// Worked cases from the press, as one list with one result about the definitions that the contracts use.
#![tactic(auto)]

ghost use Rattle.std.specs.Prelude.{◌≡◌};
ghost use Rattle.worked.specs.Cases.{cases, every};

// Whether every worked case comes out as it should.
pub fn worked_cases_hold() -> bool
    ensures { result ≡ every cases }
{
    true
}
