//! Cases computed by the rules themselves: one joint fact.

#![tactic(auto)]

ghost use Rattle.std.specs.Prelude.{◌≡◌};
ghost use Rattle.tried.specs.Tried.{Tried};

/// How many cases there are. The contract says what they are, and that the rules give what each of them says.
pub fn tried_cases() -> u32
    ensures count { result ≡ 12 }
    ensures cases { Tried }
{
    12
}
