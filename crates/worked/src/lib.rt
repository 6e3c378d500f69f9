//! The worked examples, which hold of the definitions of all libraries.

#![tactic(auto)]

ghost use Rattle.worked.specs.Worked.{ExamplesHold, examples as worked};
ghost use Rattle.std.specs.Prelude.{◌≡◌, length};

/// How many worked examples there are. The promise says that each of them holds of the definitions.
pub fn examples() -> usize
    ensures value { result ≡ length worked }
    ensures hold { ExamplesHold }
{
    9
}
