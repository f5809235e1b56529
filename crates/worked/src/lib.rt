//! Worked facts: numbers that a reader can check by hand, computed from the definitions that the contracts cite.
#![tactic(auto)]

ghost use Rattle.std.specs.Prelude.{◌≡◌, true, length};
ghost use Rattle.std.specs.List.{list_all};
ghost use Rattle.worked.specs.Facts.{facts};

/// How many worked facts there are. Each holds, by computing it from the definitions.
#[tactic(auto, using(crate::proofs::Computed::all_hold))]
pub fn worked_facts() -> usize
    ensures count { result ≡ length facts }
    ensures hold { list_all (λ b. b) facts ≡ true }
{
    11
}
