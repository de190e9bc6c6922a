// The verdict of a load or an amendment as its answer.
#![tactic(auto)]

ghost use Rattle.std.specs.Prelude.{◌≡◌};
ghost use Rattle.iff.specs.Refusals.{answer as answer_to};

use iff::{Answer, Verdict};

// A `usize` as a `u64`.
pub fn wide(x: usize) -> u64
    ensures { result ≡ x }
{
    x as u64
}

// What a load or an amendment answers.
pub fn answer_of(v: Verdict, days: usize, services: u64) -> Answer
    ensures { result ≡ answer_to v days services }
{
    v?;
    Ok(iff::Accepted {
        days: wide(days),
        services,
    })
}
