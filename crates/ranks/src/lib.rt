// The rank of an exception: the place of its pattern on the desk's card.
#![tactic(auto)]

ghost use Rattle.std.specs.Prelude.{◌≡◌};
ghost use Rattle.iff_desk.specs.Card.{pattern, place_of, is_named};
ghost use Rattle.iff_desk.specs.Changing.{rank as rank_of};

use iff_desk::Riding;
use references::{ANY_COMPANY, ANY_MODE};

// A key is named: it is not the wildcard.
fn is_named(any: u64, key: u64) -> bool
    ensures { result ≡ is_named any key }
{
    key != any
}

// The card, from all wildcards to none.
fn place_of(from_company: bool, from_mode: bool, to_company: bool, to_mode: bool) -> u64
    ensures { result ≡ place_of (pattern from_company from_mode to_company to_mode) }
{
    match from_company {
        false => match from_mode {
            false => match to_company {
                false => match to_mode {
                    false => 0,
                    true => 1,
                },
                true => match to_mode {
                    false => 2,
                    true => 3,
                },
            },
            true => match to_company {
                false => match to_mode {
                    false => 4,
                    true => 5,
                },
                true => match to_mode {
                    false => 6,
                    true => 7,
                },
            },
        },
        true => match from_mode {
            false => match to_company {
                false => match to_mode {
                    false => 8,
                    true => 9,
                },
                true => match to_mode {
                    false => 10,
                    true => 11,
                },
            },
            true => match to_company {
                false => match to_mode {
                    false => 12,
                    true => 13,
                },
                true => match to_mode {
                    false => 14,
                    true => 15,
                },
            },
        },
    }
}

// By the four keys of an exception.
pub fn rank(from: Riding, to: Riding) -> u64
    ensures { result ≡ rank_of from to }
{
    place_of(
        is_named(ANY_COMPANY, from.company),
        is_named(ANY_MODE, from.mode),
        is_named(ANY_COMPANY, to.company),
        is_named(ANY_MODE, to.mode),
    )
}
