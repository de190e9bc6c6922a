// The words of one row of a TIMETBLS block and what they name, as "Soundness" of document 01 asks for them. A row's tag is asked once: each kind of
// record has its tests in one place, in the crate `row_kinds`.
#![tactic(auto)]

ghost use Rattle.std.specs.Prelude.{◌≡◌, length};
ghost use Rattle.iff.specs.Tables.{row_width};
ghost use Rattle.iff.specs.declared.File.TheVariants.{Timetbls};
ghost use Rattle.iff_rules.specs.Rows.{Context};
ghost use Rattle.references.specs.Agree.{BlockKeysAmong};
ghost use Rattle.row_tests.specs.Tests.{row_tests};

use iff::{tags, words};

// A row's words and what they name, after some stops, by the kind of its record.
pub fn is_right(
    row: &[u64],
    stops: u64,
    counts: references::BlockCounts,
    companies: &[u64],
    modes: &[u64],
    stations: &[u64],
    footnotes: &[u64],
    places: &[u32],
) -> bool
    requires { length row.now ≡ row_width Timetbls }
    ensures { (c : Context)
        → BlockKeysAmong c counts companies.now modes.now stations.now footnotes.now
        → result ≡ row_tests c stops row.now }
{
    let name = row[words::NAMED];
    let second = row[2];
    let third = row[3];
    let fourth = row[4];
    let fifth = row[5];
    match row[words::TAG] {
        tags::HASH => row_kinds::is_service(name, row_kinds::are_zero(0, 0, fourth, fifth)),
        tags::PERCENT => row_kinds::is_train(
            name,
            second,
            row_kinds::are_zero(0, 0, 0, fifth),
            counts.companies,
            companies,
            places,
        ),
        tags::DASH => row_kinds::is_validity(
            name,
            row_kinds::are_zero(0, 0, fourth, fifth),
            counts.footnotes,
            footnotes,
            places,
        ),
        tags::AMPERSAND => row_kinds::is_transport(
            name,
            row_kinds::are_zero(0, 0, fourth, fifth),
            counts.modes,
            modes,
            places,
        ),
        tags::ASTERISK => row_kinds::is_attribute(
            name,
            fourth,
            row_kinds::are_zero(0, 0, 0, fifth),
            counts.footnotes,
            footnotes,
            places,
        ),
        tags::PLUS => row_kinds::is_interval(
            name,
            second,
            third,
            row_kinds::are_zero(0, 0, fourth, fifth),
            meanings::block_means(stops as usize, row),
            counts.stations,
            stations,
            places,
        ),
        tags::SEMICOLON => row_kinds::is_passed(
            name,
            row_kinds::are_zero(second, third, fourth, fifth),
            counts.stations,
            stations,
            places,
        ),
        tags::QUESTION => row_kinds::is_platform(
            name,
            row_kinds::are_zero(second, third, fourth, fifth),
            counts.footnotes,
            footnotes,
            places,
        ),
        _ => row_kinds::is_plain_stop(
            name,
            second,
            row_kinds::are_zero(0, third, fourth, fifth),
            meanings::block_means(stops as usize, row),
            counts.stations,
            stations,
            places,
        ),
    }
}
