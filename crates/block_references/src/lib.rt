// What a line of a TIMETBLS block names in other files is there: document 01's References, for blocks. Rows in use are counted once (`references`).
#![tactic(auto)]

ghost use Rattle.std.specs.Prelude.{◌≡◌, ◌≤◌, length};
ghost use Rattle.iff_rules.specs.Rows.{Context};
ghost use Rattle.iff_rules.specs.References.{met_in_block};
ghost use Rattle.references.specs.Agree.{BlockKeysAmong};

use iff::{File, GroupFile, RowFile, tags, words};
use references::BlockCounts;

// What a line of a TIMETBLS block names is there. The attribute's own code is not looked up. The places are a hint where to look, and may say anything.
pub fn met_in_block(
    row: &[u64],
    counts: BlockCounts,
    companies: &[u64],
    modes: &[u64],
    stations: &[u64],
    footnotes: &[u64],
    places: &[u32],
) -> bool
    requires { 5 ≤ length row.now }
    ensures { (c : Context)
        → BlockKeysAmong c counts companies.now modes.now stations.now footnotes.now
        → result ≡ met_in_block c row.now }
{
    let tag = row[words::TAG];
    let name = row[words::NAMED];
    let footnote = row[words::ATTRIBUTE_FOOTNOTE];
    if tag == tags::HASH {
        return true;
    }
    if tag == tags::PERCENT {
        return lookups::names_at(
            File::Rows(RowFile::Company),
            companies,
            counts.companies,
            places,
            name,
        );
    }
    if tag == tags::DASH {
        return lookups::names_at(
            File::Groups(GroupFile::Footnote),
            footnotes,
            counts.footnotes,
            places,
            name,
        );
    }
    if tag == tags::AMPERSAND {
        return lookups::names_at(
            File::Rows(RowFile::Trnsmode),
            modes,
            counts.modes,
            places,
            name,
        );
    }
    if tag == tags::ASTERISK {
        return lookups::names_at(
            File::Groups(GroupFile::Footnote),
            footnotes,
            counts.footnotes,
            places,
            footnote,
        );
    }
    if tag == tags::QUESTION {
        return lookups::names_at(
            File::Groups(GroupFile::Footnote),
            footnotes,
            counts.footnotes,
            places,
            name,
        );
    }
    lookups::names_at(
        File::Rows(RowFile::Stations),
        stations,
        counts.stations,
        places,
        name,
    )
}
