// What a row of a file of groups names in other files is there: document 01's References, for CHANGES and XCHANGES. Rows in use are counted once
// (`references`).
#![tactic(auto)]

ghost use Rattle.std.specs.Prelude.{◌≡◌, ◌&&◌, ◌||◌, eqb, length};
ghost use Rattle.iff.specs.Lists.{has};
ghost use Rattle.iff.specs.Tables.{row_width};
ghost use Rattle.iff.specs.declared.RowFile.TheVariants.{Company, Trnsmode};
ghost use Rattle.iff.specs.declared.GroupFile.TheVariants.{Changes, Xchanges};
ghost use Rattle.iff.specs.declared.File.TheVariants.{Rows, Groups, Timetbls};
ghost use Rattle.iff_rules.specs.Rows.{Context};
ghost use Rattle.iff_rules.specs.References.{any_company, any_mode, met_in_group};
ghost use Rattle.keys.specs.Lookup.{keys_among};
ghost use Rattle.references.specs.Agree.{GroupKeysAmong, ChangeKeysAmong, ExceptionKeysAmong, met_side, met_sides};

use iff::{File, GroupFile, RowFile, tags, words};
use references::{ANY_COMPANY, ANY_MODE, GroupCounts};

// Both services of a pair are there. The places are a hint where to look, and may say anything.
fn met_pair(from: u64, to: u64, used: usize, services: &[u64], places: &[u32]) -> bool
    ensures { result ≡ (has from (keys_among Timetbls used services.now) && has to (keys_among Timetbls used services.now)) }
{
    if lookups::names_service(services, used, places, from) {
        return lookups::names_service(services, used, places, to);
    }
    false
}

// The station of a group of CHANGES is there, and the services of a pair.
fn met_change(
    row: &[u64],
    counts: GroupCounts,
    stations: &[u64],
    services: &[u64],
    places: &[u32],
) -> bool
    requires { length row.now ≡ row_width (Groups Changes) }
    ensures { (c : Context)
        → ChangeKeysAmong c counts stations.now services.now
        → result ≡ met_in_group c Changes row.now }
{
    if row[words::TAG] == tags::HASH {
        return lookups::names_at(
            File::Rows(RowFile::Stations),
            stations,
            counts.stations,
            places,
            row[words::NAMED],
        );
    }
    met_pair(
        row[words::FROM_SERVICE],
        row[words::TO_SERVICE],
        counts.services,
        services,
        places,
    )
}

// A company that an exception names; the wildcard is in no table.
fn met_company(company: u64, used: usize, companies: &[u64], places: &[u32]) -> bool
    ensures { result ≡ (eqb company any_company || has company (keys_among (Rows Company) used companies.now)) }
{
    if company == ANY_COMPANY {
        return true;
    }
    lookups::names_at(
        File::Rows(RowFile::Company),
        companies,
        used,
        places,
        company,
    )
}

// A mode that an exception names, likewise.
fn met_mode(mode: u64, used: usize, modes: &[u64], places: &[u32]) -> bool
    ensures { result ≡ (eqb mode any_mode || has mode (keys_among (Rows Trnsmode) used modes.now)) }
{
    if mode == ANY_MODE {
        return true;
    }
    lookups::names_at(File::Rows(RowFile::Trnsmode), modes, used, places, mode)
}

// One side of an exception: the service changed from, or the one changed to.
fn met_side(
    company: u64,
    mode: u64,
    counts: GroupCounts,
    companies: &[u64],
    modes: &[u64],
    places: &[u32],
) -> bool
    ensures { result ≡ met_side counts companies.now modes.now company mode }
{
    if met_company(company, counts.companies, companies, places) {
        return met_mode(mode, counts.modes, modes, places);
    }
    false
}

// Both sides of an exception, and its footnote, which is in XFOOTNOTE.
fn met_sides(
    row: &[u64],
    counts: GroupCounts,
    companies: &[u64],
    modes: &[u64],
    places: &[u32],
    xfootnotes: &[u64],
) -> bool
    requires { length row.now ≡ row_width (Groups Xchanges) }
    ensures { result ≡ met_sides counts companies.now modes.now xfootnotes.now row.now }
{
    if met_side(
        row[words::FROM_COMPANY],
        row[words::FROM_MODE],
        counts,
        companies,
        modes,
        places,
    ) {
        if met_side(
            row[words::TO_COMPANY],
            row[words::TO_MODE],
            counts,
            companies,
            modes,
            places,
        ) {
            return lookups::names_at(
                File::Groups(GroupFile::Xfootnote),
                xfootnotes,
                counts.xfootnotes,
                places,
                row[words::EXCEPTION_FOOTNOTE],
            );
        }
        return false;
    }
    false
}

// The station of a group of XCHANGES is there, and what an exception names.
fn met_exception(
    row: &[u64],
    counts: GroupCounts,
    companies: &[u64],
    modes: &[u64],
    stations: &[u64],
    places: &[u32],
    xfootnotes: &[u64],
) -> bool
    requires { length row.now ≡ row_width (Groups Xchanges) }
    ensures { (c : Context)
        → ExceptionKeysAmong c counts companies.now modes.now stations.now xfootnotes.now
        → result ≡ met_in_group c Xchanges row.now }
{
    if row[words::TAG] == tags::HASH {
        return lookups::names_at(
            File::Rows(RowFile::Stations),
            stations,
            counts.stations,
            places,
            row[words::NAMED],
        );
    }
    met_sides(row, counts, companies, modes, places, xfootnotes)
}

// What a row of a file of groups names is there. Zones and footnotes name nothing.
pub fn met_in_group(
    file: GroupFile,
    row: &[u64],
    counts: GroupCounts,
    companies: &[u64],
    modes: &[u64],
    stations: &[u64],
    services: &[u64],
    places: &[u32],
    xfootnotes: &[u64],
) -> bool
    requires { length row.now ≡ row_width (Groups file) }
    ensures { (c : Context)
        → GroupKeysAmong c counts companies.now modes.now stations.now services.now
        xfootnotes.now
        → result ≡ met_in_group c file row.now }
{
    match file {
        GroupFile::Timezone => true,
        GroupFile::Footnote => true,
        GroupFile::Changes => met_change(row, counts, stations, services, places),
        GroupFile::Xfootnote => true,
        GroupFile::Xchanges => met_exception(
            row, counts, companies, modes, stations, places, xfootnotes,
        ),
    }
}
