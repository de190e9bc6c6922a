// What a row of a file of rows names in other files is there: document 01's References, for STATIONS. Rows in use are counted once (`references`).
#![tactic(auto)]

ghost use Rattle.std.specs.Prelude.{◌≡◌, length};
ghost use Rattle.iff.specs.Tables.{row_width};
ghost use Rattle.iff.specs.declared.RowFile.TheVariants.{Stations};
ghost use Rattle.iff.specs.declared.File.TheVariants.{Rows};
ghost use Rattle.iff_rules.specs.Rows.{Context};
ghost use Rattle.iff_rules.specs.References.{met_by_row};
ghost use Rattle.references.specs.Agree.{StationKeysAmong};

use iff::{File, GroupFile, RowFile, words};
use references::StationCounts;

// A station's country and zone are there. The places are a hint where to look, and may say anything.
fn met_station(
    row: &[u64],
    countries: &[u64],
    zones: &[u64],
    counts: StationCounts,
    places: &[u32],
) -> bool
    requires { length row.now ≡ row_width (Rows Stations) }
    ensures { (c : Context) → StationKeysAmong c counts countries.now zones.now
        → result ≡ met_by_row c Stations row.now }
{
    if lookups::names_at(
        File::Rows(RowFile::Country),
        countries,
        counts.countries,
        places,
        row[words::STATION_COUNTRY],
    ) {
        return lookups::names_at(
            File::Groups(GroupFile::Timezone),
            zones,
            counts.zones,
            places,
            row[words::STATION_ZONE],
        );
    }
    false
}

// What a row of a file of rows names is there. Only STATIONS names anything.
pub fn met_by_row(
    file: RowFile,
    row: &[u64],
    countries: &[u64],
    zones: &[u64],
    counts: StationCounts,
    places: &[u32],
) -> bool
    requires { length row.now ≡ row_width (Rows file) }
    ensures { (c : Context) → StationKeysAmong c counts countries.now zones.now
        → result ≡ met_by_row c file row.now }
{
    match file {
        RowFile::Company => true,
        RowFile::Country => true,
        RowFile::Trnsmode => true,
        RowFile::Stations => met_station(row, countries, zones, counts, places),
    }
}
