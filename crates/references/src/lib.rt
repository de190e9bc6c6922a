// What document 01's References are looked up in: the rows in use of the tables that files name, and the keys among them; and DELIVERY's own company.
// That what a row names is there is asked in `block_references`, `row_references` and `group_references`.
#![tactic(auto)]

ghost use Rattle.std.specs.Prelude.{◌≡◌, List, ℕ};
ghost use Rattle.iff.specs.Refusals.{or_else};
ghost use Rattle.iff_rules.specs.Rows.{Context};
ghost use Rattle.references.specs.Agree.{BlockKeys, BlockKeysAmong, StationKeys, StationKeysAmong, GroupKeys, GroupKeysAmong};
ghost use Rattle.references.specs.Company.{company_named};

use iff::{File, GroupFile, Reason, RowFile, Verdict, words};

// `*` and blanks, packed as a company's three bytes and as a mode's four.
pub const ANY_COMPANY: u64 = 2760736;

pub const ANY_MODE: u64 = 706748448;

// ROWS IN USE, counted once for a file that is read, and not for each of its lines

// Of the tables that a block of TIMETBLS names.
#[derive(Clone, Copy)]
pub struct BlockCounts {
    pub companies: usize,
    pub modes: usize,
    pub stations: usize,
    pub footnotes: usize,
}

// Of the tables that a row of STATIONS names.
#[derive(Clone, Copy)]
pub struct StationCounts {
    pub countries: usize,
    pub zones: usize,
}

// Of the tables that files of groups name.
#[derive(Clone, Copy)]
pub struct GroupCounts {
    pub companies: usize,
    pub modes: usize,
    pub stations: usize,
    pub services: usize,
    pub xfootnotes: usize,
}

// Counts them. What the tables name is then named by these first rows.
pub fn count_for_blocks(
    companies: &[u64],
    modes: &[u64],
    stations: &[u64],
    footnotes: &[u64],
) -> BlockCounts
    ensures { (c : Context)
        → BlockKeys c companies.now modes.now stations.now footnotes.now
        → BlockKeysAmong c result companies.now modes.now stations.now footnotes.now }
{
    BlockCounts {
        companies: keys::used_rows(File::Rows(RowFile::Company), companies),
        modes: keys::used_rows(File::Rows(RowFile::Trnsmode), modes),
        stations: keys::used_rows(File::Rows(RowFile::Stations), stations),
        footnotes: keys::used_rows(File::Groups(GroupFile::Footnote), footnotes),
    }
}

// Counts those of STATIONS, likewise.
pub fn count_for_stations(countries: &[u64], zones: &[u64]) -> StationCounts
    ensures { (c : Context) → StationKeys c countries.now zones.now
        → StationKeysAmong c result countries.now zones.now }
{
    StationCounts {
        countries: keys::used_rows(File::Rows(RowFile::Country), countries),
        zones: keys::used_rows(File::Groups(GroupFile::Timezone), zones),
    }
}

// Counts those of the files of groups, but for the services': TIMETBLS is by far the largest table, and its rows were counted as they were read.
pub fn count_for_groups(
    companies: &[u64],
    modes: &[u64],
    stations: &[u64],
    service_rows: usize,
    xfootnotes: &[u64],
) -> GroupCounts
    ensures { (c : Context) (se : List ℕ)
        → GroupKeys c service_rows companies.now modes.now stations.now se xfootnotes.now
        → GroupKeysAmong c result companies.now modes.now stations.now se xfootnotes.now }
{
    GroupCounts {
        companies: keys::used_rows(File::Rows(RowFile::Company), companies),
        modes: keys::used_rows(File::Rows(RowFile::Trnsmode), modes),
        stations: keys::used_rows(File::Rows(RowFile::Stations), stations),
        services: service_rows,
        xfootnotes: keys::used_rows(File::Groups(GroupFile::Xfootnote), xfootnotes),
    }
}

// DELIVERY

// 9: DELIVERY's company is not in COMPANY.
pub fn company_test(v: Verdict, delivery: &[u64], companies: &[u64]) -> Verdict
    ensures { result ≡ or_else v (company_named delivery.now companies.now) }
{
    match v {
        Err(_) => v,
        Ok(()) => {
            let own = tables::word_or_zero(delivery, words::OWN_COMPANY);
            if keys::names(File::Rows(RowFile::Company), companies, own) {
                return Ok(());
            }
            Err(iff::Fault {
                reason: Reason::Reference,
                place: Some(iff::Place {
                    file: File::Delivery,
                    ordinal: 0,
                    line: 1,
                }),
            })
        }
    }
}
