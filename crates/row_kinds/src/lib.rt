// The tests of one row of a TIMETBLS block by the kind of its record, over the row's words.
#![tactic(auto)]

ghost use Rattle.std.specs.Prelude.{◌≡◌, true, ◌&&◌, eqb, ltb};
ghost use Rattle.iff.specs.Lists.{has};
ghost use Rattle.iff.specs.Values.{code_right};
ghost use Rattle.iff.specs.declared.RowFile.TheVariants.{Company, Trnsmode, Stations};
ghost use Rattle.iff.specs.declared.GroupFile.TheVariants.{Footnote};
ghost use Rattle.iff.specs.declared.File.TheVariants.{Rows, Groups};
ghost use Rattle.keys.specs.Lookup.{keys_among};

use iff::{File, GroupFile, RowFile};

// Places that a record does not use.
pub fn are_zero(a: u64, b: u64, d: u64, e: u64) -> bool
    ensures { result ≡ (eqb 0 a && (eqb 0 b && (eqb 0 d && (eqb 0 e && true)))) }
{
    if 0 != a {
        return false;
    }
    if 0 != b {
        return false;
    }
    if 0 != d {
        return false;
    }
    0 == e
}

// KINDS: the words of a record, its unused places (`rest`), its times (`means`), and what it names. The places are a hint where to look, and may say
// anything. Each kind is asked at one place, so that the compiler puts its lookup there.

// `#`: a service. Its row counts the block's lines and stops behind it.
pub fn is_service(service: u64, rest: bool) -> bool
    ensures { result ≡ ((ltb service 100000000 && true) && rest) }
{
    if 100000000 <= service {
        return false;
    }
    rest
}

// `%`: a company and a number.
pub fn is_train(
    company: u64,
    number: u64,
    rest: bool,
    used: usize,
    companies: &[u64],
    places: &[u32],
) -> bool
    ensures { result ≡ (((ltb company 1000 && (ltb number 100000 && true)) && rest)
        && has company (keys_among (Rows Company) used companies.now)) }
{
    if 1000 <= company {
        return false;
    }
    if 100000 <= number {
        return false;
    }
    if !rest {
        return false;
    }
    lookups::names_at(
        File::Rows(RowFile::Company),
        companies,
        used,
        places,
        company,
    )
}

// `-`: a footnote.
pub fn is_validity(
    footnote: u64,
    rest: bool,
    used: usize,
    footnotes: &[u64],
    places: &[u32],
) -> bool
    ensures { result ≡ (((ltb footnote 100000 && true) && rest)
        && has footnote (keys_among (Groups Footnote) used footnotes.now)) }
{
    if 100000 <= footnote {
        return false;
    }
    if !rest {
        return false;
    }
    lookups::names_at(
        File::Groups(GroupFile::Footnote),
        footnotes,
        used,
        places,
        footnote,
    )
}

// `&`: a mode.
pub fn is_transport(mode: u64, rest: bool, used: usize, modes: &[u64], places: &[u32]) -> bool
    ensures { result ≡ (((code_right 4 mode && true) && rest)
        && has mode (keys_among (Rows Trnsmode) used modes.now)) }
{
    if !codes::is_code(mode, 4) {
        return false;
    }
    if !rest {
        return false;
    }
    lookups::names_at(File::Rows(RowFile::Trnsmode), modes, used, places, mode)
}

// `*`: an attribute, whose code is not looked up, and a footnote.
pub fn is_attribute(
    code: u64,
    footnote: u64,
    rest: bool,
    used: usize,
    footnotes: &[u64],
    places: &[u32],
) -> bool
    ensures { result ≡ (((code_right 4 code && (ltb footnote 100000 && true)) && rest)
        && has footnote (keys_among (Groups Footnote) used footnotes.now)) }
{
    if !codes::is_code(code, 4) {
        return false;
    }
    if 100000 <= footnote {
        return false;
    }
    if !rest {
        return false;
    }
    lookups::names_at(
        File::Groups(GroupFile::Footnote),
        footnotes,
        used,
        places,
        footnote,
    )
}

// `+`: a station and two times.
pub fn is_interval(
    station: u64,
    arrival: u64,
    departure: u64,
    rest: bool,
    means: bool,
    used: usize,
    stations: &[u64],
    places: &[u32],
) -> bool
    ensures { result ≡ (((code_right 7 station && (ltb arrival 10000 && (ltb departure 10000 && true))) && rest)
        && (means && has station (keys_among (Rows Stations) used stations.now))) }
{
    if !codes::is_code(station, 7) {
        return false;
    }
    if 10000 <= arrival {
        return false;
    }
    if 10000 <= departure {
        return false;
    }
    if !rest {
        return false;
    }
    if !means {
        return false;
    }
    lookups::names_at(
        File::Rows(RowFile::Stations),
        stations,
        used,
        places,
        station,
    )
}

// `;`: a station.
pub fn is_passed(station: u64, rest: bool, used: usize, stations: &[u64], places: &[u32]) -> bool
    ensures { result ≡ (((code_right 7 station && true) && rest)
        && has station (keys_among (Rows Stations) used stations.now)) }
{
    if !codes::is_code(station, 7) {
        return false;
    }
    if !rest {
        return false;
    }
    lookups::names_at(
        File::Rows(RowFile::Stations),
        stations,
        used,
        places,
        station,
    )
}

// `?`: a footnote.
pub fn is_platform(
    footnote: u64,
    rest: bool,
    used: usize,
    footnotes: &[u64],
    places: &[u32],
) -> bool
    ensures { result ≡ (((ltb footnote 100000 && true) && rest)
        && has footnote (keys_among (Groups Footnote) used footnotes.now)) }
{
    if 100000 <= footnote {
        return false;
    }
    if !rest {
        return false;
    }
    lookups::names_at(
        File::Groups(GroupFile::Footnote),
        footnotes,
        used,
        places,
        footnote,
    )
}

// `>`, `.`, `<`: a station and a time.
pub fn is_plain_stop(
    station: u64,
    time: u64,
    rest: bool,
    means: bool,
    used: usize,
    stations: &[u64],
    places: &[u32],
) -> bool
    ensures { result ≡ (((code_right 7 station && (ltb time 10000 && true)) && rest)
        && (means && has station (keys_among (Rows Stations) used stations.now))) }
{
    if !codes::is_code(station, 7) {
        return false;
    }
    if 10000 <= time {
        return false;
    }
    if !rest {
        return false;
    }
    if !means {
        return false;
    }
    lookups::names_at(
        File::Rows(RowFile::Stations),
        stations,
        used,
        places,
        station,
    )
}
