// The places of what CHANGES and XCHANGES name, found before their first line or row: a hint where to look. Of the services, of which there may be far
// more than there are slots, those alone that are named have a place.
#![tactic(auto)]

ghost use Rattle.std.specs.Prelude.{◌≡◌, false, ◌+◌, ◌*◌, ◌≤◌, length};

use iff::{File, GroupFile, RowFile, tags, words};
use references::GroupCounts;

// SERVICES of CHANGES

// Asks for those of a line. Nothing is tested here: what is no pair of services asks for what is not there.
fn ask_in_line(line: &[u8], places: &mut [u32])
    ensures { length places.new ≡ length places.old }
{
    if text::first_byte(line) == b'-' {
        places::ask(places, text::number(text::columns_of(line, 1, 9)));
        places::ask(places, text::number(text::columns_of(line, 10, 18)));
    }
}

// Asks for those of the lines from `from` on, and finds their rows.
pub fn index_in_lines(text: &[u8], from: usize, services: &[u64], used: usize, places: &mut [u32])
    ensures { length places.new ≡ length places.old }
{
    for line in text_lines::lines_from(text, from) {
        ask_in_line(line.body, places);
    }
    places::index_asked(services, used, places);
}

// Asks for a service that has no place yet, and tells whether any was asked for so far. Where none was, the slots are as they were.
pub fn ask_missing(
    so_far: bool,
    services: &[u64],
    used: usize,
    places: &mut [u32],
    service: u64,
) -> bool
    ensures { (length places.new ≡ length places.old)
        × (result ≡ false → (so_far ≡ false) × (places.new ≡ places.old)) }
{
    if let Some(_) = key_places::found_by_place(File::Timetbls, services, used, places, service) {
        return so_far;
    }
    places::ask(places, service);
    true
}

// Asks for those of row `i` of a table, likewise.
fn ask_in_row(
    so_far: bool,
    t: &[u64],
    w: usize,
    i: usize,
    services: &[u64],
    used: usize,
    places: &mut [u32],
) -> bool
    requires { (6 ≤ w) × (i * w + w ≤ length t.now) }
    ensures { (length places.new ≡ length places.old)
        × (result ≡ false → (so_far ≡ false) × (places.new ≡ places.old)) }
{
    if tables::word_at(t, w, i, words::TAG) != tags::DASH {
        return so_far;
    }
    let from = tables::word_at(t, w, i, words::FROM_SERVICE);
    let to = tables::word_at(t, w, i, words::TO_SERVICE);
    let one = ask_missing(so_far, services, used, places, from);
    ask_missing(one, services, used, places, to)
}

// The same of the first rows of a table, in places that hold many services already: where all that are named are among them, no service is gone
// through and no slot is changed. It tells whether any was asked for.
pub fn index_in_rows(
    t: &[u64],
    rows: usize,
    services: &[u64],
    used: usize,
    places: &mut [u32],
) -> bool
    ensures { (length places.new ≡ length places.old) × (result ≡ false → places.new ≡ places.old) }
{
    let w = tables::row_width(File::Groups(GroupFile::Changes));
    let end = keys::rows_among(t, w, rows);
    let mut asked = false;
    for i in 0..end {
        asked = ask_in_row(asked, t, w, i, services, used, places);
    }
    if asked {
        places::index_asked(services, used, places);
    }
    asked
}

// WHAT A FILE NAMES

// What exceptions name beside stations.
fn index_sides(
    counts: GroupCounts,
    companies: &[u64],
    modes: &[u64],
    xfootnotes: &[u64],
    places: &mut [u32],
)
    ensures { length places.new ≡ length places.old }
{
    places::index_rows(
        File::Rows(RowFile::Company),
        companies,
        counts.companies,
        places,
    );
    places::index_rows(File::Rows(RowFile::Trnsmode), modes, counts.modes, places);
    places::index_rows(
        File::Groups(GroupFile::Xfootnote),
        xfootnotes,
        counts.xfootnotes,
        places,
    );
}

// What lines from `from` on name beside stations.
fn index_others(
    file: GroupFile,
    text: &[u8],
    from: usize,
    counts: GroupCounts,
    companies: &[u64],
    modes: &[u64],
    services: &[u64],
    xfootnotes: &[u64],
    places: &mut [u32],
)
    ensures { length places.new ≡ length places.old }
{
    if let GroupFile::Changes = file {
        index_in_lines(text, from, services, counts.services, places);
        return;
    }
    index_sides(counts, companies, modes, xfootnotes, places);
}

// All that lines from `from` on name: stations and, in CHANGES, services; in XCHANGES companies, modes and footnotes. The services are the first to be
// put, since their numbers stand in the slots before their rows do.
pub fn index_named(
    file: GroupFile,
    text: &[u8],
    from: usize,
    counts: GroupCounts,
    companies: &[u64],
    modes: &[u64],
    stations: &[u64],
    services: &[u64],
    xfootnotes: &[u64],
    places: &mut [u32],
)
    ensures { length places.new ≡ length places.old }
{
    index_others(
        file, text, from, counts, companies, modes, services, xfootnotes, places,
    );
    places::index_rows(
        File::Rows(RowFile::Stations),
        stations,
        counts.stations,
        places,
    );
}
