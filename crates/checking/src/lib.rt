// The check program's work: the files of a folder read, checked and reported.
#![tactic(auto)]

ghost use Rattle.std.specs.Prelude.{◌≡◌};
ghost use Rattle.iff.specs.Files.{eleven};
ghost use Rattle.iff_rules.specs.Load.{load_answer};
ghost use Rattle.text_puts.specs.Texts.{Appended, Front};
ghost use Rattle.reports.specs.Report.{report_line};
ghost use Rattle.checking.specs.Check.{room_for64, checked, FolderChecked};

use folders::read_named;
use iff::{Answer, File, GroupFile, RowFile};
use reports::Report;
use std::fs;
use std::fs::Files;

// A file's bytes. One byte more is read, so that a larger file is told by its length.
const MOST_BYTES: usize = 4096;

const READ_BYTES: usize = MOST_BYTES + 1;

// A table's lines. Most rows have 6 words, those of TIMETBLS and XCHANGES have 7, and those with a vector's marks the most.
const LINES: usize = 64;

const WORDS: usize = LINES * 6;

const WORDS_BY_SEVEN: usize = LINES * 7;

const WORDS_OF_MARKS: usize = LINES * iff::limits::WIDEST_ROW;

// A load into tables of its own, with room for 64 lines each.
fn load_small(
    delivery: &[u8],
    company: &[u8],
    country: &[u8],
    trnsmode: &[u8],
    timezone: &[u8],
    stations: &[u8],
    footnote: &[u8],
    timetbls: &[u8],
    changes: &[u8],
    xfootnote: &[u8],
    xchanges: &[u8],
) -> Answer
    ensures { result ≡ load_answer
        (eleven delivery.now company.now country.now trnsmode.now
        timezone.now stations.now footnote.now timetbls.now
        changes.now xfootnote.now xchanges.now)
        room_for64 }
{
    let mut t_delivery = [0u64; WORDS];
    let mut t_company = [0u64; WORDS];
    let mut t_country = [0u64; WORDS];
    let mut t_trnsmode = [0u64; WORDS];
    let mut t_timezone = [0u64; WORDS];
    let mut t_stations = [0u64; WORDS];
    let mut t_footnote = [0u64; WORDS_OF_MARKS];
    let mut t_timetbls = [0u64; WORDS_BY_SEVEN];
    let mut t_changes = [0u64; WORDS];
    let mut t_xfootnote = [0u64; WORDS_OF_MARKS];
    let mut t_xchanges = [0u64; WORDS_BY_SEVEN];
    load::load(
        delivery,
        company,
        country,
        trnsmode,
        timezone,
        stations,
        footnote,
        timetbls,
        changes,
        xfootnote,
        xchanges,
        &mut t_delivery,
        &mut t_company,
        &mut t_country,
        &mut t_trnsmode,
        &mut t_timezone,
        &mut t_stations,
        &mut t_footnote,
        &mut t_timetbls,
        &mut t_changes,
        &mut t_xfootnote,
        &mut t_xchanges,
    )
}

// What the check program says of eleven files.
fn check(
    delivery: &[u8],
    company: &[u8],
    country: &[u8],
    trnsmode: &[u8],
    timezone: &[u8],
    stations: &[u8],
    footnote: &[u8],
    timetbls: &[u8],
    changes: &[u8],
    xfootnote: &[u8],
    xchanges: &[u8],
) -> Report
    ensures { result ≡ checked
        (eleven delivery.now company.now country.now trnsmode.now
        timezone.now stations.now footnote.now timetbls.now
        changes.now xfootnote.now xchanges.now) }
{
    let sizes = sizes::lengths(
        MOST_BYTES,
        delivery.len(),
        company.len(),
        country.len(),
        trnsmode.len(),
        timezone.len(),
        stations.len(),
        footnote.len(),
        timetbls.len(),
        changes.len(),
        xfootnote.len(),
        xchanges.len(),
    );
    match sizes {
        Err(fault) => Report::Larger(fault.place),
        Ok(()) => Report::Answered(load_small(
            delivery, company, country, trnsmode, timezone, stations, footnote, timetbls, changes,
            xfootnote, xchanges,
        )),
    }
}

// The report's line of eleven files, at the front of a buffer, and its length.
pub fn check_files(
    delivery: &[u8],
    company: &[u8],
    country: &[u8],
    trnsmode: &[u8],
    timezone: &[u8],
    stations: &[u8],
    footnote: &[u8],
    timetbls: &[u8],
    changes: &[u8],
    xfootnote: &[u8],
    xchanges: &[u8],
    out: &mut [u8],
) -> usize
    ensures front { Front result out.new }
    ensures appended { Appended out.old 0
        (report_line (checked
        (eleven delivery.now company.now country.now trnsmode.now
        timezone.now stations.now footnote.now timetbls.now
        changes.now xfootnote.now xchanges.now)))
        out.new result }
{
    let report = check(
        delivery, company, country, trnsmode, timezone, stations, footnote, timetbls, changes,
        xfootnote, xchanges,
    );
    reports::put_report(report, out)
}

// Checks a folder, whose path is empty or ends in `/`, and puts the report's line at the front of a buffer. Each file is read under its own
// name, and a file of 4,097 bytes or more counts as one of 4,097, which is larger than is allowed.
pub fn check_folder(files: &impl Files<File = fs::File>, folder: &[u8], out: &mut [u8]) -> usize
    ensures front { Front result out.new }
    ensures folder_checked { FolderChecked folder.now out.old out.new result }
{
    let mut b_delivery = [0u8; READ_BYTES];
    let n_delivery = read_named(files, File::Delivery, folder, &mut b_delivery);
    let delivery = &b_delivery[..n_delivery];
    let mut b_company = [0u8; READ_BYTES];
    let n_company = read_named(files, File::Rows(RowFile::Company), folder, &mut b_company);
    let company = &b_company[..n_company];
    let mut b_country = [0u8; READ_BYTES];
    let n_country = read_named(files, File::Rows(RowFile::Country), folder, &mut b_country);
    let country = &b_country[..n_country];
    let mut b_trnsmode = [0u8; READ_BYTES];
    let n_trnsmode = read_named(
        files,
        File::Rows(RowFile::Trnsmode),
        folder,
        &mut b_trnsmode,
    );
    let trnsmode = &b_trnsmode[..n_trnsmode];
    let mut b_timezone = [0u8; READ_BYTES];
    let n_timezone = read_named(
        files,
        File::Groups(GroupFile::Timezone),
        folder,
        &mut b_timezone,
    );
    let timezone = &b_timezone[..n_timezone];
    let mut b_stations = [0u8; READ_BYTES];
    let n_stations = read_named(
        files,
        File::Rows(RowFile::Stations),
        folder,
        &mut b_stations,
    );
    let stations = &b_stations[..n_stations];
    let mut b_footnote = [0u8; READ_BYTES];
    let n_footnote = read_named(
        files,
        File::Groups(GroupFile::Footnote),
        folder,
        &mut b_footnote,
    );
    let footnote = &b_footnote[..n_footnote];
    let mut b_timetbls = [0u8; READ_BYTES];
    let n_timetbls = read_named(files, File::Timetbls, folder, &mut b_timetbls);
    let timetbls = &b_timetbls[..n_timetbls];
    let mut b_changes = [0u8; READ_BYTES];
    let n_changes = read_named(
        files,
        File::Groups(GroupFile::Changes),
        folder,
        &mut b_changes,
    );
    let changes = &b_changes[..n_changes];
    let mut b_xfootnote = [0u8; READ_BYTES];
    let n_xfootnote = read_named(
        files,
        File::Groups(GroupFile::Xfootnote),
        folder,
        &mut b_xfootnote,
    );
    let xfootnote = &b_xfootnote[..n_xfootnote];
    let mut b_xchanges = [0u8; READ_BYTES];
    let n_xchanges = read_named(
        files,
        File::Groups(GroupFile::Xchanges),
        folder,
        &mut b_xchanges,
    );
    let xchanges = &b_xchanges[..n_xchanges];
    check_files(
        delivery, company, country, trnsmode, timezone, stations, footnote, timetbls, changes,
        xfootnote, xchanges, out,
    )
}
