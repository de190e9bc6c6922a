// The lines of a file of rows after its first: every line's tests in their order, its row into the table, and the first fault.
#![tactic(auto)]

ghost use Rattle.std.specs.Prelude.{◌≡◌, List, [], ◌+◌, ◌^◌, ◌<◌, length};
ghost use Rattle.iff.specs.Lines.{Line, lines};
ghost use Rattle.iff.specs.Tables.{row_width};
ghost use Rattle.iff.specs.declared.File.TheVariants.{Rows};
ghost use Rattle.iff_rules.specs.Rows.{Context};
ghost use Rattle.records.specs.Layouts.{line_of};
ghost use Rattle.references.specs.Agree.{StationKeys, StationKeysAmong};
ghost use Rattle.row_marks.specs.Remembered.{Remembers};
ghost use Rattle.fresh_texts.specs.Texts.{as_line};
ghost use Rattle.file_rows.specs.Tests.{plain_row_test, long_from, names_others};
ghost use Rattle.file_rows.specs.Plain.{PlainRow, PlainLine, Earlier, RowStored, LineAdded, PlainBegun, RowsOf};

use fresh_keys::KeyRun;
use iff::{File, Form, GroupFile, Reason, RowFile, Test};
use references::StationCounts;

// The tests of a row, in their order: values, duplicates by key and by text, references.
fn plain_row_test(
    file: RowFile,
    count: usize,
    run: KeyRun,
    before: &[u8],
    line: &[u8],
    row: &[u64],
    t: &[u64],
    countries: &[u64],
    zones: &[u64],
    counts: StationCounts,
    places: &[u32],
    marks: &[u8],
) -> Test
    requires { PlainRow file row.now before.now t.now run marks.now }
    ensures { (c : Context) → StationKeysAmong c counts countries.now zones.now → (earlier : List Line)
        → Earlier c file count before.now t.now earlier
        → result ≡ plain_row_test c file earlier (as_line line.now) row.now }
{
    if !meanings::row_means(file, count, row) {
        return Err(Reason::Value);
    }
    let k = keys::key_word(File::Rows(file));
    if !row_marks::is_key_new(file, marks, run, t, row[k]) {
        return Err(Reason::Duplicate);
    }
    if !row_marks::are_texts_new(file, marks, before, line) {
        return Err(Reason::Duplicate);
    }
    if !row_references::met_by_row(file, row, countries, zones, counts, places) {
        return Err(Reason::Reference);
    }
    Ok(())
}

// A row's tests, and the row put after those that are there: its key.
fn store_row(
    file: RowFile,
    count: usize,
    run: KeyRun,
    before: &[u8],
    line: &[u8],
    row: &[u64],
    t: &mut [u64],
    countries: &[u64],
    zones: &[u64],
    counts: StationCounts,
    places: &[u32],
    marks: &[u8],
) -> Result<u64, iff::Reason>
    requires { PlainRow file row.now before.now t.old run marks.now × PlainLine file count before.now t.old run marks.now }
    ensures { RowStored file count before.now counts countries.now zones.now
        (as_line line.now) row.now t.old t.new result }
{
    plain_row_test(
        file, count, run, before, line, row, t, countries, zones, counts, places, marks,
    )?;
    let k = keys::key_word(File::Rows(file));
    table_writes::put_row(t, row.len(), count + 1, row);
    Ok(row[k])
}

// A line's row read into `row`, its tests, and the row put after those that are there: its key.
fn add_row(
    file: RowFile,
    form: Form,
    count: usize,
    run: KeyRun,
    before: &[u8],
    line: &[u8],
    ended: bool,
    row: &mut [u64],
    t: &mut [u64],
    countries: &[u64],
    zones: &[u64],
    counts: StationCounts,
    places: &[u32],
    marks: &[u8],
) -> Result<u64, iff::Reason>
    requires { (length row.old ≡ row_width (Rows file)) × PlainLine file count before.now t.old run marks.now }
    ensures { LineAdded file form count before.now counts countries.now zones.now
        (line_of line.now ended) t.old t.new result }
{
    let kind = records::row_record(file);
    record_lines::read_line(kind, iff::tags::LETTERLESS, form, line, ended, row)?;
    store_row(
        file, count, run, before, line, row, t, countries, zones, counts, places, marks,
    )
}

// One line: its tests, and its row put after the rows that are there: its key.
fn add_line(
    file: RowFile,
    form: Form,
    count: usize,
    run: KeyRun,
    before: &[u8],
    line: &[u8],
    ended: bool,
    t: &mut [u64],
    countries: &[u64],
    zones: &[u64],
    counts: StationCounts,
    places: &[u32],
    marks: &[u8],
) -> Result<u64, iff::Reason>
    requires { PlainLine file count before.now t.old run marks.now }
    ensures { LineAdded file form count before.now counts countries.now zones.now
        (line_of line.now ended) t.old t.new result }
{
    let w = tables::row_width(File::Rows(file));
    let mut row = [0u64; iff::limits::WIDEST_ROW];
    add_row(
        file,
        form,
        count,
        run,
        before,
        line,
        ended,
        &mut row[..w],
        t,
        countries,
        zones,
        counts,
        places,
        marks,
    )
}

// The rows of a file after its first line, from `from` on: the first fault, or all of them, with whether their keys rise. Each row is marked.
fn add_rows(
    file: RowFile,
    form: Form,
    text: &[u8],
    from: usize,
    t: &mut [u64],
    countries: &[u64],
    zones: &[u64],
    counts: StationCounts,
    places: &[u32],
    marks: &mut [u8],
) -> Result<bool, iff::Fault>
    requires { PlainBegun file text.now from t.old × Remembers marks.old [] }
    ensures { RowsOf file form (λ c. StationKeysAmong c counts countries.now zones.now)
        text.now from t.old t.new result }
{
    let mut run = fresh_keys::no_keys();
    let mut at = from;
    let mut count: usize = 0;
    // A loop by hand: each line is held against the bytes before it, so where it begins is needed, and a line alone does not tell that.
    while at < text.len() {
        let s = text::line_at(text, at);
        let end = s.end;
        let ended = s.ended;
        let next = s.next;
        match add_line(
            file,
            form,
            count,
            run,
            &text[from..at],
            &text[at..end],
            ended,
            t,
            countries,
            zones,
            counts,
            places,
            marks,
        ) {
            Err(r) => {
                return Err(iff::Fault {
                    reason: r,
                    place: Some(iff::Place {
                        file: File::Rows(file),
                        ordinal: 0,
                        line: reading::line_number(count + 1),
                    }),
                });
            }
            Ok(key) => {
                run = fresh_keys::next_run(run, key);
                row_marks::mark_line(file, marks, key, &text[at..end]);
                at = next;
                count += 1;
            }
        }
    }
    Ok(run.rises)
}

// The same, with nothing marked yet.
fn read_marked(
    file: RowFile,
    form: Form,
    text: &[u8],
    from: usize,
    t: &mut [u64],
    countries: &[u64],
    zones: &[u64],
    counts: StationCounts,
    places: &[u32],
) -> Result<bool, iff::Fault>
    requires { PlainBegun file text.now from t.old }
    ensures { RowsOf file form (λ c. StationKeysAmong c counts countries.now zones.now)
        text.now from t.old t.new result }
{
    let mut marks = [0u8; row_marks::MARKS];
    add_rows(
        file, form, text, from, t, countries, zones, counts, places, &mut marks,
    )
}

// The same, with the places of what stations name found once. They share 65521 first slots, which is a prime number, and as many more as are
// tried for a key.
fn read_indexed(
    file: RowFile,
    form: Form,
    text: &[u8],
    from: usize,
    t: &mut [u64],
    countries: &[u64],
    zones: &[u64],
    counts: StationCounts,
) -> Result<bool, iff::Fault>
    requires { PlainBegun file text.now from t.old }
    ensures { RowsOf file form (λ c. StationKeysAmong c counts countries.now zones.now)
        text.now from t.old t.new result }
{
    let mut places = [0u32; 65585];
    places::index_rows(
        File::Rows(RowFile::Country),
        countries,
        counts.countries,
        &mut places,
    );
    places::index_rows(
        File::Groups(GroupFile::Timezone),
        zones,
        counts.zones,
        &mut places,
    );
    read_marked(file, form, text, from, t, countries, zones, counts, &places)
}

// The same, with no marks and no places: each key and each text is searched for.
fn read_short(
    file: RowFile,
    form: Form,
    text: &[u8],
    from: usize,
    t: &mut [u64],
    countries: &[u64],
    zones: &[u64],
    counts: StationCounts,
) -> Result<bool, iff::Fault>
    requires { PlainBegun file text.now from t.old }
    ensures { RowsOf file form (λ c. StationKeysAmong c counts countries.now zones.now)
        text.now from t.old t.new result }
{
    let no_places = [0u32; 1];
    let mut no_marks = [0u8; 1];
    add_rows(
        file,
        form,
        text,
        from,
        t,
        countries,
        zones,
        counts,
        &no_places,
        &mut no_marks,
    )
}

// How long a text is from which on marks are worth their clearing. STATIONS has no texts, and its keys mostly rise.
fn long_from(file: RowFile) -> usize
    ensures { result ≡ long_from file }
{
    match file {
        RowFile::Company => 2048,
        RowFile::Country => 2048,
        RowFile::Trnsmode => 2048,
        RowFile::Stations => 65536,
    }
}

// Of these files only STATIONS names what is in others.
fn names_others(file: RowFile) -> bool
    ensures { result ≡ names_others file }
{
    match file {
        RowFile::Company => false,
        RowFile::Country => false,
        RowFile::Trnsmode => false,
        RowFile::Stations => true,
    }
}

// The rows of a file after its first line, by whichever way is quickest: whether their keys rise.
pub fn read_rows(
    file: RowFile,
    form: Form,
    text: &[u8],
    from: usize,
    t: &mut [u64],
    countries: &[u64],
    zones: &[u64],
) -> Result<bool, iff::Fault>
    requires { PlainBegun file text.now from t.old }
    ensures { RowsOf file form (λ c. StationKeys c countries.now zones.now)
        text.now from t.old t.new result }
{
    let counts = references::count_for_stations(countries, zones);
    if text.len() < long_from(file) {
        return read_short(file, form, text, from, t, countries, zones, counts);
    }
    if names_others(file) {
        return read_indexed(file, form, text, from, t, countries, zones, counts);
    }
    let no_places = [0u32; 1];
    read_marked(
        file, form, text, from, t, countries, zones, counts, &no_places,
    )
}
