// The files of groups: TIMEZONE, FOOTNOTE, CHANGES, XFOOTNOTE, XCHANGES. Their lines in turn, and the first fault with its place.
#![tactic(auto)]

ghost use Rattle.std.specs.Prelude.{◌≡◌, true, map, ◌+◌, ◌^◌, ◌<◌, drop};
ghost use Rattle.iff.specs.Lines.{lines};
ghost use Rattle.iff.specs.Refusals.{fine};
ghost use Rattle.iff.specs.declared.File.TheVariants.{Groups};
ghost use Rattle.iff_rules.specs.Rows.{row_of};
ghost use Rattle.iff_rules.specs.Load.{groups_verdict};
ghost use Rattle.references.specs.Agree.{GroupKeys, GroupKeysAmong};
ghost use Rattle.reading.specs.Reading.{Ready, RowsDone, FileRead};
ghost use Rattle.group_files.specs.Begun.{first_in, names_others, GroupsBegun};

use group_lines::LinePut;
use iff::{File, Form, GroupFile, Reason, Verdict};
use references::GroupCounts;

// The lines from `from` on, the first of which is line 2 of the file. The table holds the first line's row, and theirs come behind it. Each row is
// marked, where there are marks. Whether their keys rise.
fn add_lines(
    file: GroupFile,
    form: Form,
    text: &[u8],
    from: usize,
    t: &mut [u64],
    counts: GroupCounts,
    companies: &[u64],
    modes: &[u64],
    stations: &[u64],
    services: &[u64],
    places: &[u32],
    xfootnotes: &[u64],
    marks: &mut [u8],
) -> Result<bool, iff::Fault>
    requires { GroupsBegun file text.now from t.old }
    ensures { RowsDone (Groups file) form
        (λ c. GroupKeysAmong c counts companies.now modes.now stations.now services.now
        xfootnotes.now)
        (λ c. groups_verdict c file (lines (drop from text.now))) (first_in file t.old)
        (map (row_of form (Groups file)) (lines (drop from text.now))) t.old t.new result }
{
    let mut read: usize = 0;
    let mut group = open_groups::opening(fresh_keys::no_keys());
    for line in text_lines::lines_from(text, from) {
        let rows = read + 1;
        match group_lines::group_line(
            file, form, line.body, line.ended, rows, group, t, counts, companies, modes, stations,
            services, places, xfootnotes, marks,
        ) {
            LinePut::Early => {
                return Err(iff::Fault {
                    reason: Reason::Order,
                    place: Some(iff::Place {
                        file: File::Groups(file),
                        ordinal: 0,
                        line: reading::line_number(read),
                    }),
                });
            }
            LinePut::Refused(r) => {
                return Err(iff::Fault {
                    reason: r,
                    place: Some(iff::Place {
                        file: File::Groups(file),
                        ordinal: 0,
                        line: reading::line_number(rows),
                    }),
                });
            }
            LinePut::Put(g) => {
                group = g;
                read = rows;
            }
        }
    }
    let stand = group.stand;
    if !group_order::may_end(file, stand) {
        return Err(iff::Fault {
            reason: Reason::Order,
            place: Some(iff::Place {
                file: File::Groups(file),
                ordinal: 0,
                line: reading::line_number(read),
            }),
        });
    }
    let run = group.run;
    Ok(run.rises)
}

// The same with marks, which are cleared before the first line.
fn add_marked(
    file: GroupFile,
    form: Form,
    text: &[u8],
    from: usize,
    t: &mut [u64],
    counts: GroupCounts,
    companies: &[u64],
    modes: &[u64],
    stations: &[u64],
    services: &[u64],
    places: &[u32],
    xfootnotes: &[u64],
) -> Result<bool, iff::Fault>
    requires { GroupsBegun file text.now from t.old }
    ensures { RowsDone (Groups file) form
        (λ c. GroupKeysAmong c counts companies.now modes.now stations.now services.now
        xfootnotes.now)
        (λ c. groups_verdict c file (lines (drop from text.now))) (first_in file t.old)
        (map (row_of form (Groups file)) (lines (drop from text.now))) t.old t.new result }
{
    let mut marks = [0u8; 524288];
    add_lines(
        file, form, text, from, t, counts, companies, modes, stations, services, places,
        xfootnotes, &mut marks,
    )
}

// The same with marks where there may be many lines: few are sooner compared with each other than the marks are cleared.
fn add_groups(
    file: GroupFile,
    form: Form,
    text: &[u8],
    from: usize,
    t: &mut [u64],
    counts: GroupCounts,
    companies: &[u64],
    modes: &[u64],
    stations: &[u64],
    services: &[u64],
    places: &[u32],
    xfootnotes: &[u64],
) -> Result<bool, iff::Fault>
    requires { GroupsBegun file text.now from t.old }
    ensures { RowsDone (Groups file) form
        (λ c. GroupKeysAmong c counts companies.now modes.now stations.now services.now
        xfootnotes.now)
        (λ c. groups_verdict c file (lines (drop from text.now))) (first_in file t.old)
        (map (row_of form (Groups file)) (lines (drop from text.now))) t.old t.new result }
{
    if 8192 < text.len() {
        return add_marked(
            file, form, text, from, t, counts, companies, modes, stations, services, places,
            xfootnotes,
        );
    }
    let mut no_marks = [0u8; 1];
    add_lines(
        file,
        form,
        text,
        from,
        t,
        counts,
        companies,
        modes,
        stations,
        services,
        places,
        xfootnotes,
        &mut no_marks,
    )
}

// A file whose rows name rows of other files.
fn names_others(file: GroupFile) -> bool
    ensures { result ≡ names_others file }
{
    match file {
        GroupFile::Timezone => false,
        GroupFile::Footnote => false,
        GroupFile::Changes => true,
        GroupFile::Xfootnote => false,
        GroupFile::Xchanges => true,
    }
}

// The same for a file whose rows name rows of other files: their places are found before the first line. There are 90001 first slots for
// them, which is a prime number, and as many more as are tried for a key: of 60,000 services that are named next to every one has a place, and with
// the marks of the rows and what TIMETBLS had the stack of a load stays under 1.5 MB.
fn add_placed(
    file: GroupFile,
    form: Form,
    text: &[u8],
    from: usize,
    t: &mut [u64],
    counts: GroupCounts,
    companies: &[u64],
    modes: &[u64],
    stations: &[u64],
    services: &[u64],
    xfootnotes: &[u64],
) -> Result<bool, iff::Fault>
    requires { GroupsBegun file text.now from t.old }
    ensures { RowsDone (Groups file) form
        (λ c. GroupKeysAmong c counts companies.now modes.now stations.now services.now
        xfootnotes.now)
        (λ c. groups_verdict c file (lines (drop from text.now))) (first_in file t.old)
        (map (row_of form (Groups file)) (lines (drop from text.now))) t.old t.new result }
{
    let mut places = [0u32; 90065];
    named_places::index_named(
        file,
        text,
        from,
        counts,
        companies,
        modes,
        stations,
        services,
        xfootnotes,
        &mut places,
    );
    add_groups(
        file, form, text, from, t, counts, companies, modes, stations, services, &places,
        xfootnotes,
    )
}

// The lines of any file of groups, with the rows in use of the other tables counted before the first, and not again; those of the services are
// known. Whether their keys rise.
fn read_groups(
    file: GroupFile,
    form: Form,
    text: &[u8],
    from: usize,
    t: &mut [u64],
    companies: &[u64],
    modes: &[u64],
    stations: &[u64],
    services: &[u64],
    xfootnotes: &[u64],
    service_rows: usize,
) -> Result<bool, iff::Fault>
    requires { GroupsBegun file text.now from t.old }
    ensures { RowsDone (Groups file) form
        (λ c. GroupKeys c service_rows companies.now modes.now stations.now services.now
        xfootnotes.now)
        (λ c. groups_verdict c file (lines (drop from text.now))) (first_in file t.old)
        (map (row_of form (Groups file)) (lines (drop from text.now))) t.old t.new result }
{
    let counts = references::count_for_groups(companies, modes, stations, service_rows, xfootnotes);
    if names_others(file) {
        return add_placed(
            file, form, text, from, t, counts, companies, modes, stations, services, xfootnotes,
        );
    }
    let no_places = [0u32; 1];
    add_groups(
        file, form, text, from, t, counts, companies, modes, stations, services, &no_places,
        xfootnotes,
    )
}

// A whole file of groups, after a verdict on what came before it: a fault is handed on, and an absent file has none. Services are looked up in the
// first `service_rows` rows of their table, which a caller who has read them has counted.
pub fn read_group_file(
    file: GroupFile,
    v: Verdict,
    form: Form,
    text: &[u8],
    header: &[u8],
    t: &mut [u64],
    companies: &[u64],
    modes: &[u64],
    stations: &[u64],
    services: &[u64],
    xfootnotes: &[u64],
    service_rows: usize,
) -> Verdict
    requires { fine v ≡ true → Ready (Groups file) text.now t.old }
    ensures { FileRead (Groups file) form
        (λ c. GroupKeys c service_rows companies.now modes.now stations.now services.now
        xfootnotes.now)
        header.now text.now v t.old t.new result }
{
    v?;
    if text.len() == 0 {
        return Ok(());
    }
    match heads::begin_file(File::Groups(file), text, header, t) {
        Err(r) => Err(iff::Fault {
            reason: r,
            place: Some(iff::Place {
                file: File::Groups(file),
                ordinal: 0,
                line: 1,
            }),
        }),
        Ok(from) => {
            let rises = read_groups(
                file,
                form,
                text,
                from,
                t,
                companies,
                modes,
                stations,
                services,
                xfootnotes,
                service_rows,
            )?;
            head_words::set_rises(t, rises);
            Ok(())
        }
    }
}
