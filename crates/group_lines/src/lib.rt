// One line of a group, in TIMEZONE, FOOTNOTE, CHANGES, XFOOTNOTE or XCHANGES: where its tests pass, its row into the table.
#![tactic(auto)]

ghost use Rattle.std.specs.Prelude.{◌≡◌, length};
ghost use Rattle.iff.specs.Tables.{row_width};
ghost use Rattle.iff.specs.declared.File.TheVariants.{Groups};
ghost use Rattle.records.specs.Layouts.{line_of};
ghost use Rattle.references.specs.Agree.{GroupKeysAmong};
ghost use Rattle.open_groups.specs.Open.{Beside, group_for};
ghost use Rattle.group_lines.specs.Facts.{add_due, line_due, LineDone};

use iff::{File, Form, GroupFile, Reason};
use open_groups::Open;
use references::GroupCounts;

// A line was put to its group; or it opens a group where the last one may not end, which is the fault of the line before it; or it is refused.
#[derive(Clone, Copy)]
pub enum LinePut {
    Put(Open),
    Early,
    Refused(Reason),
}

// Puts a line to a group, where its tests pass: its row goes behind the `rows` rows of the table, and is marked.
fn add_row(
    file: GroupFile,
    form: Form,
    line: &[u8],
    ended: bool,
    rows: usize,
    group: Open,
    t: &mut [u64],
    counts: GroupCounts,
    companies: &[u64],
    modes: &[u64],
    stations: &[u64],
    services: &[u64],
    places: &[u32],
    xfootnotes: &[u64],
    row: &mut [u64],
    marks: &mut [u8],
) -> LinePut
    requires { Beside file rows group t.old marks.old × (length row.old ≡ row_width (Groups file)) }
    ensures { LineDone file form rows group
        (λ c. GroupKeysAmong c counts companies.now modes.now stations.now services.now
        xfootnotes.now)
        (add_due file rows group (line_of line.now ended) t.old)
        (line_of line.now ended) t.old t.new marks.old marks.new result }
{
    match group_tests::test_row(
        file, form, line, ended, rows, group, t, counts, companies, modes, stations, services,
        places, xfootnotes, row, marks,
    ) {
        Err(r) => LinePut::Refused(r),
        Ok(()) => {
            table_writes::put_row(t, row.len(), rows, row);
            let from = rows - group.size + 1;
            group_marks::remember(file, from, row, marks);
            let after = open_groups::open_after(
                group,
                row[iff::words::TAG],
                row[iff::words::NAMED],
            );
            LinePut::Put(after)
        }
    }
}

// The same, with a row of its own to work in.
fn add_line(
    file: GroupFile,
    form: Form,
    line: &[u8],
    ended: bool,
    rows: usize,
    group: Open,
    t: &mut [u64],
    counts: GroupCounts,
    companies: &[u64],
    modes: &[u64],
    stations: &[u64],
    services: &[u64],
    places: &[u32],
    xfootnotes: &[u64],
    marks: &mut [u8],
) -> LinePut
    requires { Beside file rows group t.old marks.old }
    ensures { LineDone file form rows group
        (λ c. GroupKeysAmong c counts companies.now modes.now stations.now services.now
        xfootnotes.now)
        (add_due file rows group (line_of line.now ended) t.old)
        (line_of line.now ended) t.old t.new marks.old marks.new result }
{
    let mut row = [0u64; iff::limits::WIDEST_ROW];
    let w = tables::row_width(File::Groups(file));
    add_row(
        file,
        form,
        line,
        ended,
        rows,
        group,
        t,
        counts,
        companies,
        modes,
        stations,
        services,
        places,
        xfootnotes,
        &mut row[..w],
        marks,
    )
}

// One line after a group of some lines: a `#` opens the next group, where that one may end.
pub fn group_line(
    file: GroupFile,
    form: Form,
    line: &[u8],
    ended: bool,
    rows: usize,
    group: Open,
    t: &mut [u64],
    counts: GroupCounts,
    companies: &[u64],
    modes: &[u64],
    stations: &[u64],
    services: &[u64],
    places: &[u32],
    xfootnotes: &[u64],
    marks: &mut [u8],
) -> LinePut
    requires { Beside file rows group t.old marks.old }
    ensures { LineDone file form rows (group_for group (line_of line.now ended))
        (λ c. GroupKeysAmong c counts companies.now modes.now stations.now services.now
        xfootnotes.now)
        (line_due file rows group (line_of line.now ended) t.old)
        (line_of line.now ended) t.old t.new marks.old marks.new result }
{
    if text::first_byte(line) == b'#' {
        let stand = group.stand;
        if !group_order::may_end(file, stand) {
            return LinePut::Early;
        }
        let run = group.run;
        let next = open_groups::opening(run);
        return add_line(
            file, form, line, ended, rows, next, t, counts, companies, modes, stations, services,
            places, xfootnotes, marks,
        );
    }
    add_line(
        file, form, line, ended, rows, group, t, counts, companies, modes, stations, services,
        places, xfootnotes, marks,
    )
}
