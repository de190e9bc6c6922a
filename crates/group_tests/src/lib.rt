// The tests of one line of a group, in TIMEZONE, FOOTNOTE, CHANGES, XFOOTNOTE or XCHANGES, in their order, and its row.
#![tactic(auto)]

ghost use Rattle.std.specs.Prelude.{◌≡◌, ◌&&◌, length, drop};
ghost use Rattle.iff.specs.Tables.{row_width};
ghost use Rattle.iff.specs.declared.File.TheVariants.{Groups};
ghost use Rattle.iff_rules.specs.Rows.{Context};
ghost use Rattle.iff_rules.specs.Unique.{fresh_key, fresh_in_group};
ghost use Rattle.records.specs.Layouts.{line_of};
ghost use Rattle.keys.specs.Lookup.{keys_in};
ghost use Rattle.references.specs.Agree.{GroupKeysAmong};
ghost use Rattle.group_tests.specs.Tests.{place_test, group_row_test};
ghost use Rattle.open_groups.specs.Open.{open_rows, Beside};
ghost use Rattle.group_tests.specs.Facts.{RowMade, RowTested};

use iff::{File, Form, GroupFile, GroupStand, Reason, Test};
use open_groups::Open;
use references::GroupCounts;

// A line's first byte: known, and where it may stand.
fn place_test(file: GroupFile, stand: GroupStand, letter: u8) -> Test
    ensures { result ≡ place_test file stand letter }
{
    if !first_bytes::is_known_in_group(file, letter) {
        return Err(Reason::Layout);
    }
    let tag = first_bytes::group_tag(file, letter);
    if !group_order::may_follow(file, stand, tag) {
        return Err(Reason::Order);
    }
    Ok(())
}

// The tests of a line alone, and its row where they pass.
fn make_row(
    file: GroupFile,
    form: Form,
    stand: GroupStand,
    line: &[u8],
    ended: bool,
    row: &mut [u64],
) -> Test
    requires { length row.old ≡ row_width (Groups file) }
    ensures { RowMade file form stand (line_of line.now ended) row.old row.new result }
{
    let letter = text::first_byte(line);
    place_test(file, stand, letter)?;
    let kind = records::group_record(file, letter);
    let tag = first_bytes::group_tag(file, letter);
    record_lines::read_line(kind, tag, form, line, ended, row)
}

// A `#` names a key that no group before it has; another row shares with none of its group what no two may. Most are told to be new by their marks.
fn is_unique(
    file: GroupFile,
    rows: usize,
    group: Open,
    row: &[u64],
    t: &[u64],
    marks: &[u8],
) -> bool
    requires { Beside file rows group t.now marks.now × (length row.now ≡ row_width (Groups file)) }
    ensures { result ≡ (fresh_key (Groups file) (keys_in (Groups file) t.now) row.now
        && fresh_in_group file (drop 1 (open_rows file t.now rows group.size)) row.now) }
{
    let from = rows - group.size + 1;
    if group_marks::is_told_new(file, from, row, marks) {
        return true;
    }
    if row[iff::words::TAG] == iff::tags::HASH {
        let run = group.run;
        return fresh_keys::is_fresh(File::Groups(file), run, t, row[iff::words::NAMED]);
    }
    clashes::fresh_in_group(file, t, from, rows, row)
}

// The tests of a row, in their order: values, duplicates, references.
fn row_test(
    file: GroupFile,
    rows: usize,
    group: Open,
    row: &[u64],
    t: &[u64],
    counts: GroupCounts,
    companies: &[u64],
    modes: &[u64],
    stations: &[u64],
    services: &[u64],
    places: &[u32],
    xfootnotes: &[u64],
    marks: &[u8],
) -> Test
    requires { Beside file rows group t.now marks.now × (length row.now ≡ row_width (Groups file)) }
    ensures { (c : Context) → GroupKeysAmong c counts companies.now modes.now stations.now
        services.now xfootnotes.now
        → result ≡ group_row_test c file (keys_in (Groups file) t.now) (open_rows file t.now rows group.size)
        row.now }
{
    if !meanings::group_means(file, row) {
        return Err(Reason::Value);
    }
    if !is_unique(file, rows, group, row, t, marks) {
        return Err(Reason::Duplicate);
    }
    if !group_references::met_in_group(
        file, row, counts, companies, modes, stations, services, places, xfootnotes,
    ) {
        return Err(Reason::Reference);
    }
    Ok(())
}

// All tests of a line that is put to a group, and its row where they pass.
pub fn test_row(
    file: GroupFile,
    form: Form,
    line: &[u8],
    ended: bool,
    rows: usize,
    group: Open,
    t: &[u64],
    counts: GroupCounts,
    companies: &[u64],
    modes: &[u64],
    stations: &[u64],
    services: &[u64],
    places: &[u32],
    xfootnotes: &[u64],
    row: &mut [u64],
    marks: &[u8],
) -> Test
    requires { Beside file rows group t.now marks.now × (length row.old ≡ row_width (Groups file)) }
    ensures { RowTested file form rows group
        (λ c. GroupKeysAmong c counts companies.now modes.now stations.now services.now
        xfootnotes.now)
        (line_of line.now ended) t.now row.old row.new result }
{
    let stand = group.stand;
    make_row(file, form, stand, line, ended, row)?;
    row_test(
        file, rows, group, row, t, counts, companies, modes, stations, services, places,
        xfootnotes, marks,
    )
}
