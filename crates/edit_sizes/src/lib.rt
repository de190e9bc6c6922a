// Tests 1 and 2 of TIMETBLS with a block in the place of some of its rows: the edited text by its lines' lengths, and its lines by the table's room.
#![tactic(auto)]

ghost use Rattle.std.specs.Prelude.{◌≡◌, ◌+◌, ◌-◌, ◌*◌, ◌≤◌, leb, length};
ghost use Rattle.iff.specs.Lists.{total};
ghost use Rattle.iff.specs.Files.{limit};
ghost use Rattle.iff.specs.Tables.{row_width, room};
ghost use Rattle.iff.specs.declared.File.TheVariants.{Timetbls};
ghost use Rattle.iff_desk.specs.Sound.{row_size, first_size};
ghost use Rattle.keys.specs.Blocks.{rows_between};
ghost use Rattle.edit_sizes.specs.Edits.{Editable, edited_bytes, sizes_verdict};

use iff::{File, Form, Reason, Record, Verdict};

// The bytes of a first line, with its CR LF.
fn first_length(form: Form) -> usize
    ensures { result ≡ first_size }
{
    row_sizes::record_length(Record::FirstRecord, form) + 2
}

// The bytes of the lines that the rows from `from` on and before `to` stand for, each with its CR LF.
fn lines_length(form: Form, t: &[u64], from: usize, to: usize) -> usize
    requires { (to * row_width Timetbls ≤ length t.now)
        × (total (row_size form Timetbls) (rows_between (row_width Timetbls) t.now from to) ≤ limit) }
    ensures { result ≡ total (row_size form Timetbls) (rows_between (row_width Timetbls) t.now from to) }
{
    let mut bytes: usize = 0;
    for i in from..to {
        let tag = tables::word_at(t, tables::BLOCK_WIDTH, i, iff::words::TAG);
        let n = row_sizes::record_length(shapes::record_of(File::Timetbls, tag), form);
        bytes += n + 2;
    }
    bytes
}

// Test 1: the lines that stay and a block of `bytes` bytes are no longer than a file may be.
fn fits_limit(form: Form, t: &[u64], used: usize, from: usize, to: usize, bytes: usize) -> bool
    requires { Editable form t.now used from to }
    ensures { result ≡ leb (edited_bytes form t.now used from to bytes) limit }
{
    let first = first_length(form);
    let before = lines_length(form, t, 1, from);
    let behind = lines_length(form, t, to, used);
    bytes <= iff::limits::LONGEST_FILE - (first + before + behind)
}

// Test 2: there is room for the rows that stay and for `lines` lines.
fn has_room(t: &[u64], used: usize, from: usize, to: usize, lines: usize) -> bool
    requires { (from ≤ to) × (to ≤ used) × (used * row_width Timetbls ≤ length t.now) }
    ensures { result ≡ leb (from + lines + (used - to)) (room Timetbls (length t.now)) }
{
    let room = tables::room(File::Timetbls, t.len());
    let stay = from + (used - to);
    lines <= room - stay
}

// "1 and 2 over TIMETBLS", with the block in the place of the rows from `from` on and before `to`.
pub fn test_sizes(
    form: Form,
    t: &[u64],
    used: usize,
    from: usize,
    to: usize,
    block: &[u8],
) -> Verdict
    requires { Editable form t.now used from to }
    ensures { result ≡ sizes_verdict form t.now used from to block.now }
{
    if !fits_limit(form, t, used, from, to, block.len()) {
        return Err(iff::Fault {
            reason: Reason::TooLong,
            place: Some(iff::Place {
                file: File::Timetbls,
                ordinal: 0,
                line: 0,
            }),
        });
    }
    if !has_room(t, used, from, to, line_counts::count_lines(block)) {
        return Err(iff::Fault {
            reason: Reason::NoRoom,
            place: Some(iff::Place {
                file: File::Timetbls,
                ordinal: 0,
                line: 0,
            }),
        });
    }
    Ok(())
}
