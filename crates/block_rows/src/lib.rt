// The rows of one TIMETBLS block that was found whole, written into a table: each line's record, with its number in the block, and the counts of
// lines and stops in the `#` row. A load and an amendment share this.
#![tactic(auto)]

ghost use Rattle.std.specs.Prelude.{◌≡◌, true, ◌++◌, ◌+◌, ◌*◌, ◌≤◌, length, take, drop};
ghost use Rattle.iff.specs.Tables.{row_width, joined, put_row};
ghost use Rattle.iff.specs.declared.File.TheVariants.{Timetbls};
ghost use Rattle.iff_rules.specs.Rows.{as_block, block_row, block_rows};
ghost use Rattle.block_rows.specs.Written.{Readable, Placeable};

// The row of line `j` of a block of `k` lines and `n` stops: its record, and the line's number last. The `#` counts lines and stops.
fn fill_row(line: &[u8], form: iff::Form, k: u64, n: u64, j: u64, row: &mut [u64])
    requires { Readable form line.now (length row.old) × (length row.old ≡ row_width Timetbls) }
    ensures { row.new ≡ block_row form n k j (record { body = line.now; ended = true }) }
{
    let letter = text::first_byte(line);
    let kind = records::block_record(letter);
    record_lines::put_words(kind, letter as u64, form, n, line, row);
    row[iff::words::LINE_NUMBER] = j;
    if letter != b'#' {
        return;
    }
    row[iff::words::LINE_COUNT] = k;
    row[iff::words::STOP_COUNT] = n;
}

// The same, as row `i` of a table.
fn put_line(line: &[u8], form: iff::Form, k: u64, n: u64, j: u64, t: &mut [u64], i: usize)
    requires { Readable form line.now (row_width Timetbls) × (i * row_width Timetbls + row_width Timetbls ≤ length t.old) }
    ensures { t.new ≡ put_row (row_width Timetbls) t.old i
        (block_row form n k j (record { body = line.now; ended = true })) }
{
    let mut row = [0u64; tables::BLOCK_WIDTH];
    fill_row(line, form, k, n, j, &mut row);
    table_writes::put_row(t, tables::BLOCK_WIDTH, i, &row);
}

// The rows of a block of `k` lines and `n` stops that was found whole, from row `start` on. What stands before and behind them is kept.
pub fn write_block(block: &[u8], form: iff::Form, k: u64, n: u64, t: &mut [u64], start: usize)
    requires { Placeable form block.now t.old k n start }
    ensures { t.new ≡ take (start * row_width Timetbls) t.old
        ++ (joined (block_rows form (as_block block.now)) ++ drop ((start + k) * row_width Timetbls) t.old) }
{
    for (done, line) in text_lines::lines_of(block).enumerate() {
        put_line(line.body, form, k, n, done as u64 + 1, t, start + done);
    }
}
