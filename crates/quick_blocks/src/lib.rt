// A TIMETBLS block that is right, read in one pass: each line is told to be right where it stands, and its row is put into the table at once.
// What is not told to be right here is left to the readers that name faults: nothing is said of it but that rows before the block's and behind
// them are as they were, so that those readers' rows, as many as the block has lines, stand where rows of it were put.
#![tactic(auto)]

ghost use Rattle.std.specs.Prelude.{◌≡◌, true, ◌+◌, ◌*◌, ◌≤◌, ◌<◌, length};
ghost use Rattle.iff.specs.Tables.{row_width};
ghost use Rattle.iff.specs.declared.File.TheVariants.{Timetbls};
ghost use Rattle.iff_rules.specs.Rows.{lines_in, as_block};
ghost use Rattle.block_lines.specs.Lines.{keys_from};
ghost use Rattle.row_legs.specs.Blocks.{BlockOfStops};
ghost use Rattle.quick_blocks.specs.Drive.{Drivable, Drove};
ghost use Rattle.quick_blocks.specs.Whole.{WholeSeen, QuickPut};

// THE LINES OF A BLOCK

// All lines from `from` on, before which `before` lines lead to `start`: their rows put behind the first `row` rows and those of the lines before.
// A platform record is handed to the reader of platforms: so the two are called within each other once for each platform record, however many other
// lines there are. How many lines' rows were put, and how the block stands at its end; or nothing is said of it.
#[cycle(read_platform_read_stops)]
fn read_stops(
    block: &[u8],
    from: usize,
    before: usize,
    form: iff::Form,
    start: iff::InBlock,
    n: u64,
    k: u64,
    t: &mut [u64],
    row: usize,
    counts: references::BlockCounts,
    companies: &[u64],
    modes: &[u64],
    stations: &[u64],
    footnotes: &[u64],
    places: &[u32],
) -> Option<(usize, iff::InBlock)>
    requires { Drivable block.now from before start row t.old }
    ensures { Drove form
        (keys_from form counts companies.now modes.now stations.now footnotes.now)
        block.now n k row t.old from start before t.new result }
{
    let mut at = from;
    let mut done = before;
    let mut st = start;
    // A loop by hand: how far a line goes is known only once its record was read, so no range says it.
    while at < block.len() {
        let number = done + 1;
        let letter = block[at];
        if letter == b'?' {
            return read_platform(
                block, at, done, form, st, n, k, t, row, counts, companies, modes, stations,
                footnotes, places,
            );
        }
        match quick_steps::put_line(
            letter,
            block,
            at,
            form,
            st,
            n,
            k,
            number as u64,
            t,
            row + done,
            counts,
            companies,
            modes,
            stations,
            footnotes,
            places,
        ) {
            None => {
                return None;
            }
            Some((next, to)) => {
                at = next;
                done = number;
                st = to;
            }
        }
    }
    Some((done, st))
}

// One platform record, and then the stops again.
#[cycle(read_platform_read_stops)]
fn read_platform(
    block: &[u8],
    at: usize,
    before: usize,
    form: iff::Form,
    st: iff::InBlock,
    n: u64,
    k: u64,
    t: &mut [u64],
    row: usize,
    counts: references::BlockCounts,
    companies: &[u64],
    modes: &[u64],
    stations: &[u64],
    footnotes: &[u64],
    places: &[u32],
) -> Option<(usize, iff::InBlock)>
    requires { (at < length block.now) × Drivable block.now at before st row t.old }
    ensures { Drove form
        (keys_from form counts companies.now modes.now stations.now footnotes.now)
        block.now n k row t.old at st before t.new result }
{
    let number = before + 1;
    let (next, to) = quick_steps::put_platform(
        block[at],
        block,
        at,
        form,
        st,
        n,
        k,
        number as u64,
        t,
        row + before,
        counts,
        companies,
        modes,
        stations,
        footnotes,
        places,
    )?;
    read_stops(
        block, next, number, form, to, n, k, t, row, counts, companies, modes, stations, footnotes,
        places,
    )
}

// A WHOLE BLOCK

// A block of `lines` lines that lead to `st`, whose rows stand in the table from `row` on: it may end there, it has k lines and n stops, and its
// legs are right.
fn is_whole(t: &[u64], row: usize, lines: usize, st: iff::InBlock, n: u64, k: u64) -> bool
    requires { BlockOfStops t.now row (row + lines) st.stops }
    ensures { result ≡ true → WholeSeen t.now row lines st n k }
{
    let stand = st.stand;
    if !order::is_finished(stand) {
        return false;
    }
    if lines as u64 != k {
        return false;
    }
    let stops = st.stops;
    if stops != n {
        return false;
    }
    row_legs::are_right(t, row, row + lines, stops)
}

// A block whose service is new, of k lines and n stops as it is thought, with its rows put behind the first `row` rows. Where it is right it is
// told to be so; or it is left to others.
pub fn put_block(
    block: &[u8],
    form: iff::Form,
    fresh: bool,
    t: &mut [u64],
    row: usize,
    counts: references::BlockCounts,
    companies: &[u64],
    modes: &[u64],
    stations: &[u64],
    footnotes: &[u64],
    places: &[u32],
    k: u64,
    n: u64,
) -> Option<blocks::BlockSize>
    requires { (0 < length block.now) × ((row + lines_in (as_block block.now)) * row_width Timetbls ≤ length t.old) }
    ensures { QuickPut form block.now fresh counts
        companies.now modes.now stations.now footnotes.now t.old t.new row result }
{
    if !fresh {
        return None;
    }
    let start = iff::InBlock {
        stand: iff::Stand::Start,
        stops: 0,
    };
    let (lines, st) = read_stops(
        block, 0, 0, form, start, n, k, t, row, counts, companies, modes, stations, footnotes,
        places,
    )?;
    if !is_whole(t, row, lines, st, n, k) {
        return None;
    }
    Some(blocks::BlockSize { lines: k, stops: n })
}
