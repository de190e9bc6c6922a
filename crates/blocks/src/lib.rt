// One TIMETBLS block, given as text, checked and not kept: its first fault with the line, or its numbers of lines and of stops.
// A load and an amendment share this check; what they write comes after it.
#![tactic(auto)]

ghost use Rattle.std.specs.Prelude.{◌≡◌, ◌≤◌, ◌<◌, length};
ghost use Rattle.iff_rules.specs.Meaning.{most_stops};
ghost use Rattle.block_lines.specs.Lines.{keys_from};
ghost use Rattle.blocks.specs.Drive.{drive_at, turn_to, Standing, TurnsTo};
ghost use Rattle.blocks.specs.Whole.{LinesRead, last_tests, BlockChecked};

// Why a block is refused, and at which of its lines, from 1.
#[derive(Clone, Copy)]
pub struct LineFault {
    pub reason: iff::Reason,
    pub line: u64,
}

// The lines and the stops of a block that is whole.
#[derive(Clone, Copy)]
pub struct BlockSize {
    pub lines: u64,
    pub stops: u64,
}

// THE LINES OF A BLOCK, where they stand in its text

fn turn_to(
    step: Result<iff::InBlock, iff::Reason>,
    next: usize,
) -> Result<(usize, iff::InBlock), iff::Reason>
    ensures { result ≡ turn_to step next }
{
    let st = step?;
    Ok((next, st))
}

// The line that starts at `at`: where the block stands after it, with the start of the next line.
fn line_at(
    block: &[u8],
    at: usize,
    form: iff::Form,
    st: iff::InBlock,
    fresh: bool,
    counts: references::BlockCounts,
    companies: &[u64],
    modes: &[u64],
    stations: &[u64],
    footnotes: &[u64],
    places: &[u32],
) -> Result<(usize, iff::InBlock), iff::Reason>
    requires { (at < length block.now) × (st.stops ≤ most_stops) }
    ensures { TurnsTo
        (keys_from form counts companies.now modes.now stations.now footnotes.now)
        fresh block.now at st result }
{
    let span = text::line_at(block, at);
    let end = span.end;
    turn_to(
        block_lines::block_line(
            &block[at..end],
            span.ended,
            form,
            st,
            fresh,
            counts,
            companies,
            modes,
            stations,
            footnotes,
            places,
        ),
        span.next,
    )
}

// All lines from `from` on, before which `before` lines lead to `start`. A platform record is handed to the reader of platforms: so the two are
// called within each other once for each platform record, however many other lines there are. They lead to where the block stands then and to how
// many lines there are.
#[cycle(read_platform_read_stops)]
fn read_stops(
    block: &[u8],
    from: usize,
    before: u64,
    form: iff::Form,
    start: iff::InBlock,
    fresh: bool,
    counts: references::BlockCounts,
    companies: &[u64],
    modes: &[u64],
    stations: &[u64],
    footnotes: &[u64],
    places: &[u32],
) -> Result<(iff::InBlock, u64), LineFault>
    requires { Standing block.now from before start }
    ensures { result ≡ drive_at
        (keys_from form counts companies.now modes.now stations.now footnotes.now)
        fresh block.now from start before }
{
    let mut at = from;
    let mut done = before;
    let mut st = start;
    // A loop by hand: at a platform record another reader goes on from where the line begins, and a line alone does not tell that.
    while at < block.len() {
        let number = done + 1;
        if block[at] == b'?' {
            return read_platform(
                block, at, done, form, st, fresh, counts, companies, modes, stations, footnotes,
                places,
            );
        }
        match line_at(
            block, at, form, st, fresh, counts, companies, modes, stations, footnotes, places,
        ) {
            Err(why) => {
                return Err(LineFault {
                    reason: why,
                    line: number,
                });
            }
            Ok((next, to)) => {
                at = next;
                done = number;
                st = to;
            }
        }
    }
    Ok((st, done))
}

// One platform record, and then the stops again.
#[cycle(read_platform_read_stops)]
fn read_platform(
    block: &[u8],
    at: usize,
    before: u64,
    form: iff::Form,
    st: iff::InBlock,
    fresh: bool,
    counts: references::BlockCounts,
    companies: &[u64],
    modes: &[u64],
    stations: &[u64],
    footnotes: &[u64],
    places: &[u32],
) -> Result<(iff::InBlock, u64), LineFault>
    requires { (at < length block.now) × Standing block.now at before st }
    ensures { result ≡ drive_at
        (keys_from form counts companies.now modes.now stations.now footnotes.now)
        fresh block.now at st before }
{
    let number = before + 1;
    match line_at(
        block, at, form, st, fresh, counts, companies, modes, stations, footnotes, places,
    ) {
        Err(why) => Err(LineFault {
            reason: why,
            line: number,
        }),
        Ok((next, to)) => read_stops(
            block, next, number, form, to, fresh, counts, companies, modes, stations, footnotes,
            places,
        ),
    }
}

// A WHOLE BLOCK

// What comes after the last line: whether the block may end there, and its legs.
fn last_tests(
    block: &[u8],
    form: iff::Form,
    st: iff::InBlock,
    lines: u64,
) -> Result<BlockSize, LineFault>
    requires { LinesRead form block.now st lines }
    ensures { result ≡ last_tests form block.now st lines }
{
    let stand = st.stand;
    if !order::is_finished(stand) {
        return Err(LineFault {
            reason: iff::Reason::Order,
            line: lines,
        });
    }
    let stops = st.stops;
    if !block_legs::are_right(block, form, stops) {
        return Err(LineFault {
            reason: iff::Reason::Legs,
            line: 1,
        });
    }
    Ok(BlockSize { lines, stops })
}

// The first fault of a block, or its lines and stops. `fresh` tells whether the service of its `#` is new. An empty text is one empty line.
// `places` is a hint where stations and footnotes stand, and may be empty.
pub fn check_block(
    block: &[u8],
    form: iff::Form,
    fresh: bool,
    counts: references::BlockCounts,
    companies: &[u64],
    modes: &[u64],
    stations: &[u64],
    footnotes: &[u64],
    places: &[u32],
) -> Result<BlockSize, LineFault>
    ensures { BlockChecked form block.now fresh counts companies.now modes.now
        stations.now footnotes.now result }
{
    if block.len() == 0 {
        return Err(LineFault {
            reason: iff::Reason::Layout,
            line: 1,
        });
    }
    let start = iff::InBlock {
        stand: iff::Stand::Start,
        stops: 0,
    };
    let (st, lines) = read_stops(
        block, 0, 0, form, start, fresh, counts, companies, modes, stations, footnotes, places,
    )?;
    last_tests(block, form, st, lines)
}
