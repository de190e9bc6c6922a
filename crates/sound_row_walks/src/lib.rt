// The rows of one block of TIMETBLS, as "Soundness" of document 01 asks for them, from its `#` to the next.
#![tactic(auto)]

ghost use Rattle.std.specs.Prelude.{◌≡◌, false, ◌&&◌, ◌+◌, ◌*◌, ◌≤◌, ltb, length};
ghost use Rattle.iff.specs.Tables.{row_at, row_width, is_hash_row};
ghost use Rattle.iff.specs.declared.File.TheVariants.{Timetbls};
ghost use Rattle.iff_rules.specs.Meaning.{most_stops};
ghost use Rattle.sound_block_rows.specs.Told.{RowTold};
ghost use Rattle.sound_row_walks.specs.Walk.{used_in, BlockAt, BlockWalked};

// Row `i` begins another block than the one that begins in row `from`.
fn is_next_head(t: &[u64], from: usize, i: usize) -> bool
    requires { i * row_width Timetbls + row_width Timetbls ≤ length t.now }
    ensures { result ≡ (ltb from i && is_hash_row (row_at (row_width Timetbls) t.now i)) }
{
    if from < i {
        return tables::word_at(t, tables::BLOCK_WIDTH, i, iff::words::TAG) == iff::tags::HASH;
    }
    false
}

// Row `i` of the table, as line `line` of a block.
fn after_at(
    t: &[u64],
    i: usize,
    block: iff::InBlock,
    line: u64,
    counts: references::BlockCounts,
    companies: &[u64],
    modes: &[u64],
    stations: &[u64],
    footnotes: &[u64],
    places: &[u32],
) -> Option<iff::InBlock>
    requires { (i * row_width Timetbls + row_width Timetbls ≤ length t.now) × (block.stops ≤ most_stops) }
    ensures { RowTold counts companies.now modes.now stations.now footnotes.now
        block line (row_at (row_width Timetbls) t.now i) result }
{
    let at = i * tables::BLOCK_WIDTH;
    let end = at + tables::BLOCK_WIDTH;
    sound_block_rows::after_row(
        &t[at..end],
        block,
        line,
        counts,
        companies,
        modes,
        stations,
        footnotes,
        places,
    )
}

// The rows of a block one after the other, up to the next `#` or the end of the rows in use: where they lead and the row behind them, if each is sound.
pub fn walk_rows(
    t: &[u64],
    from: usize,
    counts: references::BlockCounts,
    companies: &[u64],
    modes: &[u64],
    stations: &[u64],
    footnotes: &[u64],
    places: &[u32],
) -> Option<(iff::InBlock, usize)>
    requires { BlockAt t.now from (used_in t.now) }
    ensures { BlockWalked counts companies.now modes.now stations.now footnotes.now
        t.now from (used_in t.now) result }
{
    let room = t.len() / tables::BLOCK_WIDTH;
    let mut block = iff::InBlock {
        stand: iff::Stand::Start,
        stops: 0,
    };
    for i in from..room {
        if tables::word_at(t, tables::BLOCK_WIDTH, i, iff::words::TAG) == 0 {
            return Some((block, i));
        }
        if is_next_head(t, from, i) {
            return Some((block, i));
        }
        let line = i - from + 1;
        block = after_at(
            t,
            i,
            block,
            line as u64,
            counts,
            companies,
            modes,
            stations,
            footnotes,
            places,
        )?;
    }
    Some((block, room))
}
