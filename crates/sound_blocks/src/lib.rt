// One block of TIMETBLS, as "Soundness" of document 01 asks for it: its rows from its `#` to the next, and the block as a whole.
#![tactic(auto)]

ghost use Rattle.sound_row_walks.specs.Walk.{used_in, BlockAt};
ghost use Rattle.sound_blocks.specs.Blocks.{BlockTold};

// One block: its rows, that it may end with them, the counts of its `#` row, and the legs. The row behind it, if it is sound.
pub fn test_block(
    t: &[u64],
    from: usize,
    counts: references::BlockCounts,
    companies: &[u64],
    modes: &[u64],
    stations: &[u64],
    footnotes: &[u64],
    places: &[u32],
) -> Option<usize>
    requires { BlockAt t.now from (used_in t.now) }
    ensures { BlockTold counts companies.now modes.now stations.now footnotes.now
        t.now from (used_in t.now) result }
{
    let (block, to) = sound_row_walks::walk_rows(
        t, from, counts, companies, modes, stations, footnotes, places,
    )?;
    let lines = tables::word_at(t, tables::BLOCK_WIDTH, from, iff::words::LINE_COUNT);
    if lines != (to - from) as u64 {
        return None;
    }
    let stand = block.stand;
    if !order::is_finished(stand) {
        return None;
    }
    let stops = block.stops;
    let counted = tables::word_at(t, tables::BLOCK_WIDTH, from, iff::words::STOP_COUNT);
    if counted != stops {
        return None;
    }
    if !row_legs::are_right(t, from, to, stops) {
        return None;
    }
    Some(to)
}
