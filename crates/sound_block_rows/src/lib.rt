// One row of a TIMETBLS block, as "Soundness" of document 01 asks for it: where it stands, its words, its number in the block, and what it names.
#![tactic(auto)]

ghost use Rattle.std.specs.Prelude.{◌≡◌, ◌+◌, ◌≤◌, length};
ghost use Rattle.iff.specs.Tables.{row_width};
ghost use Rattle.iff.specs.declared.File.TheVariants.{Timetbls};
ghost use Rattle.iff_rules.specs.Order.{is_stop};
ghost use Rattle.iff_rules.specs.Legs.{one};
ghost use Rattle.iff_rules.specs.Meaning.{most_stops};
ghost use Rattle.sound_block_rows.specs.Told.{RowTold};

use iff::words;

// One stop more after the record of a stop.
fn stops_after(stops: u64, tag: u64) -> u64
    requires { stops ≤ most_stops }
    ensures { result ≡ stops + one (is_stop tag) }
{
    if order::is_stop(tag) {
        return stops + 1;
    }
    stops
}

// A row of a block, where the rows before it lead to `block`, as line `line` of the block: where the block stands after it, if it is sound.
pub fn after_row(
    row: &[u64],
    block: iff::InBlock,
    line: u64,
    counts: references::BlockCounts,
    companies: &[u64],
    modes: &[u64],
    stations: &[u64],
    footnotes: &[u64],
    places: &[u32],
) -> Option<iff::InBlock>
    requires { (length row.now ≡ row_width Timetbls) × (block.stops ≤ most_stops) }
    ensures { RowTold counts companies.now modes.now stations.now footnotes.now
        block line row.now result }
{
    let number = row[words::LINE_NUMBER];
    if number != line {
        return None;
    }
    let stand = block.stand;
    let tag = row[words::TAG];
    let to = order::goes_by_tag(stand, tag)?;
    let stops = block.stops;
    if !row_tests::is_right(
        row, stops, counts, companies, modes, stations, footnotes, places,
    ) {
        return None;
    }
    Some(iff::InBlock {
        stand: to,
        stops: stops_after(stops, tag),
    })
}
