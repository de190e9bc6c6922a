// One block of TIMETBLS after others: tested with what is known of their services, and its rows put behind theirs.
#![tactic(auto)]

ghost use Rattle.std.specs.Prelude.{◌+◌, ◌*◌, ◌≤◌, ◌<◌, length};
ghost use Rattle.iff.specs.declared.File.TheVariants.{Timetbls};
ghost use Rattle.iff.specs.Tables.{row_width};
ghost use Rattle.iff_rules.specs.Rows.{lines_in, as_block};
ghost use Rattle.block_puts.specs.Puts.{BlockPlaced, BlockJudged, Triable, BlockTried, Addable, BlockAdded};

use new_services::{Newness, after_block, tell_new};

// What became of a block that was put: what is remembered of the services with it, where the next block's rows go, and whether its service was told
// to be new.
#[derive(Clone, Copy)]
pub struct BlockPut {
    pub run: fresh_keys::KeyRun,
    pub row: usize,
    pub told: bool,
}

// A block that the quick reader left, checked, and then written in the place of what that reader put there.
fn check_then_write(
    block: &[u8],
    form: iff::Form,
    fresh: bool,
    t: &mut [u64],
    row: usize,
    counts: references::BlockCounts,
    companies: &[u64],
    modes: &[u64],
    stations: &[u64],
    footnotes: &[u64],
    places: &[u32],
) -> Result<blocks::BlockSize, blocks::LineFault>
    requires { (row + lines_in (as_block block.now)) * row_width Timetbls ≤ length t.old }
    ensures { BlockPlaced form block.now fresh counts
        companies.now modes.now stations.now footnotes.now t.old t.new row result }
{
    let size = blocks::check_block(
        block, form, fresh, counts, companies, modes, stations, footnotes, places,
    )?;
    block_rows::write_block(block, form, size.lines, size.stops, t, row);
    Ok(size)
}

// A block, of so many lines and stops as it is thought, with its rows behind the first `row` rows, if it is whole: at one look if it is told to
// be right, else as above.
fn place_block(
    block: &[u8],
    form: iff::Form,
    fresh: bool,
    t: &mut [u64],
    row: usize,
    counts: references::BlockCounts,
    companies: &[u64],
    modes: &[u64],
    stations: &[u64],
    footnotes: &[u64],
    places: &[u32],
    lines: u64,
    stops: u64,
) -> Result<blocks::BlockSize, blocks::LineFault>
    requires { (0 < length block.now) × ((row + lines_in (as_block block.now)) * row_width Timetbls ≤ length t.old) }
    ensures { BlockPlaced form block.now fresh counts
        companies.now modes.now stations.now footnotes.now t.old t.new row result }
{
    match quick_blocks::put_block(
        block, form, fresh, t, row, counts, companies, modes, stations, footnotes, places, lines,
        stops,
    ) {
        Some(size) => Ok(size),
        None => check_then_write(
            block, form, fresh, t, row, counts, companies, modes, stations, footnotes, places,
        ),
    }
}

// A block that is at fault though its service was taken for new: its fault may be another one if the service came before, so that is found out now.
fn judge_again(
    block: &[u8],
    form: iff::Form,
    t: &mut [u64],
    row: usize,
    counts: references::BlockCounts,
    companies: &[u64],
    modes: &[u64],
    stations: &[u64],
    footnotes: &[u64],
    places: &[u32],
) -> Result<blocks::BlockSize, blocks::LineFault>
    requires { (row + lines_in (as_block block.now)) * row_width Timetbls ≤ length t.old }
    ensures { BlockJudged form block.now counts
        companies.now modes.now stations.now footnotes.now t.old t.new row result }
{
    let service = block_services::service_of(block);
    let came = lookups::names_among(iff::File::Timetbls, t, row, service);
    check_then_write(
        block, form, !came, t, row, counts, companies, modes, stations, footnotes, places,
    )
}

// A block whose service is new, or taken for new, or not: its fault is found whichever it is.
fn try_block(
    block: &[u8],
    form: iff::Form,
    new: Newness,
    t: &mut [u64],
    row: usize,
    counts: references::BlockCounts,
    companies: &[u64],
    modes: &[u64],
    stations: &[u64],
    footnotes: &[u64],
    places: &[u32],
    lines: u64,
    stops: u64,
) -> Result<blocks::BlockSize, blocks::LineFault>
    requires { Triable form block.now t.old new row }
    ensures { BlockTried form block.now t.old t.new counts
        companies.now modes.now stations.now footnotes.now row new result }
{
    match place_block(
        block, form, new.fresh, t, row, counts, companies, modes, stations, footnotes, places,
        lines, stops,
    ) {
        Ok(size) => Ok(size),
        Err(fault) => {
            if new.told {
                return Err(fault);
            }
            judge_again(
                block, form, t, row, counts, companies, modes, stations, footnotes, places,
            )
        }
    }
}

// One block: tested, and its rows put behind the `row` rows that the table holds.
pub fn add_block(
    block: &[u8],
    form: iff::Form,
    run: fresh_keys::KeyRun,
    marks: &mut [u8],
    row: usize,
    t: &mut [u64],
    counts: references::BlockCounts,
    companies: &[u64],
    modes: &[u64],
    stations: &[u64],
    footnotes: &[u64],
    places: &[u32],
    lines: u64,
    stops: u64,
    search: bool,
) -> Result<BlockPut, blocks::LineFault>
    requires { Addable block.now t.old marks.old run row }
    ensures { BlockAdded form block.now t.old t.new marks.new counts
        companies.now modes.now stations.now footnotes.now row search result }
{
    let service = block_services::service_of(block);
    let new = tell_new(search, run, marks, t, row, service);
    let size = try_block(
        block, form, new, t, row, counts, companies, modes, stations, footnotes, places, lines,
        stops,
    )?;
    let next = row + size.lines as usize;
    Ok(BlockPut {
        run: after_block(run, marks, block),
        row: next,
        told: new.told,
    })
}
