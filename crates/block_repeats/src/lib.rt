// All blocks of TIMETBLS, with the first service that came twice: the first fault with its place, or how many rows and services there are.
#![tactic(auto)]

ghost use Rattle.std.specs.Prelude.{◌≡◌, ◌≤◌, length};
ghost use Rattle.iff.specs.declared.File.TheVariants.{Timetbls};
ghost use Rattle.iff.specs.Tables.{row_width};
ghost use Rattle.block_walks.specs.Blocks.{BlocksReady, first_alone, BlocksAdded};

// What stands behind the first row is cleared: the table is as it was before the first block.
fn clear_blocks(t: &mut [u64])
    requires { row_width Timetbls ≤ length t.old }
    ensures { t.new ≡ first_alone t.old }
{
    let behind = tables::BLOCK_WIDTH;
    table_writes::clear(&mut t[behind..]);
}

// The blocks, with the first service that came twice found out at the end, where not each was told to be new. Its block was put, so nothing else is
// wrong with it, and no block before it is at fault. Where that cannot be told, all is read again with a search for each.
pub fn walk_blocks(
    text: &[u8],
    from: usize,
    form: iff::Form,
    marks: &mut [u8],
    t: &mut [u64],
    counts: references::BlockCounts,
    companies: &[u64],
    modes: &[u64],
    stations: &[u64],
    footnotes: &[u64],
    places: &[u32],
) -> Result<block_walks::BlocksPut, iff::Fault>
    requires { BlocksReady text.now from t.old marks.old }
    ensures { BlocksAdded form text.now from counts
        companies.now modes.now stations.now footnotes.now t.old t.new result }
{
    let walk = block_walks::add_blocks(
        text, from, form, marks, t, counts, companies, modes, stations, footnotes, places, false,
    );
    if walk.sure {
        return walk.put;
    }
    match repeats::first_repeat(t, walk.row, walk.done) {
        repeats::Repeats::Never => walk.put,
        repeats::Repeats::First(j) => {
            let fault = iff::Fault {
                reason: iff::Reason::Duplicate,
                place: Some(iff::Place {
                    file: iff::File::Timetbls,
                    ordinal: j + 1,
                    line: 1,
                }),
            };
            Err(fault)
        }
        repeats::Repeats::Untold => {
            clear_blocks(t);
            let again = block_walks::add_blocks(
                text, from, form, marks, t, counts, companies, modes, stations, footnotes, places,
                true,
            );
            again.put
        }
    }
}
