// The blocks of TIMETBLS one after the other: the first fault with its place, or how many rows and services there are; and whether each was told to name a
// new service.
#![tactic(auto)]

ghost use Rattle.std.specs.Prelude.{◌≡◌, ◌&&◌};
ghost use Rattle.block_walks.specs.Blocks.{BlocksReady, BlocksWalked};

// What all of the blocks come to that were put: whether the services rise, how many rows the table has with them, and how many services.
#[derive(Clone, Copy)]
pub struct BlocksPut {
    pub rise: bool,
    pub rows: usize,
    pub services: u64,
}

// The same with what is known at the end of a walk over the blocks: in how many rows of the table the blocks stand that were put, how many those are,
// and whether each was told to name a new service. Where not, a service that came twice is the first fault.
#[derive(Clone, Copy)]
pub struct Walk {
    pub put: Result<BlocksPut, iff::Fault>,
    pub row: usize,
    pub done: u64,
    pub sure: bool,
}

// Each of two, for a walk that is sure as long as each of its blocks is.
fn both(a: bool, b: bool) -> bool
    ensures { result ≡ (a && b) }
{
    if a {
        return b;
    }
    false
}

// The blocks from `from` on, the first of them block 1.
pub fn add_blocks(
    text: &[u8],
    from: usize,
    form: iff::Form,
    marks: &mut [u8],
    t: &mut [u64],
    counts: references::BlockCounts,
    companies: &[u64],
    modes: &[u64],
    stations: &[u64],
    footnotes: &[u64],
    places: &[u32],
    search: bool,
) -> Walk
    requires { BlocksReady text.now from t.old marks.old }
    ensures { BlocksWalked form text.now from counts
        companies.now modes.now stations.now footnotes.now t.old t.new search result }
{
    let mut at = from;
    let mut row: usize = 1;
    let mut done: u64 = 0;
    let mut sure = true;
    let mut run = fresh_keys::no_keys();
    // A loop by hand: where a block ends is known only once the next one was looked for, so no range says it.
    while at < text.len() {
        let ordinal = done + 1;
        let found = block_ends::next_head(text, at);
        let next = found.next;
        match block_puts::add_block(
            &text[at..next],
            form,
            run,
            marks,
            row,
            t,
            counts,
            companies,
            modes,
            stations,
            footnotes,
            places,
            found.lines,
            found.stops,
            search,
        ) {
            Err(fault) => {
                let place = Some(iff::Place {
                    file: iff::File::Timetbls,
                    ordinal,
                    line: fault.line,
                });
                return Walk {
                    put: Err(iff::Fault {
                        reason: fault.reason,
                        place,
                    }),
                    row: row,
                    done: done,
                    sure: sure,
                };
            }
            Ok(put) => {
                at = next;
                row = put.row;
                done = ordinal;
                sure = both(sure, put.told);
                run = put.run;
            }
        }
    }
    Walk {
        put: Ok(BlocksPut {
            rise: run.rises,
            rows: row,
            services: done,
        }),
        row: row,
        done: done,
        sure: sure,
    }
}
