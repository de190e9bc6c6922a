// TIMETBLS, its first line and the blocks after it: each block is checked before anything of it is written, and the first fault is told with
// its place.
#![tactic(auto)]

ghost use Rattle.std.specs.Prelude.{◌≡◌, true, ◌≤◌, length, drop};
ghost use Rattle.iff.specs.Lines.{lines};
ghost use Rattle.iff.specs.declared.File.TheVariants.{Timetbls};
ghost use Rattle.iff.specs.Refusals.{fine};
ghost use Rattle.references.specs.Agree.{BlockKeys};
ghost use Rattle.reading.specs.Reading.{Ready};
ghost use Rattle.block_walks.specs.Blocks.{StrayTold, AfterFirst, BlocksRead};
ghost use Rattle.timetbls.specs.Done.{TimetblsDone};

// What became of the file, and how many rows and services its table has where there is no fault: they are counted as they are read, so that no later
// reader goes through the table for them.
#[derive(Clone, Copy)]
pub struct TimetblsRead {
    pub verdict: iff::Verdict,
    pub rows: usize,
    pub services: u64,
}

// Lines before the first `#` belong to no block: the first of them is refused, by its own letter.
fn stray_test(text: &[u8], from: usize) -> iff::Test
    requires { from ≤ length text.now }
    ensures { StrayTold (lines (drop from text.now)) result }
{
    if text.len() <= from {
        return Ok(());
    }
    let span = text::line_at(text, from);
    let end = span.end;
    let letter = text::first_byte(&text[from..end]);
    if letter == b'#' {
        return Ok(());
    }
    if first_bytes::is_known_in_block(letter) {
        return Err(iff::Reason::Order);
    }
    Err(iff::Reason::Layout)
}

// The lines after the first, which begin at `from`, into a table that holds the first line's row. A stray line is line 2 of block 0.
// The places of what a block names are found once, since nearly every line names something. They share 16381 first slots, which is a prime
// number, and as many more as are tried for a key.
pub fn read_blocks(
    text: &[u8],
    from: usize,
    form: iff::Form,
    t: &mut [u64],
    companies: &[u64],
    modes: &[u64],
    stations: &[u64],
    footnotes: &[u64],
) -> Result<block_walks::BlocksPut, iff::Fault>
    requires { AfterFirst text.now from t.old }
    ensures { BlocksRead form text.now from
        companies.now modes.now stations.now footnotes.now t.old t.new result }
{
    match stray_test(text, from) {
        Err(why) => {
            let place = Some(iff::Place {
                file: iff::File::Timetbls,
                ordinal: 0,
                line: 2,
            });
            Err(iff::Fault { reason: why, place })
        }
        Ok(()) => {
            let counts = references::count_for_blocks(companies, modes, stations, footnotes);
            let mut places = [0u32; 16445];
            places::index_rows(
                iff::File::Rows(iff::RowFile::Stations),
                stations,
                counts.stations,
                &mut places,
            );
            places::index_rows(
                iff::File::Groups(iff::GroupFile::Footnote),
                footnotes,
                counts.footnotes,
                &mut places,
            );
            places::index_rows(
                iff::File::Rows(iff::RowFile::Company),
                companies,
                counts.companies,
                &mut places,
            );
            places::index_rows(
                iff::File::Rows(iff::RowFile::Trnsmode),
                modes,
                counts.modes,
                &mut places,
            );
            let mut marks = [0u8; 524288];
            block_repeats::walk_blocks(
                text, from, form, &mut marks, t, counts, companies, modes, stations, footnotes,
                &places,
            )
        }
    }
}

// The whole of TIMETBLS, after a verdict on what came before it: a fault is handed on, and an absent file has none.
pub fn read_timetbls(
    v: iff::Verdict,
    form: iff::Form,
    text: &[u8],
    header: &[u8],
    t: &mut [u64],
    companies: &[u64],
    modes: &[u64],
    stations: &[u64],
    footnotes: &[u64],
) -> TimetblsRead
    requires { fine v ≡ true → Ready Timetbls text.now t.old }
    ensures { TimetblsDone form
        (λ c. BlockKeys c companies.now modes.now stations.now footnotes.now)
        header.now text.now v t.old t.new result }
{
    match v {
        Err(fault) => TimetblsRead {
            verdict: Err(fault),
            rows: 0,
            services: 0,
        },
        Ok(()) => {
            if text.len() == 0 {
                return TimetblsRead {
                    verdict: Ok(()),
                    rows: 0,
                    services: 0,
                };
            }
            match heads::begin_file(iff::File::Timetbls, text, header, t) {
                Err(r) => TimetblsRead {
                    verdict: Err(iff::Fault {
                        reason: r,
                        place: Some(iff::Place {
                            file: iff::File::Timetbls,
                            ordinal: 0,
                            line: 1,
                        }),
                    }),
                    rows: 0,
                    services: 0,
                },
                Ok(from) => {
                    match read_blocks(text, from, form, t, companies, modes, stations, footnotes) {
                        Err(fault) => TimetblsRead {
                            verdict: Err(fault),
                            rows: 0,
                            services: 0,
                        },
                        Ok(put) => {
                            head_words::set_rises(t, put.rise);
                            TimetblsRead {
                                verdict: Ok(()),
                                rows: put.rows,
                                services: put.services,
                            }
                        }
                    }
                }
            }
        }
    }
}
