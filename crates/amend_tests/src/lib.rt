// What becomes of an amendment of sound tables: the tests after 16 in the paper's order, which write nothing.
#![tactic(auto)]

ghost use Rattle.std.specs.Prelude.{◌≤◌, length};
ghost use Rattle.iff.specs.Tables.{rows_in};
ghost use Rattle.iff.specs.declared.File.TheVariants.{Timetbls};
ghost use Rattle.amend_tests.specs.Judged.{BlockJudged, Judgeable, AmendJudged};

use iff::{File, Form, Reason};

// Some rows of TIMETBLS that give way to a block: how many are in use, from which row on and before which, and the block's lines and stops.
#[derive(Clone, Copy)]
pub struct Edit {
    pub used: usize,
    pub from: usize,
    pub to: usize,
    pub lines: u64,
    pub stops: u64,
}

// "Then the block's lines", in the place of the rows from `from` on and before `to`.
fn judge_block(
    form: Form,
    t: &[u64],
    used: usize,
    from: usize,
    to: usize,
    companies: &[u64],
    modes: &[u64],
    stations: &[u64],
    footnotes: &[u64],
    places: &[u32],
    block: &[u8],
) -> Result<Edit, iff::Fault>
    requires { from ≤ length (rows_in Timetbls t.now) }
    ensures { BlockJudged form block.now t.now used from to
        companies.now modes.now stations.now footnotes.now result }
{
    let counts = references::count_for_blocks(companies, modes, stations, footnotes);
    match blocks::check_block(
        block, form, true, counts, companies, modes, stations, footnotes, places,
    ) {
        Err(fault) => {
            let ordinal = service_places::ordinal_at(t, from);
            Err(iff::Fault {
                reason: fault.reason,
                place: Some(iff::Place {
                    file: File::Timetbls,
                    ordinal,
                    line: fault.line,
                }),
            })
        }
        Ok(size) => Ok(Edit {
            used: used,
            from: from,
            to: to,
            lines: size.lines,
            stops: size.stops,
        }),
    }
}

// 11, 12, 1 and 2 over TIMETBLS, and the block's lines. `places` is a hint where the keys of all tables stand. What gives way to the block, if
// nothing is wrong.
pub fn judge(
    form: Form,
    t: &[u64],
    companies: &[u64],
    modes: &[u64],
    stations: &[u64],
    footnotes: &[u64],
    places: &[u32],
    service: u64,
    block: &[u8],
) -> Result<Edit, iff::Fault>
    requires { Judgeable form t.now }
    ensures { AmendJudged form t.now
        companies.now modes.now stations.now footnotes.now service block.now result }
{
    if !service_lines::is_one_block(block, service) {
        return Err(iff::Fault {
            reason: Reason::NotOneBlock,
            place: None,
        });
    }
    let used = keys::used_rows(File::Timetbls, t);
    let part = store::find_group(File::Timetbls, t, used, places, service);
    let from = part.from;
    let to = part.to;
    if from == to {
        return Err(iff::Fault {
            reason: Reason::NoService,
            place: None,
        });
    }
    edit_sizes::test_sizes(form, t, used, from, to, block)?;
    judge_block(
        form, t, used, from, to, companies, modes, stations, footnotes, places, block,
    )
}
