// What was judged of an amendment is done and answered: a block gives way to another, or TIMETBLS keeps every word.
#![tactic(auto)]

ghost use Rattle.amend_done.specs.Done.{Doable, Done};

use iff::{Answer, Form};

pub fn carry_out(
    judged: Result<amend_tests::Edit, iff::Fault>,
    form: Form,
    t: &mut [u64],
    block: &[u8],
    services: u64,
) -> Answer
    requires { Doable judged form block.now t.old }
    ensures { Done judged form services block.now t.old result t.new }
{
    let days = form.days as u64;
    let edit = judged?;
    block_edits::replace_block(
        t, edit.used, edit.from, edit.to, block, form, edit.lines, edit.stops,
    );
    Ok(iff::Accepted { days, services })
}
