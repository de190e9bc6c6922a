// The group of a file of groups that lines are put to: one that begins, and one with a row more.
#![tactic(auto)]

ghost use Rattle.std.specs.Prelude.{◌≡◌, ◌+◌, ◌^◌, ◌<◌};
ghost use Rattle.open_groups.specs.Open.{opening, run_after, open_after};

use fresh_keys::KeyRun;
use iff::GroupStand;

// The group that lines are put to: how many it has so far, where it stands, and what is remembered of the file's keys.
#[derive(Clone, Copy)]
pub struct Open {
    pub size: usize,
    pub stand: GroupStand,
    pub run: KeyRun,
}

// A group that has no lines yet, after others with some keys.
pub fn opening(run: KeyRun) -> Open
    ensures { result ≡ opening run }
{
    Open {
        size: 0,
        stand: GroupStand::Opening,
        run: run,
    }
}

// A group's `#` names a key.
fn run_after(run: KeyRun, tag: u64, key: u64) -> KeyRun
    ensures { result ≡ run_after run tag key }
{
    if tag == iff::tags::HASH {
        return fresh_keys::next_run(run, key);
    }
    run
}

// The group with a row more.
pub fn open_after(group: Open, tag: u64, key: u64) -> Open
    requires { group.size + 1 < 2 ^ 64 }
    ensures { result ≡ open_after group tag key }
{
    let stand = group.stand;
    let run = group.run;
    let moved = group_order::group_moves(stand);
    let after = run_after(run, tag, key);
    Open {
        size: group.size + 1,
        stand: moved,
        run: after,
    }
}
