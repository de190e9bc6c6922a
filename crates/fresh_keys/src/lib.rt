// Keys that come one after another: services counted, whether keys rise, and whether one is new.
#![tactic(auto)]

ghost use Rattle.std.specs.Prelude.{◌≡◌, cond, not, eqb, length};
ghost use Rattle.iff.specs.Bytes.{hash};
ghost use Rattle.iff.specs.Lists.{has};
ghost use Rattle.iff.specs.declared.File.TheVariants.{Timetbls};
ghost use Rattle.keys.specs.Lookup.{keys_in};
ghost use Rattle.fresh_keys.specs.Runs.{no_keys, still_rises, step_run, run_of};

// SERVICES COUNTED

// 1 for the tag of a row that begins a block.
fn one_for(tag: u64) -> u64
    ensures { result ≡ cond (eqb tag hash) 1 0 }
{
    if tag == iff::tags::HASH { 1 } else { 0 }
}

// How many services TIMETBLS names: its rows that begin a block.
pub fn count_services(t: &[u64]) -> u64
    ensures { result ≡ length (keys_in Timetbls t.now) }
{
    let rows = t.len() / tables::BLOCK_WIDTH;
    let mut count: u64 = 0;
    for i in 0..rows {
        let tag = tables::word_at(t, tables::BLOCK_WIDTH, i, iff::words::TAG);
        if tag == 0 {
            return count;
        }
        count += one_for(tag);
    }
    count
}

// RUNS OF KEYS

// What is remembered of the keys of a file so far: whether there are any, whether they rise, and the last.
#[derive(Clone, Copy)]
pub struct KeyRun {
    pub any: bool,
    pub rises: bool,
    pub last: u64,
}

// Before the first key.
pub fn no_keys() -> KeyRun
    ensures { result ≡ no_keys }
{
    KeyRun {
        any: false,
        rises: true,
        last: 0,
    }
}

// Whether the keys rise with this one after them.
fn still_rises(run: KeyRun, key: u64) -> bool
    ensures { result ≡ still_rises run key }
{
    if run.any {
        if run.rises {
            return run.last < key;
        }
        return false;
    }
    run.rises
}

// With one key more.
pub fn next_run(run: KeyRun, key: u64) -> KeyRun
    ensures { result ≡ step_run run key }
{
    let rises = still_rises(run, key);
    KeyRun {
        any: true,
        rises: rises,
        last: key,
    }
}

// A key that the table does not have yet. While keys rise, one above the last is new without a search.
pub fn is_fresh(file: iff::File, run: KeyRun, t: &[u64], key: u64) -> bool
    requires { run ≡ run_of (keys_in file t.now) }
    ensures { result ≡ not (has key (keys_in file t.now)) }
{
    if still_rises(run, key) {
        return true;
    }
    !keys::names(file, t, key)
}
