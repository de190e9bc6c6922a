// The key of one row of a table told to be new, and its row put into the slots of an index.
#![tactic(auto)]

ghost use Rattle.std.specs.Prelude.{◌≡◌, true, not, ◌*◌, ◌≤◌, length};
ghost use Rattle.iff.specs.Tables.{row_width};
ghost use Rattle.iff.specs.Lists.{has};
ghost use Rattle.fresh_keys.specs.Runs.{run_of};
ghost use Rattle.slots.specs.Slots.{names_at, key_at, keys_between};
ghost use Rattle.slot_puts.specs.Puts.{AtRow, KeyPut};

use slots::Met;

// A key is none of those of the rows before row `i`. While keys rise, one above the last is new without a search.
fn is_new_key(file: iff::File, t: &[u64], i: usize, run: fresh_keys::KeyRun, key: u64) -> bool
    requires { (run ≡ run_of (keys_between file t.now 0 i)) × (i * row_width file ≤ length t.now) }
    ensures { result ≡ not (has key (keys_between file t.now 0 i)) }
{
    let next = fresh_keys::next_run(run, key);
    if next.rises {
        return true;
    }
    !lookups::names_among(file, t, i, key)
}

// Tests the key of row `i`, and puts the row into the first free slot for it where it is new. A free slot that is met before any row of the key
// says so; where none is met, or there are too few slots, or the row's number is too wide for one, the keys before it tell.
pub fn put_key(
    file: iff::File,
    t: &[u64],
    i: usize,
    run: fresh_keys::KeyRun,
    key: u64,
    places: &mut [u32],
) -> bool
    requires { AtRow file t.now run i places.old × ((names_at file t.now i ≡ true) × (key ≡ key_at file t.now i)) }
    ensures { KeyPut file t.now i key places.old places.new result }
{
    if i > 4294967295 {
        return is_new_key(file, t, i, run, key);
    }
    if places.len() <= keys::PROBES {
        return is_new_key(file, t, i, run, key);
    }
    match slots::probe(file, t, i, places, key) {
        Met::Free(at) => {
            places[at] = i as u32;
            true
        }
        Met::Taken => false,
        Met::Full => is_new_key(file, t, i, run, key),
    }
}
