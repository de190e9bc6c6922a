// Marks of the keys that came so far, or of other numbers, by which nearly every new one is told to be new without a search, in whatever order they
// come.
#![tactic(auto)]

ghost use Rattle.std.specs.Prelude.{◌≡◌, not, true, false, List, ℕ, ◌<◌, length};
ghost use Rattle.iff.specs.Lists.{has};
ghost use Rattle.keys.specs.Lookup.{keys_in};
ghost use Rattle.fresh_keys.specs.Runs.{run_of};
ghost use Rattle.marks.specs.Marks.{slots, slot_of, other_of, print_of, other_print, mixed, shows, with_marks, Marked};

// Where a key's marks stand.
fn slot(key: u64) -> usize
    ensures { result ≡ slot_of key }
{
    (key % 262144) as usize
}

fn other_slot(key: u64) -> usize
    ensures { result ≡ other_of key }
{
    (262144 + key / 382 % 262144) as usize
}

// What its marks are there.
fn print_of(key: u64) -> u8
    ensures { result ≡ print_of key }
{
    (1 + key / 262144 % 254) as u8
}

fn other_print(key: u64) -> u8
    ensures { result ≡ other_print key }
{
    (1 + key % 382 % 254) as u8
}

// A mark where another may stand: 255 is for keys of several.
fn mix(was: u8, print: u8) -> u8
    ensures { result ≡ mixed was print }
{
    if was == 0 {
        return print;
    }
    if was == print {
        return print;
    }
    255
}

// A mark may be that of a key with this print.
fn does_show(mark: u8, print: u8) -> bool
    ensures { result ≡ shows mark print }
{
    if mark == print {
        return true;
    }
    mark == 255
}

// Marks a key.
pub fn mark(marks: &mut [u8], key: u64)
    requires { length marks.old ≡ slots }
    ensures { marks.new ≡ with_marks marks.old key }
{
    let k = slot(key);
    marks[k] = mix(marks[k], print_of(key));
    let o = other_slot(key);
    marks[o] = mix(marks[o], other_print(key));
}

// No number came that lacks a mark here: neither a key nor whatever else a number stands for.
pub fn is_unmarked(marks: &[u8], key: u64) -> bool
    requires { length marks.now ≡ slots }
    ensures { (keys : List ℕ) → Marked marks.now keys → result ≡ true → has key keys ≡ false }
{
    let k = slot(key);
    if !does_show(marks[k], print_of(key)) {
        return true;
    }
    let o = other_slot(key);
    if !does_show(marks[o], other_print(key)) {
        return true;
    }
    false
}

// A key that the table does not have yet. One that lacks a mark is new whatever the order of the keys, and without a search.
pub fn is_fresh(file: iff::File, marks: &[u8], run: fresh_keys::KeyRun, t: &[u64], key: u64) -> bool
    requires { (run ≡ run_of (keys_in file t.now)) × Marked marks.now (keys_in file t.now) }
    ensures { result ≡ not (has key (keys_in file t.now)) }
{
    if is_unmarked(marks, key) {
        return true;
    }
    fresh_keys::is_fresh(file, run, t, key)
}
