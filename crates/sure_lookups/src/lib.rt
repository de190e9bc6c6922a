// The keys of a table looked up with an exact index of them: a key that is not there is told by a free slot, and no row is searched for it.
#![tactic(auto)]

ghost use Rattle.std.specs.Prelude.{◌≡◌, true, false, ◌*◌, ◌≤◌, length};
ghost use Rattle.iff.specs.Lists.{has};
ghost use Rattle.iff.specs.Tables.{row_width};
ghost use Rattle.keys.specs.Lookup.{keys_among, FoundRow};
ghost use Rattle.slots.specs.Slots.{Index};

use slots::Met;

// The slots say that no row names a key. They say nothing where they are too few, or rows are too many for them, or where row 0, which is in no slot,
// could name it.
pub fn is_absent(file: iff::File, t: &[u64], used: usize, heads: &[u32], key: u64) -> bool
    requires { Index file t.now used (length heads.now) heads.now × (used * row_width file ≤ length t.now) }
    ensures { result ≡ true → has key (keys_among file used t.now) ≡ false }
{
    if heads.len() <= keys::PROBES {
        return false;
    }
    if used > 4294967295 {
        return false;
    }
    let tag = keys::key_tag(file);
    if tables::word_or_zero(t, iff::words::TAG) == tag {
        return false;
    }
    match slots::probe(file, t, used, heads, key) {
        Met::Free(_) => true,
        Met::Taken => false,
        Met::Full => false,
    }
}

// The row of a key among the first `used` rows: at its place, or nowhere where the slots say so, else by a search. A caller who has no such index
// lends no slots.
pub fn find_surely(
    file: iff::File,
    t: &[u64],
    used: usize,
    heads: &[u32],
    key: u64,
) -> Option<usize>
    requires { Index file t.now used (length heads.now) heads.now × (used * row_width file ≤ length t.now) }
    ensures { FoundRow file used t.now key result }
{
    match key_places::found_by_place(file, t, used, heads, key) {
        Some(i) => Some(i),
        None => {
            if is_absent(file, t, used, heads, key) {
                return None;
            }
            lookups::find_among(file, t, used, key)
        }
    }
}
