// Services asked class by class: those of one class find room in a set on the stack, and one walk over the table asks for them.
#![tactic(auto)]

ghost use Rattle.std.specs.Prelude.{◌≡◌, ◌*◌, ◌<◌, ◌≤◌, length};
ghost use Rattle.iff.specs.Tables.{row_width};
ghost use Rattle.iff.specs.declared.File.TheVariants.{Timetbls};
ghost use Rattle.keys.specs.Lookup.{keys_among};
ghost use Rattle.key_sets.specs.Sets.{AllFree};
ghost use Rattle.key_classes.specs.Classes.{class_of, KeyTried, ClassAsked};

use key_sets::Tried;

// The class of a key. Numbers come in runs and in steps, and what is left of them by a prime is of every class, whatever the step.
fn class_of(key: u64, classes: u64) -> u64
    requires { 0 < classes }
    ensures { result ≡ class_of classes key }
{
    key % 65521 % classes
}

// A key that is none of the class is gone over.
fn try_key(set: &mut [u32], classes: u64, class: u64, key: u64) -> Tried
    requires { 0 < classes }
    ensures { KeyTried classes class set.old key set.new result }
{
    if class_of(key, classes) == class {
        return key_sets::put_key(set, key);
    }
    Tried::Goes
}

// Asks for the services of a class among the first `upto`, by a set that is empty at first. How many services are left to be asked after it: no fewer,
// or those before the first of the class that came before; or nothing is told.
fn walk_class(
    t: &[u64],
    used: usize,
    upto: usize,
    classes: u64,
    class: u64,
    set: &mut [u32],
) -> Option<usize>
    requires { (used * row_width Timetbls ≤ length t.now) × (0 < classes) × AllFree set.old }
    ensures { ClassAsked classes class (keys_among Timetbls used t.now) upto result }
{
    let mut met = 0;
    let mut i = walks::next_head(t, tables::BLOCK_WIDTH, 0, used);
    // A loop by hand: where the next block begins is known only once its `#` is found, so no range says it.
    while i < used {
        if met == upto {
            return Some(upto);
        }
        let key = tables::word_at(t, tables::BLOCK_WIDTH, i, iff::words::NAMED);
        match try_key(set, classes, class, key) {
            Tried::Goes => {}
            Tried::Came => return Some(met),
            Tried::NoRoom => return None,
        }
        met += 1;
        i = walks::next_head(t, tables::BLOCK_WIDTH, i + 1, used);
    }
    Some(upto)
}

// How many slots a set has.
const SLOTS: usize = 215000;

// The same with a set of its own.
pub fn ask_class(t: &[u64], used: usize, upto: usize, classes: u64, class: u64) -> Option<usize>
    requires { (used * row_width Timetbls ≤ length t.now) × (0 < classes) }
    ensures { ClassAsked classes class (keys_among Timetbls used t.now) upto result }
{
    let mut set = [0u32; SLOTS];
    walk_class(t, used, upto, classes, class, &mut set)
}
