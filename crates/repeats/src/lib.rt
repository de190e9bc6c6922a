// Services that come twice, told of a whole table in a few walks over it, in whatever order they come: each walk asks for the services of one class.
#![tactic(auto)]

ghost use Rattle.std.specs.Prelude.{◌*◌, ◌<◌, ◌≤◌, length};
ghost use Rattle.iff.specs.Tables.{row_width};
ghost use Rattle.iff.specs.declared.File.TheVariants.{Timetbls};
ghost use Rattle.keys.specs.Lookup.{keys_among};
ghost use Rattle.repeats.specs.Repeats.{Told};

// What is told of the services of a table: that none comes twice; or how many come before the first that came before; or nothing.
#[derive(Clone, Copy)]
pub enum Repeats {
    Never,
    First(u64),
    Untold,
}

// About so many services are a class. What they leave of the slots stays free, so that a free one is met soon.
const CLASS_SIZE: u64 = 170000;

// So many classes that each fits a set. There are no more services than rows, whatever is said of them.
fn class_count(used: usize, count: u64) -> u64
    ensures { 0 < result }
{
    let rows = used as u64;
    if count < rows {
        return count / CLASS_SIZE + 1;
    }
    rows / CLASS_SIZE + 1
}

// `count` says about how many services there are; it is a hint alone. Once one is found that came before, later classes are asked only for the
// services before it.
pub fn first_repeat(t: &[u64], used: usize, count: u64) -> Repeats
    requires { used * row_width Timetbls ≤ length t.now }
    ensures { Told (keys_among Timetbls used t.now) result }
{
    let classes = class_count(used, count);
    let mut upto = used;
    for class in 0..classes {
        let Some(n) = key_classes::ask_class(t, used, upto, classes, class) else {
            return Repeats::Untold;
        };
        upto = n;
    }
    if upto < used {
        return Repeats::First(upto as u64);
    }
    Repeats::Never
}
