// Keys in a set: a slot holds one more than a key, and 0 where it is free.
#![tactic(auto)]

ghost use Rattle.std.specs.Prelude.{◌<◌, length};
ghost use Rattle.key_sets.specs.Sets.{window, Probed, KeyPut};

// What the slots for a key are like: a free one comes before any that holds the key, or one holds it, or neither.
#[derive(Clone, Copy)]
enum Met {
    Free(usize),
    Taken,
    Full,
}

// What a key is: none that was asked before, or one that came; or there is no room to tell.
#[derive(Clone, Copy)]
pub enum Tried {
    Goes,
    Came,
    NoRoom,
}

// How many slots are tried for a key. A set that is three quarters full has runs of some hundreds.
const WINDOW: usize = 1024;

// Beyond those that `keys::place_of` leaves behind a first slot.
const MORE: usize = WINDOW - keys::PROBES;

// Walks over the slots for a key.
fn probe(set: &[u32], key: u64) -> Met
    requires { (window < length set.now) × (key < 4294967295) }
    ensures { Probed set.now key result }
{
    let held = (key + 1) as u32;
    let from = keys::place_of(key, set.len() - MORE);
    for at in from..from + WINDOW {
        let slot = set[at];
        if slot == 0 {
            return Met::Free(at);
        }
        if slot == held {
            return Met::Taken;
        }
    }
    Met::Full
}

// Looks for a key, and puts it into the first free slot for it where it is new. One that is too wide for a slot is not told.
pub fn put_key(set: &mut [u32], key: u64) -> Tried
    ensures { KeyPut set.old key set.new result }
{
    if key >= 4294967295 {
        return Tried::NoRoom;
    }
    if set.len() <= WINDOW {
        return Tried::NoRoom;
    }
    match probe(set, key) {
        Met::Free(at) => {
            set[at] = (key + 1) as u32;
            Tried::Goes
        }
        Met::Taken => Tried::Came,
        Met::Full => Tried::NoRoom,
    }
}
