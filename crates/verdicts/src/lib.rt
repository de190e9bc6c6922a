// A change where both services run and meet: the row of XCHANGES that counts, and the verdict on a gap. Numbers alone, no tables.
#![tactic(auto)]

ghost use Rattle.std.specs.Prelude.{◌≡◌, pos};
ghost use Rattle.std.specs.Int.Signed.{lt_z};
ghost use Rattle.iff_desk.specs.Changing.{fits_key, fits as fits_both, better as better_of, settled as settled_by, by_time, core as core_of};

use iff_desk::{Bar, Change, Riding, Source};
use references::{ANY_COMPANY, ANY_MODE};

// A station's change time that is no reading: the most that two digits hold.
const NO_STATION_TIME: u64 = 99;

// An exception's time that is none, likewise of three digits.
const NO_EXCEPTION_TIME: u64 = 999;

// THE ROWS OF XCHANGES

// A key of an exception fits: it is the wildcard, or the very company or mode.
fn fits_key(any: u64, key: u64, k: u64) -> bool
    ensures { result ≡ fits_key any key k }
{
    if key == any {
        return true;
    }
    key == k
}

// The keys of one side fit a company and a mode.
pub fn fits(keys: Riding, r: Riding) -> bool
    ensures { result ≡ fits_both keys r }
{
    if fits_key(ANY_COMPANY, keys.company, r.company) {
        return fits_key(ANY_MODE, keys.mode, r.mode);
    }
    false
}

// The highest rank wins, then the larger time.
pub fn better(best: Option<iff_desk::Best>, rank: u64, time: u64) -> Option<iff_desk::Best>
    ensures { result ≡ better_of best rank time }
{
    match best {
        None => Some(iff_desk::Best { rank, time }),
        Some(best) => {
            if best.rank < rank {
                return Some(iff_desk::Best { rank, time });
            }
            if rank < best.rank {
                return Some(best);
            }
            if best.time < time {
                return Some(iff_desk::Best { rank, time });
            }
            Some(best)
        }
    }
}

// THE VERDICT

// A gap is below a needed time. A negative gap is below every one; another is held against it as a number of minutes.
fn is_short(gap: i32, needed: u64) -> bool
    ensures { result ≡ lt_z gap (pos needed) }
{
    if gap < 0 {
        return true;
    }
    (gap as u64) < needed
}

// A gap against a needed time: too short, or Yes; Unsettled where the needed time is the most that its columns hold.
fn settled(gap: i32, source: Source, needed: u64, at_top: bool) -> Change
    ensures { result ≡ settled_by gap source needed at_top }
{
    if is_short(gap, needed) {
        return Change::NoShort(gap, source, needed);
    }
    if at_top {
        return Change::Unsettled(gap, source, needed);
    }
    Change::Yes(gap, source, needed)
}

// The needed time by the best row of XCHANGES, and by the station where there is none.
fn by_time(gap: i32, best: Option<iff_desk::Best>, time: u64) -> Change
    ensures { result ≡ by_time gap best time }
{
    match best {
        Some(best) => settled(
            gap,
            Source::FromXchanges,
            best.time,
            best.time == NO_EXCEPTION_TIME,
        ),
        None => settled(gap, Source::FromStations, time, time == NO_STATION_TIME),
    }
}

// The first that applies: the pair in CHANGES, the station's flag, the best row of XCHANGES, the station's change time.
pub fn core(
    gap: i32,
    pair: Option<u64>,
    flag: u64,
    best: Option<iff_desk::Best>,
    time: u64,
) -> Change
    ensures { result ≡ core_of gap pair flag best time }
{
    match pair {
        Some(p) => {
            if p == 0 {
                return Change::NoBarred(gap, Bar::Pair00);
            }
            settled(gap, Source::FromChanges, 0, false)
        }
        None => {
            if flag == 0 {
                return Change::NoBarred(gap, Bar::Flag0);
            }
            by_time(gap, best, time)
        }
    }
}
