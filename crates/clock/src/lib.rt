// The times of document 01, for every number that a field can hold and every other: times, minutes, the zone rule, and the gap.
#![tactic(auto)]

ghost use Rattle.std.specs.Prelude.{◌≡◌, ◌<◌, pos};
ghost use Rattle.std.specs.Int.Signed.{mag};
ghost use Rattle.iff.specs.Days.{longest};
ghost use Rattle.iff.specs.Times.{is_time, minutes_of, is_turn, interval, reference_of, on_day, gap_of};

// No time: in one of a `+` record's two times it says that nobody alights, or that nobody boards.
const NO_TIME: u64 = 9999;

// A time HHMM: any hour of two digits, and a minute below 60.
pub fn is_time(t: u64) -> bool
    ensures { result ≡ is_time t }
{
    if t < 10000 {
        return t % 100 < 60;
    }
    false
}

// A time's minutes from the start of its day; what is no time, 9999 among it, has none.
pub fn minutes_of(t: u64) -> Option<u64>
    ensures { result ≡ minutes_of t }
{
    if is_time(t) {
        return Some(t / 100 * 60 + t % 100);
    }
    None
}

// A company's day turn: a time within one day.
pub fn is_turn(t: u64) -> bool
    ensures { result ≡ is_turn t }
{
    if t < 2400 {
        return is_time(t);
    }
    false
}

// A `+` record's two times: one of the two may be no time, and where both are times the arrival comes first.
pub fn is_interval(arrival: u64, departure: u64) -> bool
    ensures { result ≡ interval arrival departure }
{
    if arrival == NO_TIME {
        return is_time(departure);
    }
    if departure == NO_TIME {
        return is_time(arrival);
    }
    if is_time(arrival) {
        if is_time(departure) {
            return arrival < departure;
        }
        return false;
    }
    false
}

// A time's minutes on its zone's own clock, which only the zone rule leaves.
pub fn local_of(minutes: u64) -> iff::LocalMinutes
    requires { minutes < 6000 }
    ensures { (result.0 ≡ pos minutes) × (mag result.0 < 6000) }
{
    iff::LocalMinutes(minutes as i32)
}

// The zone rule. `earlier` is the zone's minus: its clock is behind, so the reference clock shows more.
pub fn to_reference(m: iff::LocalMinutes, earlier: bool, hours: u64) -> iff::ReferenceMinutes
    requires { (mag m.0 < 6000) × (hours < 100) }
    ensures { (result ≡ reference_of m earlier hours) × (mag result.0 < 20000) }
{
    let shift = (hours * 60) as i32;
    if earlier {
        iff::ReferenceMinutes(m.0 + shift)
    } else {
        iff::ReferenceMinutes(m.0 - shift)
    }
}

// Minutes on a day, as minutes from day 0 on.
fn on_day(m: iff::ReferenceMinutes, day: u64) -> i32
    requires { (mag m.0 < 20000) × (day < longest) }
    ensures { (result ≡ on_day m day) × (mag result < 2000000) }
{
    m.0 + (day * 1440) as i32
}

// From an arrival to a departure, each on its day; negative where the departure comes first.
pub fn gap(
    arrival: iff::ReferenceMinutes,
    arrival_day: u64,
    departure: iff::ReferenceMinutes,
    departure_day: u64,
) -> i32
    requires { (mag arrival.0 < 20000) × ((mag departure.0 < 20000) × ((arrival_day < longest) × (departure_day < longest))) }
    ensures { result ≡ gap_of arrival arrival_day departure departure_day }
{
    on_day(departure, departure_day) - on_day(arrival, arrival_day)
}
