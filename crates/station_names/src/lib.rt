// A station's name, a part of the lent STATIONS.
#![tactic(auto)]

ghost use Rattle.std.specs.Prelude.{◌≡◌};
ghost use Rattle.iff_desk.specs.Parts.{name as name_of, name_test};
ghost use Rattle.parts.specs.Bounds.{Inside};
ghost use Rattle.station_names.specs.Names.{name_part};

use iff::{Reason, Test};
use parts::{Part, Want, no_part, seek_after};

// Where columns 44-73 stand of the first row of 73 bytes, after the first line, with that short name; else 17.
pub fn name_part(stations: &[u8], short: u64) -> Part
    ensures { (result ≡ name_part stations.now short) × Inside stations.now result }
{
    match seek_after(stations, 0, Want::Station(short)) {
        Some(i) => {
            let from = i + 43;
            let to = i + 73;
            Part {
                test: Ok(()),
                from: from,
                to: to,
            }
        }
        None => no_part(Reason::NoStation),
    }
}

// Those columns themselves, or an empty part.
pub fn name<'a>(stations: &'a [u8], short: u64) -> &'a [u8]
    ensures { result.now ≡ name_of stations.now short }
{
    let part = name_part(stations, short);
    let from = part.from;
    let to = part.to;
    &stations[from..to]
}

// Whether there is one, or 17.
pub fn name_test(stations: &[u8], short: u64) -> Test
    ensures { result ≡ name_test stations.now short }
{
    let part = name_part(stations, short);
    part.test
}
