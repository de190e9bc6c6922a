// One line of a TIMETBLS block that is read in one pass: told to be right where it stands, and its row put into the table at once.
#![tactic(auto)]

ghost use Rattle.std.specs.Prelude.{◌≡◌, ◌+◌, ◌*◌, ◌≤◌, ◌<◌, length, get_or, Some};
ghost use Rattle.iff.specs.Tables.{row_width};
ghost use Rattle.iff.specs.declared.File.TheVariants.{Timetbls};
ghost use Rattle.iff.specs.declared.Stand.{Stand};
ghost use Rattle.iff_rules.specs.Meaning.{most_stops};
ghost use Rattle.iff_rules.specs.Order.{is_stop, goes};
ghost use Rattle.iff_rules.specs.Legs.{one};
ghost use Rattle.block_lines.specs.Lines.{keys_from};
ghost use Rattle.quick_steps.specs.Places.{place_in_block, goes_from};
ghost use Rattle.quick_steps.specs.Steps.{Passing, WordsPut, LineTurn};

// 1 for a stop.
fn stop_for(letter: u8) -> u64
    ensures { (result ≡ one (is_stop letter)) × (result ≤ 1) }
{
    if order::is_stop(letter as u64) { 1 } else { 0 }
}

// WHERE A LINE MAY STAND: the same as `order::goes` says of the letters that `put_line` knows. The letter is asked first, as it is for its record.

// How far a block has come.
fn place_in_block(stand: iff::Stand) -> u64
    ensures { result ≡ place_in_block stand }
{
    match stand {
        iff::Stand::Start => 0,
        iff::Stand::Hash => 1,
        iff::Stand::Percent => 2,
        iff::Stand::Dash => 3,
        iff::Stand::Ampersand => 4,
        iff::Stand::Asterisk => 5,
        iff::Stand::Stop => 6,
        iff::Stand::Between => 7,
        iff::Stand::Last => 8,
        iff::Stand::LastPlatform => 9,
    }
}

// A record that may stand from one place to another.
fn goes_from(place: u64, first: u64, last: u64, to: iff::Stand) -> Option<iff::Stand>
    ensures { result ≡ goes_from place first last to }
{
    if place < first {
        return None;
    }
    if last < place {
        return None;
    }
    Some(to)
}

fn goes_on(stand: iff::Stand, letter: u8) -> Option<iff::Stand>
    ensures { (to : Stand) → result ≡ Some to → goes stand letter ≡ Some to }
{
    let place = place_in_block(stand);
    match letter {
        b'#' => goes_from(place, 0, 0, iff::Stand::Hash),
        b'%' => goes_from(place, 1, 2, iff::Stand::Percent),
        b'-' => goes_from(place, 2, 3, iff::Stand::Dash),
        b'&' => goes_from(place, 3, 4, iff::Stand::Ampersand),
        b'*' => goes_from(place, 4, 5, iff::Stand::Asterisk),
        b'>' => goes_from(place, 4, 5, iff::Stand::Stop),
        b'.' => goes_from(place, 6, 7, iff::Stand::Stop),
        b'+' => goes_from(place, 6, 7, iff::Stand::Stop),
        b';' => goes_from(place, 6, 7, iff::Stand::Between),
        b'<' => goes_from(place, 6, 7, iff::Stand::Last),
        _ => None,
    }
}

// ONE LINE

// The words of the line at `at`, in a block of k lines and n stops, where it has `stops` stops before it: told to be right in all but its place. A
// platform record has a function of its own.
fn tested_words(
    letter: u8,
    block: &[u8],
    at: usize,
    form: iff::Form,
    stops: u64,
    n: u64,
    k: u64,
    counts: references::BlockCounts,
    companies: &[u64],
    modes: &[u64],
    stations: &[u64],
    footnotes: &[u64],
    places: &[u32],
) -> quick_words::Words
    requires { (at ≤ length block.now) × (letter ≡ get_or block.now at 0) }
    ensures { 0 < result.width → Passing form counts companies.now modes.now stations.now footnotes.now
        block.now at letter n k stops result }
{
    match letter {
        b'#' => quick_records::service_head(block, at, n, k),
        b'%' => quick_records::train_number(block, at, n, counts.companies, companies, places),
        b'-' => quick_footnotes::validity(block, at, n, counts.footnotes, footnotes, places),
        b'&' => quick_records::transport(block, at, n, counts.modes, modes, places),
        b'*' => quick_footnotes::attribute(block, at, n, counts.footnotes, footnotes, places),
        b'+' => quick_stops::interval(block, at, n, stops, counts.stations, stations, places),
        b';' => quick_stops::passed(block, at, n, counts.stations, stations, places),
        _ => {
            if !order::is_stop(letter as u64) {
                return quick_words::untold();
            }
            quick_stops::plain_stop(block, at, n, stops, counts.stations, stations, places)
        }
    }
}

// Words that were told, of a line at `at` that leads to `to` after some stops: put as row `i`.
fn put_words(
    letter: u8,
    w: quick_words::Words,
    at: usize,
    to: iff::Stand,
    stops: u64,
    number: u64,
    t: &mut [u64],
    i: usize,
) -> Option<(usize, iff::InBlock)>
    requires { (0 < w.width → at + w.width + 2 < 18446744073709551616) × (stops ≤ most_stops)
        × (i * row_width Timetbls + row_width Timetbls ≤ length t.old) }
    ensures { WordsPut letter w at to stops number t.old t.new i result }
{
    if w.width == 0 {
        return None;
    }
    let row = [letter as u64, w.one, w.two, w.three, w.four, 0, number];
    table_writes::put_row(t, tables::BLOCK_WIDTH, i, &row);
    let next = at + w.width + 2;
    let after = stops + stop_for(letter);
    Some((
        next,
        iff::InBlock {
            stand: to,
            stops: after,
        },
    ))
}

// The line at `at`, which is line `number` and no platform record: its row put as row `i`. Where the next line begins, and how the block stands
// there; or nothing is said of this line.
pub fn put_line(
    letter: u8,
    block: &[u8],
    at: usize,
    form: iff::Form,
    st: iff::InBlock,
    n: u64,
    k: u64,
    number: u64,
    t: &mut [u64],
    i: usize,
    counts: references::BlockCounts,
    companies: &[u64],
    modes: &[u64],
    stations: &[u64],
    footnotes: &[u64],
    places: &[u32],
) -> Option<(usize, iff::InBlock)>
    requires { (at < length block.now) × (letter ≡ get_or block.now at 0) × (st.stops ≤ most_stops)
        × (i * row_width Timetbls + row_width Timetbls ≤ length t.old) }
    ensures { LineTurn form
        (keys_from form counts companies.now modes.now stations.now footnotes.now)
        block.now at st n k number t.old t.new i result }
{
    let stand = st.stand;
    let stops = st.stops;
    let to = goes_on(stand, letter)?;
    let w = tested_words(
        letter, block, at, form, stops, n, k, counts, companies, modes, stations, footnotes, places,
    );
    put_words(letter, w, at, to, stops, number, t, i)
}

// The platform record at `at`, likewise.
pub fn put_platform(
    letter: u8,
    block: &[u8],
    at: usize,
    form: iff::Form,
    st: iff::InBlock,
    n: u64,
    k: u64,
    number: u64,
    t: &mut [u64],
    i: usize,
    counts: references::BlockCounts,
    companies: &[u64],
    modes: &[u64],
    stations: &[u64],
    footnotes: &[u64],
    places: &[u32],
) -> Option<(usize, iff::InBlock)>
    requires { (at < length block.now) × (letter ≡ get_or block.now at 0) × (st.stops ≤ most_stops)
        × (i * row_width Timetbls + row_width Timetbls ≤ length t.old) }
    ensures { LineTurn form
        (keys_from form counts companies.now modes.now stations.now footnotes.now)
        block.now at st n k number t.old t.new i result }
{
    if letter != b'?' {
        return None;
    }
    let stand = st.stand;
    let stops = st.stops;
    let to = order::goes(stand, letter)?;
    let w = quick_footnotes::platform(block, at, n, counts.footnotes, footnotes, places);
    put_words(letter, w, at, to, stops, number, t, i)
}
