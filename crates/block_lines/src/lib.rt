// One line of a TIMETBLS block: its tests in their order, and where it leads.
#![tactic(auto)]

ghost use Rattle.std.specs.Prelude.{◌≡◌, true, cond, ◌+◌, ◌≤◌, eqb, length, get_or};
ghost use Rattle.iff.specs.Bytes.{hash};
ghost use Rattle.iff_rules.specs.Meaning.{most_stops};
ghost use Rattle.iff_rules.specs.Order.{is_stop};
ghost use Rattle.iff_rules.specs.Legs.{one};
ghost use Rattle.iff.specs.Tables.{row_width};
ghost use Rattle.iff.specs.declared.Form.{Form};
ghost use Rattle.iff.specs.declared.File.TheVariants.{Timetbls};
ghost use Rattle.block_lines.specs.Lines.{keys_from, row_test, record_test, block_step};

// A `#` must name a new service; no other record names one.
fn is_new(tag: u64, fresh: bool) -> bool
    ensures { result ≡ cond (eqb tag hash) fresh true }
{
    if tag == iff::tags::HASH {
        return fresh;
    }
    true
}

// What a record's row says: its values, whether its service is new, and whether what it names is there.
fn row_test(
    row: &[u64],
    stops: u64,
    fresh: bool,
    counts: references::BlockCounts,
    companies: &[u64],
    modes: &[u64],
    stations: &[u64],
    footnotes: &[u64],
    places: &[u32],
) -> iff::Test
    requires { length row.now ≡ row_width Timetbls }
    ensures { (form : Form) → result ≡ row_test
        (keys_from form counts companies.now modes.now stations.now footnotes.now)
        fresh stops row.now }
{
    if !meanings::block_means(stops as usize, row) {
        return Err(iff::Reason::Value);
    }
    if !is_new(row[iff::words::TAG], fresh) {
        return Err(iff::Reason::Duplicate);
    }
    if !block_references::met_in_block(row, counts, companies, modes, stations, footnotes, places) {
        return Err(iff::Reason::Reference);
    }
    Ok(())
}

// What a line says that may stand where it stands: its columns first, and then its row.
fn record_test(
    letter: u8,
    line: &[u8],
    ended: bool,
    form: iff::Form,
    stops: u64,
    fresh: bool,
    counts: references::BlockCounts,
    companies: &[u64],
    modes: &[u64],
    stations: &[u64],
    footnotes: &[u64],
    places: &[u32],
) -> iff::Test
    requires { letter ≡ get_or line.now 0 0 }
    ensures { result ≡ record_test
        (keys_from form counts companies.now modes.now stations.now footnotes.now)
        fresh stops (record { body = line.now; ended = ended }) }
{
    let kind = records::block_record(letter);
    let mut row = [0u64; tables::BLOCK_WIDTH];
    record_lines::read_line(kind, letter as u64, form, line, ended, &mut row)?;
    row_test(
        &row, stops, fresh, counts, companies, modes, stations, footnotes, places,
    )
}

// Where a block stands after a record that was let through.
fn after_record(to: iff::Stand, stops: u64, letter: u8) -> iff::InBlock
    requires { stops ≤ most_stops }
    ensures { result ≡ record { stand = to; stops = stops + one (is_stop letter) } }
{
    if order::is_stop(letter as u64) {
        return iff::InBlock {
            stand: to,
            stops: stops + 1,
        };
    }
    iff::InBlock {
        stand: to,
        stops: stops,
    }
}

// One line after `st`, CR LF not counted: what it leads to.
pub fn block_line(
    line: &[u8],
    ended: bool,
    form: iff::Form,
    st: iff::InBlock,
    fresh: bool,
    counts: references::BlockCounts,
    companies: &[u64],
    modes: &[u64],
    stations: &[u64],
    footnotes: &[u64],
    places: &[u32],
) -> Result<iff::InBlock, iff::Reason>
    requires { st.stops ≤ most_stops }
    ensures { result ≡ block_step
        (keys_from form counts companies.now modes.now stations.now footnotes.now)
        fresh st (record { body = line.now; ended = ended }) }
{
    let letter = text::first_byte(line);
    if !first_bytes::is_known_in_block(letter) {
        return Err(iff::Reason::Layout);
    }
    let stand = st.stand;
    let stops = st.stops;
    match order::goes(stand, letter) {
        None => Err(iff::Reason::Order),
        Some(to) => {
            record_test(
                letter, line, ended, form, stops, fresh, counts, companies, modes, stations,
                footnotes, places,
            )?;
            Ok(after_record(to, stops, letter))
        },
    }
}
