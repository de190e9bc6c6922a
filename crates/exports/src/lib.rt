// The proved library for programs in other languages. A slice is handed over as a pointer and a length, an array as a pointer.
#![tactic(auto)]

ghost use Rattle.std.specs.Prelude.{length, ◌≡◌};
ghost use Rattle.iff.specs.Files.{eleven};
ghost use Rattle.iff_desk.specs.Sound.{sound as are_sound};
ghost use Rattle.iff_desk.specs.Running.{running_day};
ghost use Rattle.iff_desk.specs.Stops.{stop_time};
ghost use Rattle.iff_desk.specs.Changing.{change as change_to, rank as rank_by};
ghost use Rattle.question_numbers.specs.Numbers.{sound_number, running_words};
ghost use Rattle.exports.specs.Exported.{LoadedInNumbers, AmendedInNumbers, NamedInNumbers, LinesInNumbers, TimedInNumbers, ChangedInNumbers, SheetedInNumbers};

use iff_desk::Riding;

// A load: eleven files, eleven tables, and where the answer goes. It asks nothing of them.
#[unsafe(no_mangle)]
pub extern "C" fn calyxcabin_load(
    delivery: &[u8],
    company: &[u8],
    country: &[u8],
    trnsmode: &[u8],
    timezone: &[u8],
    stations: &[u8],
    footnote: &[u8],
    timetbls: &[u8],
    changes: &[u8],
    xfootnote: &[u8],
    xchanges: &[u8],
    t_delivery: &mut [u64],
    t_company: &mut [u64],
    t_country: &mut [u64],
    t_trnsmode: &mut [u64],
    t_timezone: &mut [u64],
    t_stations: &mut [u64],
    t_footnote: &mut [u64],
    t_timetbls: &mut [u64],
    t_changes: &mut [u64],
    t_xfootnote: &mut [u64],
    t_xchanges: &mut [u64],
    answer: &mut [u64; 6],
)
    ensures { LoadedInNumbers
        (eleven delivery.now company.now country.now trnsmode.now timezone.now
        stations.now footnote.now timetbls.now changes.now xfootnote.now
        xchanges.now)
        (eleven (length t_delivery.old) (length t_company.old) (length t_country.old)
        (length t_trnsmode.old) (length t_timezone.old) (length t_stations.old)
        (length t_footnote.old) (length t_timetbls.old) (length t_changes.old)
        (length t_xfootnote.old) (length t_xchanges.old))
        answer.new
        (eleven t_delivery.new t_company.new t_country.new t_trnsmode.new
        t_timezone.new t_stations.new t_footnote.new t_timetbls.new
        t_changes.new t_xfootnote.new t_xchanges.new) }
{
    let loaded = load::load(
        delivery,
        company,
        country,
        trnsmode,
        timezone,
        stations,
        footnote,
        timetbls,
        changes,
        xfootnote,
        xchanges,
        t_delivery,
        t_company,
        t_country,
        t_trnsmode,
        t_timezone,
        t_stations,
        t_footnote,
        t_timetbls,
        t_changes,
        t_xfootnote,
        t_xchanges,
    );
    *answer = numbers::words_of(loaded);
}

// An amendment: eleven tables, of which TIMETBLS is written where it is accepted, a service and its block, and where the answer goes. It asks nothing
// of them.
#[unsafe(no_mangle)]
pub extern "C" fn calyxcabin_amend(
    delivery: &[u64],
    company: &[u64],
    country: &[u64],
    trnsmode: &[u64],
    timezone: &[u64],
    stations: &[u64],
    footnote: &[u64],
    timetbls: &mut [u64],
    changes: &[u64],
    xfootnote: &[u64],
    xchanges: &[u64],
    service: u64,
    block: &[u8],
    answer: &mut [u64; 6],
)
    ensures { AmendedInNumbers
        (eleven delivery.now company.now country.now trnsmode.now timezone.now
        stations.now footnote.now timetbls.old changes.now xfootnote.now
        xchanges.now)
        service block.now answer.new timetbls.new }
{
    let amended = amend::amend(
        delivery, company, country, trnsmode, timezone, stations, footnote, timetbls, changes,
        xfootnote, xchanges, service, block,
    );
    *answer = numbers::words_of(amended);
}

// A station's name: the file it stands in, its short name, and where the answer goes.
#[unsafe(no_mangle)]
pub extern "C" fn calyxcabin_name(stations: &[u8], short: u64, answer: &mut [u64; 3])
    ensures { NamedInNumbers stations.now short answer.new }
{
    let part = station_names::name_part(stations, short);
    let test = part.test;
    *answer = question_numbers::part_words(test, part.from, part.to);
}

// A service's lines now: the TIMETBLS file, an amendment's block or an empty one, and where the answer goes.
#[unsafe(no_mangle)]
pub extern "C" fn calyxcabin_lines_now(
    text: &[u8],
    block: &[u8],
    service: u64,
    answer: &mut [u64; 4],
)
    ensures { LinesInNumbers text.now block.now service answer.new }
{
    if service_lines::is_one_block(block, service) {
        *answer = question_numbers::lines_words(Ok(()), true, 0, block.len());
        return;
    }
    let part = service_lines::lines_part(text, service);
    let test = part.test;
    *answer = question_numbers::lines_words(test, false, part.from, part.to);
}

// 16: whether eleven tables are sound, 0 or 16. Every question below tests it first.
#[unsafe(no_mangle)]
pub extern "C" fn calyxcabin_is_sound(
    delivery: &[u64],
    company: &[u64],
    country: &[u64],
    trnsmode: &[u64],
    timezone: &[u64],
    stations: &[u64],
    footnote: &[u64],
    timetbls: &[u64],
    changes: &[u64],
    xfootnote: &[u64],
    xchanges: &[u64],
) -> u64
    ensures { result ≡ sound_number (are_sound
        (eleven delivery.now company.now country.now trnsmode.now timezone.now
        stations.now footnote.now timetbls.now changes.now xfootnote.now
        xchanges.now)) }
{
    let sound = sound_tables::is_sound(
        delivery, company, country, trnsmode, timezone, stations, footnote, timetbls, changes,
        xfootnote, xchanges,
    );
    question_numbers::sound_number(sound)
}

// Running day: eleven tables, service, leg and date, and where the answer goes.
#[unsafe(no_mangle)]
pub extern "C" fn calyxcabin_running_day(
    delivery: &[u64],
    company: &[u64],
    country: &[u64],
    trnsmode: &[u64],
    timezone: &[u64],
    stations: &[u64],
    footnote: &[u64],
    timetbls: &[u64],
    changes: &[u64],
    xfootnote: &[u64],
    xchanges: &[u64],
    service: u64,
    leg: u64,
    date: u64,
    answer: &mut [u64; 2],
)
    ensures { answer.new ≡ running_words (running_day
        (eleven delivery.now company.now country.now trnsmode.now timezone.now
        stations.now footnote.now timetbls.now changes.now xfootnote.now
        xchanges.now)
        service leg date) }
{
    let told = desk::running_day(
        delivery, company, country, trnsmode, timezone, stations, footnote, timetbls, changes,
        xfootnote, xchanges, service, leg, date,
    );
    *answer = question_numbers::running_words(told);
}

// Stop time: eleven tables, service, stop and date, and where the answer and its minutes go.
#[unsafe(no_mangle)]
pub extern "C" fn calyxcabin_stop_time(
    delivery: &[u64],
    company: &[u64],
    country: &[u64],
    trnsmode: &[u64],
    timezone: &[u64],
    stations: &[u64],
    footnote: &[u64],
    timetbls: &[u64],
    changes: &[u64],
    xfootnote: &[u64],
    xchanges: &[u64],
    service: u64,
    stop: u64,
    date: u64,
    answer: &mut [u64; 4],
    minutes: &mut [i32; 4],
)
    ensures { TimedInNumbers (stop_time
        (eleven delivery.now company.now country.now trnsmode.now timezone.now
        stations.now footnote.now timetbls.now changes.now xfootnote.now
        xchanges.now)
        service stop date) answer.new minutes.new }
{
    let told = desk::stop_time(
        delivery, company, country, trnsmode, timezone, stations, footnote, timetbls, changes,
        xfootnote, xchanges, service, stop, date,
    );
    *answer = question_numbers::stop_time_words(told);
    *minutes = question_numbers::stop_time_minutes(told);
}

// Change: eleven tables, a service, a stop of it and its date, the same for the other service, and where the answer and the gap go.
#[unsafe(no_mangle)]
pub extern "C" fn calyxcabin_change(
    delivery: &[u64],
    company: &[u64],
    country: &[u64],
    trnsmode: &[u64],
    timezone: &[u64],
    stations: &[u64],
    footnote: &[u64],
    timetbls: &[u64],
    changes: &[u64],
    xfootnote: &[u64],
    xchanges: &[u64],
    from_service: u64,
    from_stop: u64,
    from_date: u64,
    to_service: u64,
    to_stop: u64,
    to_date: u64,
    answer: &mut [u64; 7],
    gap: &mut [i32; 1],
)
    ensures { ChangedInNumbers (change_to
        (eleven delivery.now company.now country.now trnsmode.now timezone.now
        stations.now footnote.now timetbls.now changes.now xfootnote.now
        xchanges.now)
        (record { service = from_service; stop = from_stop; date = from_date })
        (record { service = to_service; stop = to_stop; date = to_date })) answer.new gap.new }
{
    let told = desk::change(
        delivery,
        company,
        country,
        trnsmode,
        timezone,
        stations,
        footnote,
        timetbls,
        changes,
        xfootnote,
        xchanges,
        from_service,
        from_stop,
        from_date,
        to_service,
        to_stop,
        to_date,
    );
    *answer = change_numbers::change_words(told);
    *gap = change_numbers::change_gap(told);
}

// Sheet: eleven tables, a list of changes, six words each, and the list that the answers go into, eight words each: a change's seven and its gap as a
// signed number. 0, or the refusal: 16, or 23 where there is room for fewer answers than questions; then no answer is written.
#[unsafe(no_mangle)]
pub extern "C" fn calyxcabin_sheet(
    delivery: &[u64],
    company: &[u64],
    country: &[u64],
    trnsmode: &[u64],
    timezone: &[u64],
    stations: &[u64],
    footnote: &[u64],
    timetbls: &[u64],
    changes: &[u64],
    xfootnote: &[u64],
    xchanges: &[u64],
    questions: &[u64],
    answers: &mut [u64],
) -> u64
    ensures { SheetedInNumbers
        (eleven delivery.now company.now country.now trnsmode.now timezone.now
        stations.now footnote.now timetbls.now changes.now xfootnote.now
        xchanges.now)
        questions.now answers.old result answers.new }
{
    let told = sheets::sheet(
        delivery, company, country, trnsmode, timezone, stations, footnote, timetbls, changes,
        xfootnote, xchanges, questions, answers,
    );
    question_numbers::part_number(told)
}

// The rank of an exception by its four keys as the table of XCHANGES has them: its pattern's place on the desk's card. It asks no table.
#[unsafe(no_mangle)]
pub extern "C" fn calyxcabin_rank(
    from_company: u64,
    from_mode: u64,
    to_company: u64,
    to_mode: u64,
) -> u64
    ensures { result ≡ rank_by (record { company = from_company; mode = from_mode }) (record { company = to_company; mode = to_mode }) }
{
    let from = Riding {
        company: from_company,
        mode: from_mode,
    };
    let to = Riding {
        company: to_company,
        mode: to_mode,
    };
    ranks::rank(from, to)
}
