// "A connection sheet asks a thousand changes and each call tests the tables again. We want a call that takes a list of questions, tests once, and fills
// a lent list of answers, each the one that the single question gives." Eleven lent tables of any length and content, and two lists of any length.
#![tactic(auto)]

ghost use Rattle.iff.specs.Files.{eleven};
ghost use Rattle.sheets.specs.Sheeted.{Sheeted};

use iff::{Reason, Test};

// A sheet: 16, then 23, and else every question has the answer that it has by itself.
pub fn sheet(
    delivery: &[u64],
    company: &[u64],
    country: &[u64],
    trnsmode: &[u64],
    timezone: &[u64],
    stations: &[u64],
    footnote: &[u64],
    timetbls: &[u64],
    changes: &[u64],
    xfootnote: &[u64],
    xchanges: &[u64],
    questions: &[u64],
    answers: &mut [u64],
) -> Test
    ensures { Sheeted (eleven delivery.now company.now country.now trnsmode.now
        timezone.now stations.now footnote.now timetbls.now changes.now
        xfootnote.now xchanges.now) questions.now answers.old result answers.new }
{
    let mut places = [0u32; sound::SLOTS];
    let Some(services_told) = sound::tell_soundness(
        delivery,
        company,
        country,
        trnsmode,
        timezone,
        stations,
        footnote,
        timetbls,
        changes,
        xfootnote,
        xchanges,
        &mut places,
    ) else {
        return Err(Reason::NotSound);
    };
    sheet_fills::fill_list(
        delivery,
        timezone,
        stations,
        footnote,
        timetbls,
        changes,
        xfootnote,
        xchanges,
        &mut places,
        services_told,
        questions,
        answers,
    )
}
