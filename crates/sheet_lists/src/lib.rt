// The questions of a sheet answered one after the other, of a store that was found sound: each by itself, and its answer put where it belongs.
#![tactic(auto)]

ghost use Rattle.std.specs.Prelude.{◌≡◌, List, true, ◌+◌, ◌*◌, ◌≤◌, length};
ghost use Rattle.iff.specs.Files.{PerFile};
ghost use Rattle.iff.specs.Tables.{Row, put_row};
ghost use Rattle.iff_desk.specs.Changing.{change_in};
ghost use Rattle.iff_desk.specs.Sheet.{question_width, answer_width, side_at, from_at, to_at, answers_by};
ghost use Rattle.changing.specs.Agree.{RowsOf, Ready};
ghost use Rattle.changing.specs.Sides.{side_of};
ghost use Rattle.lost_services.specs.Told.{ServicesTold};
ghost use Rattle.sheet_answers.specs.Words.{sheet_words, answered_in};

use changing::Visit;
use needed_times::StoreCounts;

// How many words a question has, and one side of it.
pub const QUESTION_WIDTH: usize = 6;

pub const SIDE_WIDTH: usize = 3;

// One side of a question: a service, a stop of it and a date, from word `at` on.
fn side_at(questions: &[u64], at: usize) -> Visit
    requires { at + 3 ≤ length questions.now }
    ensures { side_of result ≡ side_at questions.now at }
{
    Visit {
        service: questions[at],
        stop: questions[at + 1],
        date: questions[at + 2],
    }
}

// Question `q` answered, and its answer put into the list.
fn put_answer(
    delivery: &[u64],
    timezone: &[u64],
    stations: &[u64],
    footnote: &[u64],
    timetbls: &[u64],
    changes: &[u64],
    xfootnote: &[u64],
    xchanges: &[u64],
    places: &[u32],
    services_told: bool,
    counts: StoreCounts,
    questions: &[u64],
    q: usize,
    answers: &mut [u64],
)
    requires { Ready counts places.now delivery.now timezone.now stations.now footnote.now timetbls.now changes.now xfootnote.now xchanges.now
        × ServicesTold services_told counts.timetbls timetbls.now places.now
        × (q * question_width + question_width ≤ length questions.now)
        × (q * answer_width + answer_width ≤ length answers.old) }
    ensures { (R : PerFile (List Row))
        → RowsOf R delivery.now timezone.now stations.now footnote.now timetbls.now
        changes.now xfootnote.now xchanges.now
        → answers.new
        ≡ put_row answer_width answers.old q
        (sheet_words (change_in true R (from_at questions.now q) (to_at questions.now q))) }
{
    let at = q * QUESTION_WIDTH;
    let from = side_at(questions, at);
    let to = side_at(questions, at + SIDE_WIDTH);
    let told = lost_services::change_or_lost(
        delivery,
        timezone,
        stations,
        footnote,
        timetbls,
        changes,
        xfootnote,
        xchanges,
        places,
        services_told,
        counts,
        from,
        to,
    );
    let words = sheet_answers::answer_words(told);
    table_writes::put_row(answers, sheet_answers::ANSWER_WIDTH, q, &words);
}

// The first `asked` questions answered, in order. A question that is refused is answered by its number, and the next one comes.
pub fn put_answers(
    delivery: &[u64],
    timezone: &[u64],
    stations: &[u64],
    footnote: &[u64],
    timetbls: &[u64],
    changes: &[u64],
    xfootnote: &[u64],
    xchanges: &[u64],
    places: &[u32],
    services_told: bool,
    counts: StoreCounts,
    questions: &[u64],
    asked: usize,
    answers: &mut [u64],
)
    requires { Ready counts places.now delivery.now timezone.now stations.now footnote.now timetbls.now changes.now xfootnote.now xchanges.now
        × ServicesTold services_told counts.timetbls timetbls.now places.now
        × (asked * question_width ≤ length questions.now)
        × (asked * answer_width ≤ length answers.old) }
    ensures { (R : PerFile (List Row))
        → RowsOf R delivery.now timezone.now stations.now footnote.now timetbls.now
        changes.now xfootnote.now xchanges.now
        → answers.new ≡ answered_in (answers_by (change_in true R) questions.now 0 asked) answers.old asked }
{
    for q in 0..asked {
        put_answer(
            delivery,
            timezone,
            stations,
            footnote,
            timetbls,
            changes,
            xfootnote,
            xchanges,
            places,
            services_told,
            counts,
            questions,
            q,
            answers,
        );
    }
}
