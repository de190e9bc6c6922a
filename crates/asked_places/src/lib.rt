// The places of the services that a sheet names, found before its first question: a hint where to look. Where some had none, one pass over TIMETBLS
// finds all of them, and no question goes through it.
#![tactic(auto)]

ghost use Rattle.std.specs.Prelude.{◌≡◌, ◌+◌, ◌*◌, ◌≤◌, length};
ghost use Rattle.iff_desk.specs.Sheet.{question_width};

// Asks for those of question `q` that have no place yet, and tells whether any was asked for so far.
fn ask_in_question(
    so_far: bool,
    questions: &[u64],
    q: usize,
    timetbls: &[u64],
    used: usize,
    places: &mut [u32],
) -> bool
    requires { q * question_width + question_width ≤ length questions.now }
    ensures { length places.new ≡ length places.old }
{
    let at = q * sheet_lists::QUESTION_WIDTH;
    let from = questions[at];
    let to = questions[at + sheet_lists::SIDE_WIDTH];
    let one = named_places::ask_missing(so_far, timetbls, used, places, from);
    named_places::ask_missing(one, timetbls, used, places, to)
}

// Finds the places of the services that the first `asked` questions name, and tells whether any had none before.
pub fn place_services(
    questions: &[u64],
    asked: usize,
    timetbls: &[u64],
    used: usize,
    places: &mut [u32],
) -> bool
    requires { asked * question_width ≤ length questions.now }
    ensures { length places.new ≡ length places.old }
{
    let mut missing = false;
    for q in 0..asked {
        missing = ask_in_question(missing, questions, q, timetbls, used, places);
    }
    if missing {
        places::index_asked(timetbls, used, places);
    }
    missing
}
