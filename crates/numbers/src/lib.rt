// The paper's numbers: of a refusal, of a file and of a place; and the answer of a load or an amendment in such numbers, for callers to whom an enum
// cannot be handed.
#![tactic(auto)]

ghost use Rattle.std.specs.Prelude.{◌≡◌};
ghost use Rattle.iff.specs.Files.{file_number, file_at};
ghost use Rattle.iff.specs.Refusals.{number, ordinal, line_at};
ghost use Rattle.numbers.specs.Numbers.{answer_words};

use iff::{Answer, File, GroupFile, Reason, RowFile};

pub fn number_of(reason: Reason) -> u64
    ensures { result ≡ number reason }
{
    match reason {
        Reason::TooLong => 1,
        Reason::NoRoom => 2,
        Reason::Absent => 3,
        Reason::Layout => 4,
        Reason::Value => 5,
        Reason::FirstLine => 6,
        Reason::Order => 7,
        Reason::Duplicate => 8,
        Reason::Reference => 9,
        Reason::Legs => 10,
        Reason::NotOneBlock => 11,
        Reason::NoService => 12,
        Reason::NoStop => 13,
        Reason::NoDate => 14,
        Reason::NoPeriod => 15,
        Reason::NotSound => 16,
        Reason::NoStation => 17,
        Reason::ShortList => 23,
    }
}

pub fn number_of_file(file: File) -> u64
    ensures { result ≡ file_number file }
{
    match file {
        File::Delivery => 1,
        File::Rows(rows) => match rows {
            RowFile::Company => 2,
            RowFile::Country => 3,
            RowFile::Trnsmode => 4,
            RowFile::Stations => 6,
        },
        File::Groups(groups) => match groups {
            GroupFile::Timezone => 5,
            GroupFile::Footnote => 7,
            GroupFile::Changes => 9,
            GroupFile::Xfootnote => 10,
            GroupFile::Xchanges => 11,
        },
        File::Timetbls => 8,
    }
}

pub fn file_of(place: Option<iff::Place>) -> u64
    ensures { result ≡ file_at place }
{
    match place {
        None => 0,
        Some(place) => number_of_file(place.file),
    }
}

pub fn ordinal_of(place: Option<iff::Place>) -> u64
    ensures { result ≡ ordinal place }
{
    match place {
        None => 0,
        Some(place) => place.ordinal,
    }
}

pub fn line_of(place: Option<iff::Place>) -> u64
    ensures { result ≡ line_at place }
{
    match place {
        None => 0,
        Some(place) => place.line,
    }
}

// Six numbers: the refusal, its file, ordinal and line; the days and the services.
pub fn words_of(answer: Answer) -> [u64; 6]
    ensures { result ≡ answer_words answer }
{
    match answer {
        Ok(done) => [0, 0, 0, 0, done.days, done.services],
        Err(fault) => {
            let number = number_of(fault.reason);
            let file = file_of(fault.place);
            let ordinal = ordinal_of(fault.place);
            let line = line_of(fault.place);
            [number, file, ordinal, line, 0, 0]
        }
    }
}
