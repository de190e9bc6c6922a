// The check program's second line, put together as text in a lent buffer. What has no room is cut off.
#![tactic(auto)]

ghost use Rattle.std.specs.Prelude.{◌∷◌, Err, Ok};
ghost use Rattle.iff.specs.Bytes.{blank};
ghost use Rattle.text_puts.specs.Texts.{Appended, Front};
ghost use Rattle.reports.specs.Report.{place_name, field, answer_line, where_text, report_line};
ghost use Rattle.reports.specs.declared.Report.TheVariants.{Larger};
ghost use Rattle.iff.specs.Refusals.{accepted_with, fault_at};

use iff::{Answer, Reason};
use name_puts::put_name;
use text_puts::{put_byte, put_bytes, put_digits};

const BLANK: u8 = 32;

const LF: u8 = 10;

// What the check program says of a delivery: the first file that is larger than it reads, or the load's answer. Two things to say, of which neither is
// the other's error: so no `Result`.
#[derive(Clone, Copy)]
pub enum Report {
    Larger(Option<iff::Place>),
    Answered(Answer),
}

// FIELDS

// A number behind a blank.
fn put_field(out: &mut [u8], at: usize, n: u64) -> usize
    ensures { Appended out.old at (field n) out.new result }
{
    let to = put_byte(out, at, BLANK);
    put_digits(out, to, n, 19)
}

// A place's file behind a blank; 0 where there is none.
fn put_place(out: &mut [u8], at: usize, place: Option<iff::Place>) -> usize
    ensures { Appended out.old at (blank ∷ place_name place) out.new result }
{
    let to = put_byte(out, at, BLANK);
    match place {
        None => put_byte(out, to, 48),
        Some(place) => put_name(out, to, place.file),
    }
}

// LINES

fn put_accepted(out: &mut [u8], days: u64, services: u64) -> usize
    ensures { Appended out.old 0 (answer_line (accepted_with days services)) out.new result }
{
    let a = put_bytes(out, 0, b"accepted");
    let b = put_field(out, a, days);
    let c = put_field(out, b, services);
    put_byte(out, c, LF)
}

// What follows the number of a refusal.
fn put_where(out: &mut [u8], at: usize, place: Option<iff::Place>) -> usize
    ensures { Appended out.old at (where_text place) out.new result }
{
    let a = put_place(out, at, place);
    let b = put_field(out, a, numbers::ordinal_of(place));
    let c = put_field(out, b, numbers::line_of(place));
    put_byte(out, c, LF)
}

fn put_refused(out: &mut [u8], reason: Reason, place: Option<iff::Place>) -> usize
    ensures { Appended out.old 0 (answer_line (fault_at reason place)) out.new result }
{
    let a = put_bytes(out, 0, b"refused");
    let b = put_field(out, a, numbers::number_of(reason));
    put_where(out, b, place)
}

fn put_larger(out: &mut [u8], place: Option<iff::Place>) -> usize
    ensures { Appended out.old 0 (report_line (Larger place)) out.new result }
{
    let a = put_bytes(out, 0, b"larger");
    let b = put_place(out, a, place);
    put_byte(out, b, LF)
}

fn put_answer(answer: Answer, out: &mut [u8]) -> usize
    ensures { Appended out.old 0 (answer_line answer) out.new result }
{
    match answer {
        Ok(done) => put_accepted(out, done.days, done.services),
        Err(fault) => put_refused(out, fault.reason, fault.place),
    }
}

// The check program's second line, at the front of a buffer, and its length.
pub fn put_report(report: Report, out: &mut [u8]) -> usize
    ensures front { Front result out.new }
    ensures appended { Appended out.old 0 (report_line report) out.new result }
{
    match report {
        Report::Larger(place) => put_larger(out, place),
        Report::Answered(answer) => put_answer(answer, out),
    }
}
