// The files of rows: COMPANY, COUNTRY, TRNSMODE, STATIONS. A first line, and the rows after it.
#![tactic(auto)]

ghost use Rattle.std.specs.Prelude.{◌≡◌, true};
ghost use Rattle.iff.specs.Refusals.{fine};
ghost use Rattle.iff.specs.declared.File.TheVariants.{Rows};
ghost use Rattle.references.specs.Agree.{StationKeys};
ghost use Rattle.reading.specs.Reading.{Ready, FileRead};

use iff::{File, Form, RowFile, Verdict};

// A whole file of rows, after a verdict on what came before it: a fault is handed on, and an absent file has none.
pub fn read_row_file(
    file: RowFile,
    v: Verdict,
    form: Form,
    text: &[u8],
    header: &[u8],
    t: &mut [u64],
    countries: &[u64],
    zones: &[u64],
) -> Verdict
    requires { fine v ≡ true → Ready (Rows file) text.now t.old }
    ensures { FileRead (Rows file) form (λ c. StationKeys c countries.now zones.now)
        header.now text.now v t.old t.new result }
{
    v?;
    if text.len() == 0 {
        return Ok(());
    }
    match heads::begin_file(File::Rows(file), text, header, t) {
        Err(r) => Err(iff::Fault {
            reason: r,
            place: Some(iff::Place {
                file: File::Rows(file),
                ordinal: 0,
                line: 1,
            }),
        }),
        Ok(from) => {
            let rises = file_rows::read_rows(file, form, text, from, t, countries, zones)?;
            head_words::set_rises(t, rises);
            Ok(())
        }
    }
}
