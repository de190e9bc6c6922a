// The first lines of files, read: what the readers of the lines after them share.
#![tactic(auto)]

ghost use Rattle.std.specs.Prelude.{◌≡◌, true, ◌<◌, length};
ghost use Rattle.iff.specs.Refusals.{fine};
ghost use Rattle.iff.specs.declared.File.TheVariants.{Delivery};
ghost use Rattle.reading.specs.Reading.{head_line, Ready, FirstRead, DeliveryRead};

use iff::{File, Reason, Verdict};

// A file's first line: tested, and its row put into the empty table. Until the rows after it are read, their keys are taken to rise, as none do.
// Where the lines after it begin.
pub fn begin_file(
    file: File,
    text: &[u8],
    header: &[u8],
    t: &mut [u64],
) -> Result<usize, iff::Reason>
    requires { (0 < length text.now) × Ready file text.now t.old }
    ensures { FirstRead file header.now text.now t.old t.new
        (head_line text.now) result }
{
    let s = text::line_at(text, 0);
    let end = s.end;
    let ended = s.ended;
    let next = s.next;
    first_lines::first_line(&text[0..end], ended, header)?;
    let w = tables::row_width(file);
    first_lines::put_first(file, true, &text[0..end], &mut t[0..w]);
    Ok(next)
}

// DELIVERY, after a verdict on what came before it: its first line, which is as itself, and no line more.
pub fn read_delivery(v: Verdict, text: &[u8], t: &mut [u64]) -> Verdict
    requires { fine v ≡ true → Ready Delivery text.now t.old }
    ensures { DeliveryRead text.now v t.old t.new result }
{
    v?;
    if text.len() == 0 {
        return Ok(());
    }
    let s = text::line_at(text, 0);
    let end = s.end;
    match begin_file(File::Delivery, text, &text[0..end], t) {
        Err(r) => Err(iff::Fault {
            reason: r,
            place: Some(iff::Place {
                file: File::Delivery,
                ordinal: 0,
                line: 1,
            }),
        }),
        Ok(from) => {
            if from < text.len() {
                return Err(iff::Fault {
                    reason: Reason::Order,
                    place: Some(iff::Place {
                        file: File::Delivery,
                        ordinal: 0,
                        line: 2,
                    }),
                });
            }
            Ok(())
        }
    }
}

// The body of a text's first line; nothing where there is none.
pub fn first_body<'a>(text: &'a [u8]) -> &'a [u8]
    ensures { result.now ≡ (head_line text.now).body }
{
    if text.len() == 0 {
        return &text[0..0];
    }
    let s = text::line_at(text, 0);
    let end = s.end;
    &text[0..end]
}
