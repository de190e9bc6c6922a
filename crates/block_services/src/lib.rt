// The service that a TIMETBLS block names, read from its first line.
#![tactic(auto)]

ghost use Rattle.std.specs.Prelude.{◌≡◌};
ghost use Rattle.iff_rules.specs.Rows.{as_block};
ghost use Rattle.iff.specs.declared.Form.{Form};
ghost use Rattle.iff_rules.specs.Load.{service_of};
ghost use Rattle.block_services.specs.Heads.{head_word};

// The first word after the tag of a line's row, by the line's letter, whether or not the line may be read.
fn head_word(line: &[u8]) -> u64
    ensures { (form : Form) → result ≡ head_word form line.now }
{
    match text::first_byte(line) {
        b'#' => text::number(text::columns_of(line, 1, 9)),
        b'%' => text::number(text::columns_of(line, 1, 4)),
        b'-' => text::number(text::columns_of(line, 1, 6)),
        b'&' => text::code(text::columns_of(line, 1, 5)),
        b'*' => text::code(text::columns_of(line, 1, 5)),
        b'?' => text::number(text::columns_of(line, 13, 18)),
        _ => text::code(text::columns_of(line, 1, 8)),
    }
}

// The service of a block is the number in its first line. Any text has one, so that a caller may ask before the block is checked.
pub fn service_of(block: &[u8]) -> u64
    ensures { (form : Form) → result ≡ service_of form (as_block block.now) }
{
    match text::line_end(block, 0) {
        Some(e) => head_word(&block[0..e]),
        None => head_word(block),
    }
}
