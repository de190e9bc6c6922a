// A service's rows in TIMETBLS give way to those of a block that was found whole. The rows behind them move within the table.
#![tactic(auto)]

ghost use Rattle.std.specs.Prelude.{◌≡◌, ◌++◌, length};
ghost use Rattle.iff.specs.Tables.{row_width, fill};
ghost use Rattle.iff.specs.declared.File.TheVariants.{Timetbls};
ghost use Rattle.iff_rules.specs.Rows.{as_block, block_rows};
ghost use Rattle.keys.specs.Blocks.{rows_between};
ghost use Rattle.block_edits.specs.Replace.{Replaceable};

// Rows `from` to `to` (not included) of TIMETBLS give way to the rows of a block that was found whole, of `lines` lines and `stops` stops;
// the rows behind them move within the table, and places that are freed are cleared.
pub fn replace_block(
    t: &mut [u64],
    used: usize,
    from: usize,
    to: usize,
    block: &[u8],
    form: iff::Form,
    lines: u64,
    stops: u64,
)
    requires { Replaceable form block.now t.old used from to lines stops }
    ensures { t.new ≡ fill (row_width Timetbls) (length t.old)
        (rows_between (row_width Timetbls) t.old 0 from
        ++ (block_rows form (as_block block.now) ++ rows_between (row_width Timetbls) t.old to used)) }
{
    let behind = from + lines as usize;
    row_moves::move_rest(
        t,
        to * tables::BLOCK_WIDTH,
        used * tables::BLOCK_WIDTH,
        behind * tables::BLOCK_WIDTH,
    );
    block_rows::write_block(block, form, lines, stops, t, from);
}
