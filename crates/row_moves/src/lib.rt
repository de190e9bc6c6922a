// Words moved within one lent table, and the places that they leave cleared. Rows move as their words do: one pass over what moves.
#![tactic(auto)]

ghost use Rattle.std.specs.Prelude.{◌≡◌};
ghost use Rattle.row_moves.specs.Moves.{moved, Movable};

// The words from `from` on and before `end`, the last that are in use, stand from `to` on; places that are freed are cleared.
pub fn move_rest(t: &mut [u64], from: usize, end: usize, to: usize)
    requires { Movable t.old from end to }
    ensures { t.new ≡ moved t.old from end to }
{
    if from == to {
        return;
    }
    t.copy_within(from..end, to);
    if to < from {
        let last = to + (end - from);
        table_writes::clear(&mut t[last..end]);
    }
}
