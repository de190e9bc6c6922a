// What the readers of files hand to each other; what they promise is in specs/.
#![tactic(auto)]

ghost use Rattle.std.specs.Prelude.{◌+◌, ◌^◌, ◌<◌, ◌≡◌};

use iff::Reason;

// The number of a line that so many lines come before.
pub fn line_number(before: usize) -> u64
    requires { before + 1 < 2 ^ 64 }
    ensures { result ≡ before + 1 }
{
    (before as u64) + 1
}
