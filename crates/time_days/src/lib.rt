// The whole days of a time's minutes: "local minutes divided by 1440, rounded down".
#![tactic(auto)]

ghost use Rattle.std.specs.Prelude.{◌≡◌, ◌/◌, ◌<◌};

// At most four, since a time reaches 99:59.
pub fn days_in(minutes: u64) -> u64
    requires { minutes < 6000 }
    ensures { (result ≡ minutes / 1440) × (result < 5) }
{
    minutes / 1440
}
