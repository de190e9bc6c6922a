// Soundness of eleven lent tables, told with slots of its own for the index of the keys.
#![tactic(auto)]

ghost use Rattle.std.specs.Prelude.{◌≡◌};
ghost use Rattle.iff.specs.Files.{eleven};
ghost use Rattle.iff_desk.specs.Sound.{sound as are_sound};

// Whether they are sound.
pub fn is_sound(
    delivery: &[u64],
    company: &[u64],
    country: &[u64],
    trnsmode: &[u64],
    timezone: &[u64],
    stations: &[u64],
    footnote: &[u64],
    timetbls: &[u64],
    changes: &[u64],
    xfootnote: &[u64],
    xchanges: &[u64],
) -> bool
    ensures { result ≡ are_sound (eleven delivery.now company.now country.now trnsmode.now
        timezone.now stations.now footnote.now timetbls.now changes.now
        xfootnote.now xchanges.now) }
{
    let mut places = [0u32; sound::SLOTS];
    let told = sound::is_sound_by(
        delivery,
        company,
        country,
        trnsmode,
        timezone,
        stations,
        footnote,
        timetbls,
        changes,
        xfootnote,
        xchanges,
        &mut places,
    );
    told
}
