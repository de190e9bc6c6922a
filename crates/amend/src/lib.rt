// An amendment: a block in the place of a service's lines in TIMETBLS, over eleven lent tables of any length and content. Nothing is written before
// all tests have passed.
#![tactic(auto)]

ghost use Rattle.iff.specs.Files.{eleven};
ghost use Rattle.amend.specs.Amended.{SoundThere, AmendedThere, Amended};

use iff::{Answer, Reason};

// The tests after 16, and what they lead to, of tables found sound.
fn amend_there(
    delivery: &[u64],
    company: &[u64],
    trnsmode: &[u64],
    stations: &[u64],
    footnote: &[u64],
    timetbls: &mut [u64],
    places: &[u32],
    service: u64,
    block: &[u8],
) -> Answer
    requires { SoundThere delivery.now timetbls.old }
    ensures { AmendedThere delivery.now company.now trnsmode.now stations.now
        footnote.now timetbls.old service block.now result timetbls.new }
{
    let first = &delivery[0..6];
    let form = sound::form_of(first);
    let judged = amend_tests::judge(
        form, timetbls, company, trnsmode, stations, footnote, places, service, block,
    );
    let services = fresh_keys::count_services(timetbls);
    amend_done::carry_out(judged, form, timetbls, block, services)
}

// 16; 11, 12; 1 and 2 over TIMETBLS; the block's lines. Only an accepted amendment writes, and only TIMETBLS.
pub fn amend(
    delivery: &[u64],
    company: &[u64],
    country: &[u64],
    trnsmode: &[u64],
    timezone: &[u64],
    stations: &[u64],
    footnote: &[u64],
    timetbls: &mut [u64],
    changes: &[u64],
    xfootnote: &[u64],
    xchanges: &[u64],
    service: u64,
    block: &[u8],
) -> Answer
    ensures { Amended (eleven delivery.now company.now country.now trnsmode.now
        timezone.now stations.now footnote.now timetbls.old changes.now
        xfootnote.now xchanges.now) service block.now result timetbls.new }
{
    let mut places = [0u32; sound::SLOTS];
    if !sound::is_sound_by(
        delivery,
        company,
        country,
        trnsmode,
        timezone,
        stations,
        footnote,
        timetbls,
        changes,
        xfootnote,
        xchanges,
        &mut places,
    ) {
        return Err(iff::Fault {
            reason: Reason::NotSound,
            place: None,
        });
    }
    amend_there(
        delivery, company, trnsmode, stations, footnote, timetbls, &places, service, block,
    )
}
