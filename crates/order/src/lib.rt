// Document 01's Order: what may follow what in a block, which records are stops, and where a block may end.
#![tactic(auto)]

ghost use Rattle.std.specs.Prelude.{◌≡◌};
ghost use Rattle.iff_rules.specs.Order.{is_stop, goes, finished};

use iff::Stand;

// `>`, `.`, `+`, `<`
pub fn is_stop(tag: u64) -> bool
    ensures { result ≡ is_stop tag }
{
    match tag {
        iff::tags::GREATER => true,
        iff::tags::DOT => true,
        iff::tags::PLUS => true,
        iff::tags::LESS => true,
        _ => false,
    }
}

// What a record's letter does where a block stands: where it leads, or that it may not stand there.
pub fn goes(stand: Stand, letter: u8) -> Option<iff::Stand>
    ensures { result ≡ goes stand letter }
{
    match stand {
        Stand::Start => match letter {
            b'#' => Some(Stand::Hash),
            _ => None,
        },
        Stand::Hash => match letter {
            b'%' => Some(Stand::Percent),
            _ => None,
        },
        Stand::Percent => match letter {
            b'%' => Some(Stand::Percent),
            b'-' => Some(Stand::Dash),
            _ => None,
        },
        Stand::Dash => match letter {
            b'-' => Some(Stand::Dash),
            b'&' => Some(Stand::Ampersand),
            _ => None,
        },
        Stand::Ampersand => match letter {
            b'&' => Some(Stand::Ampersand),
            b'*' => Some(Stand::Asterisk),
            b'>' => Some(Stand::Stop),
            _ => None,
        },
        Stand::Asterisk => match letter {
            b'*' => Some(Stand::Asterisk),
            b'>' => Some(Stand::Stop),
            _ => None,
        },
        Stand::Stop => match letter {
            b'.' => Some(Stand::Stop),
            b'+' => Some(Stand::Stop),
            b';' => Some(Stand::Between),
            b'?' => Some(Stand::Between),
            b'<' => Some(Stand::Last),
            _ => None,
        },
        Stand::Between => match letter {
            b'.' => Some(Stand::Stop),
            b'+' => Some(Stand::Stop),
            b';' => Some(Stand::Between),
            b'<' => Some(Stand::Last),
            _ => None,
        },
        Stand::Last => match letter {
            b'?' => Some(Stand::LastPlatform),
            _ => None,
        },
        Stand::LastPlatform => None,
    }
}

// The same of a row's tag. What is no byte is no letter, and leads nowhere.
pub fn goes_by_tag(stand: Stand, tag: u64) -> Option<iff::Stand>
    ensures { result ≡ goes stand tag }
{
    if tag < 256 {
        return goes(stand, tag as u8);
    }
    None
}

// A block may end here.
pub fn is_finished(stand: Stand) -> bool
    ensures { result ≡ finished stand }
{
    match stand {
        Stand::Start => false,
        Stand::Hash => false,
        Stand::Percent => false,
        Stand::Dash => false,
        Stand::Ampersand => false,
        Stand::Asterisk => false,
        Stand::Stop => false,
        Stand::Between => false,
        Stand::Last => true,
        Stand::LastPlatform => true,
    }
}
