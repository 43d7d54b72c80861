// The kinds of records: their types, their field counts, and their order.
ghost use Rattle.std.specs.Prelude.{◌≡◌};
ghost use Rattle.lines.specs.Records.{letter_kind, record_of, count_of};
ghost use Rattle.lines.specs.Shape.{follows};

// Numbers, no enum: `may_follow` and the rules answer for every number, and an enum would ask more of their callers.
pub const IV: u8 = 1;

pub const IH: u8 = 2;

pub const IP: u8 = 3;

pub const II: u8 = 4;

pub const IE: u8 = 5;

pub const IN: u8 = 6;

pub const IA: u8 = 7;

pub const IF: u8 = 8;

// The kind by the letter after the I, 0 for none.
#[tactic(auto, unfolding(crate::specs::Records::letter_kind))]
fn letter_kind(b: u8) -> u8
    ensures { result ≡ letter_kind b }
{
    match b {
        b'V' => IV,
        b'H' => IH,
        b'P' => IP,
        b'I' => II,
        b'E' => IE,
        b'N' => IN,
        b'A' => IA,
        b'F' => IF,
        _ => 0,
    }
}

// The kind of the record in a line's text: its whole first field is an I and a letter.
pub fn kind_of(text: &[u8]) -> u8
    ensures { result ≡ record_of text.now }
{
    if text.len() < 3 {
        return 0;
    }
    if text[0] != b'I' {
        return 0;
    }
    if text[2] != b'|' {
        return 0;
    }
    letter_kind(text[1])
}

// How many fields a record of a kind has.
#[tactic(auto, unfolding(crate::specs::Records::count_of))]
pub(crate) fn count_of(k: u8) -> usize
    ensures { result ≡ count_of k }
{
    match k {
        IV => 2,
        IH => 3,
        IP => 27,
        II => 22,
        IE => 5,
        IN => 8,
        IA => 4,
        IF => 3,
        _ => 0,
    }
}

// Whether a record of kind k may follow one of kind p, 0 being the file's start.
#[tactic(auto, unfolding(crate::specs::Shape::follows, crate::specs::Shape::is_one))]
pub fn may_follow(p: u8, k: u8) -> bool
    ensures { result ≡ follows p k }
{
    match k {
        IV => p == 0,
        IH => p == IV,
        IP => matches!(p, IH | IE | IA),
        II => matches!(p, IP | IE),
        IE => matches!(p, II | IE),
        IN => matches!(p, IP | IE | IA),
        IA => matches!(p, IN | IA),
        IF => matches!(p, IH | IE | IA),
        _ => false,
    }
}
