// Blocks: whether the fields that put an II in one are sound.
ghost use Rattle.std.specs.Prelude.{◌≡◌};
ghost use Rattle.rules_walk.specs.Firsts.{sound_four};

use rules_forms::{is_code, is_date, is_type, is_uli};

// Whether these texts of fields 3, 4, 6 and 8 of an II are sound.
pub fn four_sound(uli: &[u8], kind: &[u8], date: &[u8], vaccine: &[u8]) -> bool
    ensures { result ≡ sound_four uli.now kind.now date.now vaccine.now }
{
    if is_uli(uli) {
        if is_type(kind) {
            if is_date(date) {
                return is_code(vaccine);
            }
            return false;
        }
        return false;
    }
    false
}
