// Where the entries of a kind lie, and their widths: all constants but the bounds.
ghost use Rattle.std.specs.Prelude.{◌≡◌, ◌≤◌, ◌-◌, ◌*◌, length};
ghost use Rattle.book.specs.LookUp.{count_from};
ghost use Rattle.book.specs.Inside.{layout, LayoutIs, WidthsAre};

use crate::kinds::{
    ANTIGEN, DOSAGE_TYPE, MANUFACTURER, REASON, REASON_NOT, VACCINE, WITH_ANTIGEN, WITH_REASON,
};
use crate::{Layout, Sections};

// A layout: a code or the first of two, the second, and the whole entry with its kind.
fn laid(from: usize, to: usize, first: usize, second: usize, entry: usize) -> Layout
    ensures { result ≡ layout from to first second entry }
{
    Layout {
        from,
        to,
        first,
        second,
        entry,
    }
}

impl Sections {
    // Where the entries of kind k lie, and their widths.
    pub(crate) fn layout_of(self, k: u8) -> Layout
        requires { k ≤ 8 }
        ensures { LayoutIs self k result }
    {
        match k {
            VACCINE => laid(0, self.antigens, 20, 0, 37),
            ANTIGEN => laid(self.antigens, self.reasons, 20, 0, 29),
            REASON => laid(self.reasons, self.manufacturers, 2, 0, 11),
            MANUFACTURER => laid(self.manufacturers, self.dosage_types, 3, 0, 12),
            DOSAGE_TYPE => laid(self.dosage_types, self.reasons_not, 4, 0, 13),
            REASON_NOT => laid(self.reasons_not, self.with_reason, 3, 0, 12),
            WITH_REASON => laid(self.with_reason, self.with_antigen, 20, 2, 31),
            WITH_ANTIGEN => laid(self.with_antigen, self.end, 20, 20, 49),
            _ => laid(0, 0, 0, 0, 9),
        }
    }
}

// How many whole entries lie between the bounds, and in the book.
pub(crate) fn count_of(book: &[u8], w: Layout, k: u8) -> usize
    requires { WidthsAre k w }
    ensures value { result ≡ count_from book.now k w.from w.to }
    ensures w_in_bounds { result * w.entry ≤ length book.now - w.from }
{
    if w.to < w.from {
        return 0;
    }
    if book.len() < w.to {
        return 0;
    }
    (w.to - w.from) / w.entry
}
