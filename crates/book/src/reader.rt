// The reader: a position, and what stands there.
ghost use Rattle.std.specs.Prelude.{◌≡◌, drop};
ghost use Rattle.book.specs.Book.{read_at};

use crate::widths::body_width;
use crate::{Position, Read};

impl Position {
    // Reads the entry at this position.
    pub fn read(self, book: &[u8]) -> Read
        ensures { result ≡ read_at self.at (drop self.at book.now) }
    {
        let at = self.at;
        if book.len() <= at {
            return Read::End;
        }
        let kind = book[at];
        if kind < 1 {
            return Read::Malformed;
        }
        if 8 < kind {
            return Read::Malformed;
        }
        let body = at + 1;
        let w = body_width(kind);
        if book.len() - body < w {
            return Read::Malformed;
        }
        Read::Entry {
            kind,
            body,
            next: Position { at: body + w },
        }
    }
}
