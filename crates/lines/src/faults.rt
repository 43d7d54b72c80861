// Faults of shape: the causes, and the first line that has one.
ghost use Rattle.std.specs.Prelude.{◌≡◌, true};
ghost use Rattle.lines.specs.Shape.{printable, pipe_last, number_of, cause_of, shape_of};
ghost use Rattle.lines.specs.Inside.{kind_cause};

use crate::bytes::{has_right_bytes, is_plain};
use crate::kinds::{IF, count_of, kind_of, may_follow};
use crate::{Cause, Fault};
use lines_fields::{count_fields, line_at};

// Whether a text ends in a pipe.
fn pipe_last(text: &[u8]) -> bool
    ensures { result ≡ pipe_last text.now }
{
    matches!(text.last(), Some(b'|'))
}

impl Cause {
    // The number that document 01 gives a cause.
    pub fn number(self) -> u8
        ensures { result ≡ number_of self }
    {
        match self {
            Cause::NoLineFeed => 1,
            Cause::WrongByte => 2,
            Cause::NoPipe => 3,
            Cause::UnknownType => 4,
            Cause::FieldCount => 5,
            Cause::Order => 6,
            Cause::NoEnd => 7,
        }
    }
}

// The lowest cause at a record of kind k with n fields after one of kind p, if there is one.
#[tactic(auto, using(crate::proofs::CauseLaws::for_kind_cause))]
fn kind_cause(p: u8, k: u8, n: usize) -> Option<Cause>
    ensures { result ≡ kind_cause p k n }
{
    if k == 0 {
        return Some(Cause::UnknownType);
    }
    if n != count_of(k) {
        return Some(Cause::FieldCount);
    }
    if !may_follow(p, k) {
        return Some(Cause::Order);
    }
    None
}

// The lowest cause at a line after a record of kind p, if there is one. Its bytes are asked where its file is not plain.
fn line_cause(text: &[u8], ended: bool, p: u8, plain: bool) -> Option<Cause>
    requires { plain ≡ true → printable text.now ≡ true }
    ensures { result ≡ cause_of p (record { text = text.now; ended = ended }) }
{
    if !ended {
        return Some(Cause::NoLineFeed);
    }
    if !has_right_bytes(text, plain) {
        return Some(Cause::WrongByte);
    }
    if !pipe_last(text) {
        return Some(Cause::NoPipe);
    }
    kind_cause(p, kind_of(text), count_fields(text))
}

// The shape of a file: its bytes are tested once for all lines, and one pass from line to line stops at the first fault.
pub fn shape_of(file: &[u8]) -> Result<(), Fault>
    ensures { result ≡ shape_of file.now }
{
    let plain = is_plain(file);
    let mut at = 0;
    let mut line = 1;
    let mut p: u8 = 0;
    // Not a `for`: the position goes on to where the next line starts.
    while at < file.len() {
        let l = line_at(file, at);
        let end = l.end;
        let text = &file[at..end];
        let ended = l.lf;
        if let Some(cause) = line_cause(text, ended, p, plain) {
            return Err(Fault { line, cause });
        }
        p = kind_of(text);
        at = l.next;
        line += 1;
    }
    if p == IF {
        Ok(())
    } else {
        Err(Fault {
            line,
            cause: Cause::NoEnd,
        })
    }
}
