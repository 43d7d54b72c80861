// A stream of parts for the programs that run vectors: each part is four bytes of length, lowest first, and as many bytes.
#![tactic(auto)]

ghost use Rattle.std.specs.Prelude.{◌≡◌, ◌<◌, ℕ, List, IfSome, IfNone, false, length};
ghost use Rattle.std.specs.Io.{ReadsAtMost};
ghost use Rattle.vectors_stream.specs.Parts.{part_at, PartIs, FirstIs, two_there};

pub use house::number_at;
use std::io;
use std::io::Read;

// Where a part's bytes start and end; 0 and 0 where no whole part stands.
#[derive(Clone, Copy)]
pub struct Part {
    pub start: usize,
    pub end: usize,
    pub whole: bool,
}

// The part whose length stands at a position.
pub fn part_at(s: &[u8], at: usize) -> Part
    ensures { PartIs s.now at result }
{
    let n = s.len();
    if n < 4 {
        return Part {
            start: 0,
            end: 0,
            whole: false,
        };
    }
    if n - 4 < at {
        return Part {
            start: 0,
            end: 0,
            whole: false,
        };
    }
    let body = at + 4;
    let size = house::wide(number_at(s, at));
    if n - body < size {
        return Part {
            start: 0,
            end: 0,
            whole: false,
        };
    }
    Part {
        start: body,
        end: body + size,
        whole: true,
    }
}

// The first part of a stream, and what stands behind it; none where the stream ends before the part does.
pub fn first_part(s: &[u8]) -> Option<(&[u8], &[u8])>
    ensures parts { IfSome result (λ p. FirstIs s.now p.0.now p.1.now) }
    ensures absent { IfNone result ((part_at s.now 0).whole ≡ false) }
    ensures shorter { IfSome result (λ p. length p.1.now < length s.now) }
{
    let p = part_at(s, 0);
    if p.whole {
        return Some((&s[p.start..p.end], &s[p.end..]));
    }
    None
}

// The first two parts, and what stands behind them; none where the stream ends before the second does.
#[tactic(auto, unfolding(crate::specs::Parts::two_there))]
pub fn two_parts(s: &[u8]) -> Option<(&[u8], &[u8], &[u8])>
    ensures parts { IfSome result (λ p. (rest : List ℕ) × FirstIs s.now p.0.now rest × FirstIs rest p.1.now p.2.now) }
    ensures absent { IfNone result (two_there s.now ≡ false) }
    ensures shorter { IfSome result (λ p. length p.2.now < length s.now) }
{
    let (first, rest) = first_part(s)?;
    let (second, behind) = first_part(rest)?;
    Some((first, second, behind))
}

// A byte as a number.
pub fn wide(b: u8) -> usize
    ensures { result ≡ b }
{
    b as usize
}

// Reads standard input until the space is full or the input ends, and answers how many bytes it put at the start of the space.
pub fn read(rt: &impl Input, space: &mut [u8]) -> io::Result<usize>
    ensures { ReadsAtMost result space.new }
{
    let mut reader = rt.reader();
    let mut done = 0;
    // Not a `for`: the position jumps by what was read.
    while done < space.len() {
        let n = reader.read(&mut space[done..])?;
        if n == 0 {
            break;
        }
        done += n;
    }
    Ok(done)
}

// Prints a number and a blank.
pub fn say(rt: &impl Print, n: u64) -> io::Result<()> {
    print!(rt; "{n} ")
}

pub fn say_yes(rt: &impl Print, yes: bool) -> io::Result<()> {
    if yes {
        print!(rt; "yes ")
    } else {
        print!(rt; "no ")
    }
}

// Prints a text between bars, and a blank.
pub fn say_text(rt: &impl Print, t: &[u8]) -> io::Result<()> {
    rt.write_all(b"[")?;
    rt.write_all(t)?;
    rt.write_all(b"] ")
}

pub fn end_line(rt: &impl Print) -> io::Result<()> {
    rt.write_all(b"\n")
}
