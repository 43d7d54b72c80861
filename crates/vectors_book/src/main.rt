// Runs the code book on the vectors of its standard input, and prints what it answers. A case is two parts: a book, and what is asked of it,
// itself a stream of parts, three for each: one byte of kind, four of the day and four of the second day; a code; a second
// code.
#![tactic(auto)]

use book::{Position, Read, Sections, Standing};
use std::io;

fn main(rt: HostRuntime) -> io::Result<()> {
    let mut space = [0u8; 65536];
    let n = vectors_stream::read(&rt, &mut space)?;
    run(&rt, &space[..n])
}

fn run(rt: &impl Print, s: &[u8]) -> io::Result<()> {
    let mut rest = s;
    while let Some((book, asks, behind)) = vectors_stream::two_parts(rest) {
        one(rt, book, asks)?;
        vectors_stream::end_line(rt)?;
        rest = behind;
    }
    Ok(())
}

// The entries as read; then, of a valid book, what it says of the codes asked.
fn one(rt: &impl Print, book: &[u8], asks: &[u8]) -> io::Result<()> {
    say_entries(rt, book)?;
    let v = book::valid(book);
    match v {
        Some(sections) => {
            rt.write_all(b"valid ")?;
            say_asked(rt, book, sections, asks)
        }
        None => rt.write_all(b"malformed "),
    }
}

// The kind of each entry and where its body starts, up to the end or to what is no whole entry.
fn say_entries(rt: &impl Print, book: &[u8]) -> io::Result<()> {
    let mut at = 0;
    for _ in 0..book.len() + 1 {
        let p = Position { at };
        let r = p.read(book);
        match r {
            Read::Entry { kind, body, next } => {
                vectors_stream::say(rt, kind as u64)?;
                vectors_stream::say(rt, body as u64)?;
                at = next.at;
            }
            Read::End => {
                return rt.write_all(b"end ");
            }
            Read::Malformed => {
                return rt.write_all(b"stop ");
            }
        }
    }
    Ok(())
}

fn say_asked(rt: &impl Print, book: &[u8], sections: Sections, asks: &[u8]) -> io::Result<()> {
    let mut at = 0;
    // Not a `for`: the position goes on by what the parts hold.
    while at < asks.len() {
        let p = vectors_stream::part_at(asks, at);
        let to = p.end;
        let a = vectors_stream::part_at(asks, to);
        let till = a.end;
        let b = vectors_stream::part_at(asks, till);
        if b.whole {
            let k = p.start;
            let a0 = a.start;
            let a1 = a.end;
            let b0 = b.start;
            let b1 = b.end;
            if k < asks.len() {
                let day = vectors_stream::number_at(asks, k + 1);
                let until = vectors_stream::number_at(asks, k + 5);
                say_standing(
                    rt,
                    book,
                    sections,
                    asks[k],
                    &asks[a0..a1],
                    &asks[b0..b1],
                    day,
                    until,
                )?;
            }
            if b1 <= at {
                return Ok(());
            }
            at = b1;
        } else {
            return Ok(());
        }
    }
    Ok(())
}

// Where the code is found, and whether it is unknown, out of force or in force on the day, where its end is not to be before another.
fn say_standing(
    rt: &impl Print,
    book: &[u8],
    sections: Sections,
    kind: u8,
    a: &[u8],
    b: &[u8],
    day: u32,
    until: u32,
) -> io::Result<()> {
    let f = book::find(book, sections, kind, a, b);
    match f {
        Some(place) => vectors_stream::say(rt, place.at as u64)?,
        None => rt.write_all(b"absent ")?,
    }
    let s = book::look_up(book, sections, kind, a, b, day, until);
    match s {
        Standing::Unknown => rt.write_all(b"unknown "),
        Standing::OutOfForce => rt.write_all(b"out-of-force "),
        Standing::InForce => rt.write_all(b"in-force "),
    }
}
