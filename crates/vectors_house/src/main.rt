// Runs the house records on the vectors of its standard input, and prints what they answer. A case is four parts: one byte that says what
// is asked, and three texts.
#![tactic(auto)]

use dates::Date;
use house::Key;
use std::cmp::Ordering;
use std::io;

fn main(rt: HostRuntime) -> io::Result<()> {
    let mut space = [0u8; 65536];
    let n = vectors_stream::read(&rt, &mut space)?;
    run(&rt, &space[..n])
}

fn run(rt: &impl Print, s: &[u8]) -> io::Result<()> {
    let mut at = 0;
    // Not a `for`: the position goes on by what the parts hold.
    while at < s.len() {
        let p = vectors_stream::part_at(s, at);
        let next = p.end;
        if p.whole {
            let end = one(rt, s, p.start, next)?;
            if end <= at {
                return Ok(());
            }
            if s.len() < end {
                return Ok(());
            }
            at = end;
        } else {
            return Ok(());
        }
    }
    Ok(())
}

// One case: its end, 0 where a part is missing.
fn one(rt: &impl Print, s: &[u8], op: usize, next: usize) -> io::Result<usize> {
    let a = vectors_stream::part_at(s, next);
    let to = a.end;
    let b = vectors_stream::part_at(s, to);
    let till = b.end;
    let c = vectors_stream::part_at(s, till);
    if c.whole {
        let a0 = a.start;
        let a1 = a.end;
        let b0 = b.start;
        let b1 = b.end;
        let c0 = c.start;
        let c1 = c.end;
        if op < s.len() {
            answer(rt, s[op], &s[a0..a1], &s[b0..b1], &s[c0..c1])?;
        }
        return Ok(c1);
    }
    Ok(0)
}

fn answer(rt: &impl Print, op: u8, a: &[u8], b: &[u8], c: &[u8]) -> io::Result<()> {
    match op {
        1 => say_dates(rt, a)?,
        2 => say_texts(rt, a)?,
        3 => say_orders(rt, a, b)?,
        _ => say_key(rt, a, b, c)?,
    }
    vectors_stream::end_line(rt)
}

fn say_dated(rt: &impl Print, d: Option<Date>) -> io::Result<()> {
    match d {
        Some(x) => vectors_stream::say(rt, x.number as u64),
        None => vectors_stream::say(rt, 0),
    }
}

// The text as a date, as an end, and whether its number is a date.
fn say_dates(rt: &impl Print, t: &[u8]) -> io::Result<()> {
    let d = Date::of(t);
    say_dated(rt, d)?;
    let e = Date::end_of(t);
    say_dated(rt, e)?;
    vectors_stream::say_yes(rt, Date::is_end(t))?;
    match d {
        Some(x) => {
            let again = Date::of_number(x.number);
            say_dated(rt, again)?;
            vectors_stream::say_yes(rt, Date::is_day(x.number))
        }
        None => vectors_stream::say_yes(rt, false),
    }
}

fn say_texts(rt: &impl Print, t: &[u8]) -> io::Result<()> {
    vectors_stream::say_yes(rt, house::is_padded(t))?;
    vectors_stream::say_yes(rt, house::all_digits(t))
}

fn say_order(rt: &impl Print, o: Ordering) -> io::Result<()> {
    match o {
        Ordering::Less => vectors_stream::say(rt, 1),
        Ordering::Equal => vectors_stream::say(rt, 2),
        Ordering::Greater => vectors_stream::say(rt, 3),
    }
}

// The order, whether same, whether before, and the order to the text padded.
fn say_orders(rt: &impl Print, a: &[u8], b: &[u8]) -> io::Result<()> {
    let o = house::compare(a, b);
    say_order(rt, o)?;
    vectors_stream::say_yes(rt, house::same(a, b))?;
    vectors_stream::say_yes(rt, house::before(a, b))?;
    let p = house::compare_padded(a, b);
    say_order(rt, p)
}

fn say_key(rt: &impl Print, a: &[u8], b: &[u8], c: &[u8]) -> io::Result<()> {
    let k = Key::of(a, b, c);
    let bytes = k.bytes;
    vectors_stream::say_text(rt, &bytes)
}
