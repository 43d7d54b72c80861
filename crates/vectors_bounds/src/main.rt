// Runs the ledger, the book and the sort at the largest size that each takes and at the next, and prints what they answer. Standard input has
// four parts: two books, a file, and the places of three of its lines, four bytes each.
#![tactic(auto)]

ghost use Rattle.std.specs.Prelude.{◌≤◌};

use std::io;

fn main(rt: HostRuntime) -> io::Result<()> {
    let mut area = [0u8; 3800038];
    run(&rt, &mut area)
}

fn run(rt: &(impl Input + Print), area: &mut [u8]) -> io::Result<()> {
    say_ledgers(rt, area)?;
    let n = vectors_stream::read(rt, area)?;
    say_parts(rt, &area[..n])
}

// Free slots: 100,000, and one more.
fn say_ledgers(rt: &impl Print, zeros: &[u8]) -> io::Result<()> {
    if let Some(most) = zeros.get(..3800000) {
        say_ledger(rt, most)?;
        say_ledger(rt, zeros)?;
    }
    Ok(())
}

fn say_ledger(rt: &impl Print, ledger: &[u8]) -> io::Result<()> {
    rt.write_all(b"ledger ")?;
    vectors_stream::say(rt, ledger.len() as u64)?;
    let v = ledger::valid(ledger);
    match v {
        Some(live) => {
            rt.write_all(b"sound ")?;
            vectors_stream::say(rt, live as u64)?;
        }
        None => {
            rt.write_all(b"malformed ")?;
        }
    }
    vectors_stream::end_line(rt)
}

fn say_parts(rt: &impl Print, s: &[u8]) -> io::Result<()> {
    let b = vectors_stream::part_at(s, 0);
    let to = b.end;
    let c = vectors_stream::part_at(s, to);
    let till = c.end;
    let b0 = b.start;
    let b1 = b.end;
    let c0 = c.start;
    let c1 = c.end;
    say_book(rt, &s[b0..b1])?;
    say_book(rt, &s[c0..c1])?;
    say_sorts(rt, s, till)
}

fn say_sorts(rt: &impl Print, s: &[u8], at: usize) -> io::Result<()> {
    let f = vectors_stream::part_at(s, at);
    let to = f.end;
    let t = vectors_stream::part_at(s, to);
    let f0 = f.start;
    let f1 = f.end;
    let t0 = t.start;
    let t1 = t.end;
    sort_so_many::<96154>(rt, &s[f0..f1], &s[t0..t1])?;
    sort_so_many::<96155>(rt, &s[f0..f1], &s[t0..t1])
}

fn say_book(rt: &impl Print, book: &[u8]) -> io::Result<()> {
    rt.write_all(b"book ")?;
    vectors_stream::say(rt, book.len() as u64)?;
    let v = book::valid(book);
    match v {
        Some(_) => rt.write_all(b"valid ")?,
        None => rt.write_all(b"malformed ")?,
    }
    vectors_stream::end_line(rt)
}

fn sort_so_many<const N: usize>(rt: &impl Print, file: &[u8], three: &[u8]) -> io::Result<()>
    requires { N ≤ 96155 }
{
    let mut places = [0u32; N];
    say_sort(rt, file, three, &mut places)
}

// The three places in turn, again and again; then whether they are sorted and no two events are the same, how often a place differs from the
// one before, the first and the last.
fn say_sort(rt: &impl Print, file: &[u8], three: &[u8], places: &mut [u32]) -> io::Result<()> {
    rt.write_all(b"sort ")?;
    vectors_stream::say(rt, places.len() as u64)?;
    fill(three, places);
    vectors_stream::say_yes(rt, lines_places::sort(file, places))?;
    vectors_stream::say(rt, changes(places) as u64)?;
    say_ends(rt, places)?;
    vectors_stream::end_line(rt)
}

fn fill(three: &[u8], places: &mut [u32]) {
    for (i, place) in places.iter_mut().enumerate() {
        *place = vectors_stream::number_at(three, i % 3 * 4);
    }
}

fn changes(places: &[u32]) -> usize {
    places.array_windows::<2>().filter(|[a, b]| a != b).count()
}

fn say_ends(rt: &impl Print, places: &[u32]) -> io::Result<()> {
    if let Some(first) = places.first() {
        vectors_stream::say(rt, *first as u64)?;
    }
    if let Some(last) = places.last() {
        vectors_stream::say(rt, *last as u64)?;
    }
    Ok(())
}
