// Judges the files of its standard input, and prints what it finds. A case is two parts: a file, and a stream of three: four bytes each for
// today, how many blocks there is room for and how long the findings area is; a book; a ledger.
#![tactic(auto)]

use book::Sections;
use rules::{By, Judged};
use std::io;

// A finding has six bytes.
const FINDING: usize = 6;

// What the bytes of the findings area are before.
const LENT: u8 = 238;

fn main(rt: HostRuntime) -> io::Result<()> {
    let mut space = [0u8; 200000];
    serve(&rt, &mut space)
}

fn serve(rt: &(impl Input + Print), space: &mut [u8]) -> io::Result<()> {
    let n = vectors_stream::read(rt, space)?;
    run(rt, &space[..n])
}

fn run(rt: &impl Print, s: &[u8]) -> io::Result<()> {
    let mut rest = s;
    while let Some((file, with, behind)) = vectors_stream::two_parts(rest) {
        one(rt, file, with)?;
        rest = behind;
    }
    Ok(())
}

fn one(rt: &impl Print, file: &[u8], with: &[u8]) -> io::Result<()> {
    let n = vectors_stream::part_at(with, 0);
    let to = n.end;
    let b = vectors_stream::part_at(with, to);
    let till = b.end;
    let l = vectors_stream::part_at(with, till);
    if l.whole {
        let n0 = n.start;
        let n1 = n.end;
        let b0 = b.start;
        let b1 = b.end;
        let l0 = l.start;
        let l1 = l.end;
        by_book(rt, file, &with[n0..n1], &with[b0..b1], &with[l0..l1])?;
    }
    Ok(())
}

fn by_book(
    rt: &impl Print,
    file: &[u8],
    numbers: &[u8],
    book: &[u8],
    ledger: &[u8],
) -> io::Result<()> {
    let v = book::valid(book);
    match v {
        Some(q) => by_ledger(rt, file, numbers, book, q, ledger),
        None => rt.write_all(b"book\n"),
    }
}

fn by_ledger(
    rt: &impl Print,
    file: &[u8],
    numbers: &[u8],
    book: &[u8],
    q: Sections,
    ledger: &[u8],
) -> io::Result<()> {
    let v = ledger::valid(ledger);
    match v {
        Some(live) => {
            let by = By {
                today: vectors_stream::number_at(numbers, 0),
                sections: q,
                live,
            };
            lend(rt, file, numbers, book, by, ledger)
        }
        None => rt.write_all(b"ledger\n"),
    }
}

fn lend(
    rt: &impl Print,
    file: &[u8],
    numbers: &[u8],
    book: &[u8],
    by: By,
    ledger: &[u8],
) -> io::Result<()> {
    let mut buffer = [0u32; 130];
    let mut area = [LENT; 600];
    judged(rt, file, numbers, book, by, ledger, &mut buffer, &mut area)
}

// Judges with as much of the buffer and of the area as the case says.
fn judged(
    rt: &impl Print,
    file: &[u8],
    numbers: &[u8],
    book: &[u8],
    by: By,
    ledger: &[u8],
    buffer: &mut [u32],
    area: &mut [u8],
) -> io::Result<()> {
    let blocks = house::wide(vectors_stream::number_at(numbers, 4));
    let bytes = house::wide(vectors_stream::number_at(numbers, 8));
    if buffer.len() < blocks {
        return Ok(());
    }
    if area.len() < bytes {
        return Ok(());
    }
    let j = rules::judge(
        file,
        book,
        by,
        ledger,
        &mut buffer[..blocks],
        &mut area[..bytes],
    );
    say_judged(rt, j, &area[..bytes])
}

// How many blocks, findings and IN records there are, and the findings area.
fn say_judged(rt: &impl Print, j: Option<Judged>, area: &[u8]) -> io::Result<()> {
    match j {
        Some(judged) => {
            rt.write_all(b"done ")?;
            vectors_stream::say(rt, judged.blocks as u64)?;
            vectors_stream::say(rt, judged.findings as u64)?;
            vectors_stream::say(rt, judged.not_immunized as u64)?;
            say_area(rt, area, judged.findings)
        }
        None => {
            rt.write_all(b"too-many ")?;
            say_area(rt, area, written(area))
        }
    }
}

// How many findings an area starts with: no rule has the number of the bytes that are lent.
fn written(area: &[u8]) -> usize {
    let (kept, _) = area.as_chunks::<FINDING>();
    kept.iter().take_while(|f| f[0] != LENT).count()
}

// The findings that are kept, each on its line, and whether the other bytes are as lent.
fn say_area(rt: &impl Print, area: &[u8], findings: usize) -> io::Result<()> {
    vectors_stream::end_line(rt)?;
    let (whole, _) = area.as_chunks::<FINDING>();
    let n = findings.min(whole.len());
    for f in &whole[..n] {
        vectors_stream::say(rt, vectors_stream::number_at(f, 1) as u64)?;
        vectors_stream::say(rt, f[5] as u64)?;
        vectors_stream::say(rt, f[0] as u64)?;
        vectors_stream::end_line(rt)?;
    }
    if area[n * FINDING..].iter().all(|b| *b == LENT) {
        rt.write_all(b"kept\n")
    } else {
        rt.write_all(b"altered\n")
    }
}
