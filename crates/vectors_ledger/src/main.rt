// Runs the ledger and the sort on the vectors of its standard input, and prints what they answer. A case is two parts: a ledger, and a stream
// of three parts: a file, and the places in it of lines whose events are to be added and deleted, four bytes each.
#![tactic(auto)]

use std::io;

// How many bytes three slots have.
const THREE_SLOTS: usize = 114;

fn main(rt: HostRuntime) -> io::Result<()> {
    let mut space = [0u8; 65536];
    let n = vectors_stream::read(&rt, &mut space)?;
    run(&rt, &space[..n])
}

fn run(rt: &impl Print, s: &[u8]) -> io::Result<()> {
    let mut rest = s;
    while let Some((ledger, asked, behind)) = vectors_stream::two_parts(rest) {
        let live = say_valid(rt, ledger)?;
        one(rt, ledger, live, asked)?;
        vectors_stream::end_line(rt)?;
        rest = behind;
    }
    Ok(())
}

// How many events are live, if the ledger is well formed.
fn say_valid(rt: &impl Print, ledger: &[u8]) -> io::Result<usize> {
    let v = ledger::valid(ledger);
    match v {
        Some(live) => {
            rt.write_all(b"sound ")?;
            vectors_stream::say(rt, live as u64)?;
            Ok(live)
        }
        None => {
            rt.write_all(b"malformed ")?;
            Ok(0)
        }
    }
}

// Of a ledger of three slots, what the file's places do to it.
fn one(rt: &impl Print, lent: &[u8], live: usize, asked: &[u8]) -> io::Result<()> {
    let f = vectors_stream::part_at(asked, 0);
    let to = f.end;
    let a = vectors_stream::part_at(asked, to);
    let till = a.end;
    let d = vectors_stream::part_at(asked, till);
    if d.whole {
        let f0 = f.start;
        let f1 = f.end;
        let a0 = a.start;
        let a1 = a.end;
        let d0 = d.start;
        let d1 = d.end;
        if lent.len() == THREE_SLOTS {
            say_live(rt, lent, live, &asked[f0..f1], &asked[a0..a1])?;
            say_sorted(rt, &asked[f0..f1], &asked[a0..a1])?;
            say_updated(
                rt,
                lent,
                live,
                &asked[f0..f1],
                &asked[a0..a1],
                &asked[d0..d1],
            )?;
        }
    }
    Ok(())
}

// For each of up to four places, whether its event is live.
fn say_live(
    rt: &impl Print,
    ledger: &[u8],
    live: usize,
    file: &[u8],
    places: &[u8],
) -> io::Result<()> {
    for place in places.chunks_exact(4).take(4) {
        let key = lines_places::key_at(file, house::wide(vectors_stream::number_at(place, 0)));
        vectors_stream::say_yes(rt, ledger::is_live(ledger, live, key))?;
    }
    Ok(())
}

// Four places, 0 where there are fewer.
fn four(places: &[u8]) -> [u32; 4] {
    [
        vectors_stream::number_at(places, 0),
        vectors_stream::number_at(places, 4),
        vectors_stream::number_at(places, 8),
        vectors_stream::number_at(places, 12),
    ]
}

// Whether no two of the events of four places are the same, and the places in the order of their events.
fn say_sorted(rt: &impl Print, file: &[u8], places: &[u8]) -> io::Result<()> {
    let mut sorted = four(places);
    vectors_stream::say_yes(rt, lines_places::sort(file, &mut sorted))?;
    for place in &sorted {
        vectors_stream::say(rt, *place as u64)?;
    }
    Ok(())
}

// The ledger after an update by the first places.
fn say_updated(
    rt: &impl Print,
    lent: &[u8],
    live: usize,
    file: &[u8],
    adds: &[u8],
    deletes: &[u8],
) -> io::Result<()> {
    let mut ledger = [0u8; THREE_SLOTS];
    for (byte, was) in ledger.iter_mut().zip(lent) {
        *byte = *was;
    }
    let plus = four(adds);
    let minus = four(deletes);
    if let Some(plus) = plus.get(..adds.len() / 4) {
        if let Some(minus) = minus.get(..deletes.len() / 4) {
            ledger::update(&mut ledger, live, file, plus, minus);
        }
    }
    vectors_stream::say_text(rt, &ledger)
}
