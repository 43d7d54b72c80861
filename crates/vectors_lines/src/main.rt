// Runs the line reader on the files of its standard input, and prints what it answers. A case is two parts: a file, and pairs of bytes that
// ask for a field of a line.
#![tactic(auto)]

use std::io;

fn main(rt: HostRuntime) -> io::Result<()> {
    let mut space = [0u8; 65536];
    let n = vectors_stream::read(&rt, &mut space)?;
    run(&rt, &space[..n])
}

fn run(rt: &impl Print, s: &[u8]) -> io::Result<()> {
    let mut rest = s;
    while let Some((file, asks, behind)) = vectors_stream::two_parts(rest) {
        say_shape(rt, file)?;
        say_fields(rt, file, asks)?;
        vectors_stream::end_line(rt)?;
        rest = behind;
    }
    Ok(())
}

// 0 for a right shape; the line and the cause of a fault.
fn say_shape(rt: &impl Print, file: &[u8]) -> io::Result<()> {
    let shape = lines::shape_of(file);
    match shape {
        Ok(()) => vectors_stream::say(rt, 0),
        Err(fault) => {
            vectors_stream::say(rt, fault.line as u64)?;
            vectors_stream::say(rt, fault.cause.number() as u64)
        }
    }
}

fn say_fields(rt: &impl Print, file: &[u8], asks: &[u8]) -> io::Result<()> {
    let (pairs, _) = asks.as_chunks::<2>();
    for ask in pairs {
        say_field(
            rt,
            file,
            vectors_stream::wide(ask[0]),
            vectors_stream::wide(ask[1]),
        )?;
    }
    Ok(())
}

// Whether the field is there, where it starts, and its text.
fn say_field(rt: &impl Print, file: &[u8], line: usize, f: usize) -> io::Result<()> {
    vectors_stream::say_yes(rt, lines_fields::has_field(file, line, f))?;
    vectors_stream::say(rt, lines_fields::field_position(file, line, f) as u64)?;
    vectors_stream::say_text(rt, lines_fields::field(file, line, f))
}
