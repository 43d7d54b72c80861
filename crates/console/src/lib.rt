// The program that document 01 calls `check`: what it reads, what it answers, and what it prints.
#![tactic(auto)]

mod input;
mod output;

ghost use Rattle.std.specs.Prelude.{◌≡◌, length};
ghost use Rattle.std.specs.Io.{ReadsAtMost};

pub use input::answer;
use std::fs::File;
use std::io;
use std::io::Read;
use std::rt::Files;

// Of an input that is longer no more is read: it is too long all the same.
const MOST_READ: usize = 65536;

// "room for 1,000 findings"
const MOST_FINDINGS: usize = 1000;

// A finding has six bytes.
pub(crate) const FINDING: usize = 6;

const AREA: usize = FINDING * MOST_FINDINGS;

// An area of zeros for the findings. The `ensures` gives only the length, which lending the array as a slice needs.
fn findings_area() -> [u8; AREA]
    ensures { 6000 ≡ length result }
{
    [0; AREA]
}

// Reads until the space is full or the input ends. It answers how many bytes it put at the start of the space.
fn read_full(reader: &mut impl Read, space: &mut [u8]) -> io::Result<usize>
    ensures { ReadsAtMost result space.new }
{
    let mut done = 0;
    // Not a `for`: the position jumps by what was read.
    while done < space.len() {
        let n = reader.read(&mut space[done..])?;
        if n == 0 {
            break;
        }
        done += n;
    }
    Ok(done)
}

// Reads a file by name; a missing file is empty. It answers how many bytes it put at the start of the space.
fn read_file(rt: &impl Files, name: &str, space: &mut [u8]) -> io::Result<usize>
    ensures { ReadsAtMost result space.new }
{
    match File::open(rt, name) {
        Ok(mut file) => read_full(&mut file, space),
        Err(_) => Ok(0),
    }
}

// Reads today and the submission from standard input, the book and the ledger by name, and prints the answer. It writes no file.
pub fn run(rt: &(impl Files + Input + Print)) -> io::Result<()> {
    let mut input = [0u8; MOST_READ];
    let n = read_full(&mut rt.reader(), &mut input)?;
    let mut book = [0u8; MOST_READ];
    let b = read_file(rt, "codes.bin", &mut book)?;
    let mut ledger = [0u8; MOST_READ];
    let l = read_file(rt, "ledger.bin", &mut ledger)?;
    let mut area = findings_area();
    let a = answer(&input[..n], &book[..b], &mut ledger[..l], &mut area);
    output::print(rt, a, &area)
}
