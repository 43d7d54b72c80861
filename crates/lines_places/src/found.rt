// Where the ULI, the date and the vaccine of a line stand, if the line is as most are: its ULI has nine digits and its date eight.
ghost use Rattle.std.specs.Prelude.{◌≤◌, IfSome};
ghost use Rattle.lines_places.specs.Inside.{Numeral, FoundIs};

use house::Key;

// How many bytes a ULI of nine digits and a date of eight have with the pipe after each.
const ULI_AND_PIPE: usize = 10;

const DATE_AND_PIPE: usize = 9;

// Where the three stand, and the number that ULI and date write one after the other.
#[derive(Clone, Copy)]
pub(crate) struct Found {
    pub number: u64,
    pub uli: usize,
    pub date: usize,
    pub vaccine: usize,
}

// The number that n digits at a position write, a number's digits being before them, if a pipe is after them.
fn number_on(file: &[u8], at: usize, n: usize, before: u64) -> Option<u64>
    requires n_bound { n ≤ 9 }
    requires before_bound { before ≤ 999999999 }
    ensures { IfSome result (λ r. Numeral file.now at n before r) }
{
    if file.len() <= n {
        return None;
    }
    if file.len() - n <= at {
        return None;
    }
    let mut number = before;
    for j in 0..n {
        let b = file[at + j];
        if b < b'0' {
            return None;
        }
        if b'9' < b {
            return None;
        }
        number = number * 10 + u64::from(b - b'0');
    }
    if file[at + n] != b'|' {
        return None;
    }
    Some(number)
}

// Where the ULI, the date and the vaccine of the line at a position stand.
pub(crate) fn find(file: &[u8], at: usize) -> Option<Found>
    ensures { IfSome result (λ f. FoundIs file.now at f.number f.uli f.date f.vaccine) }
{
    let uli = lines_fields::start_at(file, at, 2);
    let first = number_on(file, uli, Key::ULI, 0)?;
    let date = lines_fields::start_at(file, uli + ULI_AND_PIPE, 2);
    let number = number_on(file, date, Key::DATE, first)?;
    let vaccine = lines_fields::start_at(file, date + DATE_AND_PIPE, 1);
    Some(Found {
        number,
        uli,
        date,
        vaccine,
    })
}
