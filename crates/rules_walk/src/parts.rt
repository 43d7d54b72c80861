// The parts of an index by submission type.
ghost use Rattle.std.specs.Prelude.{◌≡◌, length};
ghost use Rattle.rules_walk.specs.Firsts.{is_typed, part_of};
ghost use Rattle.house.specs.Over.{over};

use house::{put, wide};

// Whether the line at a place is of a type.
fn is_typed(file: &[u8], p: u32, letter: u8) -> bool
    ensures { result ≡ is_typed file.now letter p }
{
    let field = lines_fields::judged_at(file, wide(p), 4);
    let one = [letter];
    house::same(field, &one)
}

// How many of these places have lines of a type.
pub fn count_of(file: &[u8], places: &[u32], letter: u8) -> usize
    ensures { result ≡ length (part_of file.now letter places.now) }
{
    places
        .iter()
        .filter(|p| is_typed(file, **p, letter))
        .count()
}

// Writes those of these places whose lines are of a type to the front of an area, as many as fit; how many there are.
pub fn part_of(file: &[u8], places: &[u32], letter: u8, out: &mut [u32]) -> usize
    ensures value { result ≡ length (part_of file.now letter places.now) }
    ensures out_after { out.new ≡ over (part_of file.now letter places.now) out.old }
{
    let mut n: usize = 0;
    for p in places {
        if is_typed(file, *p, letter) {
            put(out, n, *p);
            n += 1;
        }
    }
    n
}

// Moves those of these places whose lines are of a type to their front; how many there are.
pub fn keep(file: &[u8], places: &mut [u32], letter: u8) -> usize
    ensures value { result ≡ length (part_of file.now letter places.old) }
    ensures places_after { places.new ≡ over (part_of file.now letter places.old) places.old }
{
    let mut n: usize = 0;
    for i in 0..places.len() {
        let p = places[i];
        if is_typed(file, p, letter) {
            places[n] = p;
            n += 1;
        }
    }
    n
}
