// The index of blocks: the places of their first II lines, put in order.
ghost use Rattle.std.specs.Prelude.{◌≡◌, ◌≤◌, ◌++◌, length, take, drop};
ghost use Rattle.lines_places.specs.Sorted.{sorted_at, sorted_apart};
ghost use Rattle.rules_walk.specs.Firsts.{front_of, front_in};

use crate::Built;
use lines_places::MOST_PLACES;

// Puts the first n places in the order of their events; whether they can be sorted, and no two of the events are the same.
fn sort_front(file: &[u8], index: &mut [u32], n: usize) -> bool
    requires { n ≤ length index.old }
    ensures value { result ≡ sorted_apart file.now (take n index.old) }
    ensures index_after { index.new ≡ sorted_at file.now (take n index.old) ++ drop n index.old }
{
    lines_places::sort(file, &mut index[..n])
}

// Puts the first n places of an area in the order of their events; not where there are not so many, or too many to be sorted.
pub fn sort_index(file: &[u8], index: &mut [u32], n: usize) -> Option<Built>
    ensures value { result ≡ front_of file.now index.old n }
    ensures index_after { index.new ≡ front_in file.now index.old n }
{
    if MOST_PLACES < n {
        return None;
    }
    if index.len() < n {
        return None;
    }
    let distinct = sort_front(file, index, n);
    Some(Built {
        blocks: n,
        distinct,
    })
}
