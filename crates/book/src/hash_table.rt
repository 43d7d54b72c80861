// The hash table after a book: for the hash of a code, which entry of its kind to ask first. In a valid book an entry that has another code costs
// time and alters no answer.
ghost use Rattle.std.specs.Prelude.{◌≡◌, true, ◌++◌, ◌<◌, ◌≤◌, ◌+◌, ◌-◌, ◌*◌, ◌%◌, length, drop, set, get_or};
ghost use Rattle.book.specs.Book.{code_text};
ghost use Rattle.book.specs.LookUp.{hashes, second_weight, hash_of, entry_hashed, hash_entry, hash_kind, hash_kinds, with_hash_table};
ghost use Rattle.book.specs.Inside.{fits, WidthsAre};

use crate::layouts::count_of;
use crate::{Layout, Sections};

// So many hashes there are.
const HASHES: usize = 32768;

// So much less a byte counts, modulo the hashes: a blank counts 0.
const LESS_BLANK: usize = 32736;

// What the text after the first byte counts for, and the second text of a code after the first.
const TEXT_WEIGHT: usize = 37;

const SECOND_WEIGHT: usize = 1021;

// The hash of a text.
fn hash(text: &[u8]) -> usize
    ensures value { result ≡ hash_of text.now }
    ensures upper_bound { result < hashes }
{
    let mut h = 0;
    for i in (0..text.len()).rev() {
        h = (h * TEXT_WEIGHT + usize::from(text[i]) + LESS_BLANK) % HASHES;
    }
    h
}

// The hash of a code of a kind, given as two texts.
fn hash_of(k: u8, a: &[u8], b: &[u8]) -> usize
    ensures value { result ≡ (hash_of b.now * second_weight + hash_of a.now + k) % hashes }
    ensures upper_bound { result < hashes }
{
    (hash(b) * SECOND_WEIGHT + hash(a) + usize::from(k)) % HASHES
}

// The byte of a table at a place, 0 past its end.
fn last_byte(table: &[u8], at: usize) -> usize
    ensures value { result ≡ get_or table.now at 0 }
    ensures upper_bound { result < 256 }
{
    match table.get(at) {
        Some(b) => usize::from(*b),
        None => 0,
    }
}

// Which entry of a kind the table from `end` on names for a code, given as for find.
pub(crate) fn hashed(book: &[u8], end: usize, k: u8, a: &[u8], b: &[u8]) -> usize
    requires { fits k a.now b.now ≡ true }
    ensures value { result ≡ entry_hashed book.now end k (code_text k a.now b.now) }
    ensures upper_bound { result < 65536 }
{
    if book.len() < end {
        return 0;
    }
    let at = hash_of(k, a, b) * 2;
    let table = &book[end..];
    if at + 1 < table.len() {
        usize::from(table[at]) + usize::from(table[at + 1]) * 256
    } else {
        last_byte(table, at)
    }
}

// Writes a byte into a table, if there is room for it.
fn put_byte(table: &mut [u8], at: usize, b: u8)
    ensures { table.new ≡ set table.old at b }
{
    if at < table.len() {
        table[at] = b;
    }
}

// Hashes entry i of those of kind k that are laid out so, of which there are n.
fn hash_entry(book: &[u8], k: u8, w: Layout, n: usize, i: usize, table: &mut [u8])
    requires i_lt_n { i < n }
    requires w_in_bounds { n * w.entry ≤ length book.now - w.from }
    requires widths_are { WidthsAre k w }
    ensures { table.new ≡ hash_entry book.now k w.from i table.old }
{
    let code = w.from + i * w.entry + 1;
    let second = code + w.first;
    let end = second + w.second;
    let at = hash_of(k, &book[code..second], &book[second..end]) * 2;
    put_byte(table, at, (i % 256) as u8);
    put_byte(table, at + 1, (i / 256 % 256) as u8);
}

// Hashes the entries of kind k.
fn hash_entries(book: &[u8], sections: Sections, k: u8, table: &mut [u8])
    requires { k ≤ 8 }
    ensures { table.new ≡ hash_kind book.now sections k table.old }
{
    let w = sections.layout_of(k);
    let n = count_of(book, w, k);
    for i in 0..n {
        hash_entry(book, k, w, n, i, table);
    }
}

// Hashes the entries of every kind.
fn hash_kinds(book: &[u8], sections: Sections, table: &mut [u8])
    ensures { table.new ≡ hash_kinds book.now sections 8 table.old }
{
    for k in 1..9 {
        hash_entries(book, sections, k, table);
    }
}

// Copies a book to the front of a buffer.
fn copy_book(book: &[u8], buffer: &mut [u8])
    requires { length book.now ≤ length buffer.old }
    ensures { buffer.new ≡ book.now ++ drop (length book.now) buffer.old }
{
    buffer[..book.len()].copy_from_slice(book);
}

// Copies a book to the front of a buffer and hashes its entries into what is left of it. Where the buffer is shorter than the book it stays as lent.
pub fn hash_book(book: &[u8], sections: Sections, buffer: &mut [u8])
    ensures { buffer.new ≡ with_hash_table book.now sections buffer.old }
{
    let n = book.len();
    if buffer.len() < n {
        return;
    }
    copy_book(book, buffer);
    hash_kinds(book, sections, &mut buffer[n..]);
}
