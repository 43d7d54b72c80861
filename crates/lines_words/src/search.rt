// Halving: the place of what is sought among rows that stand in order.
ghost use Rattle.std.specs.Prelude.{◌≡◌, ℕ, ◌<◌, MatchOption};
ghost use Rattle.std.specs.declared.cmp.Ordering.{Ordering};
ghost use Rattle.house.specs.Search.{binary_search};

use std::cmp::Ordering;

// The place of the row that is what is sought among the first n: `row` tells how row i stands to that.
pub(crate) fn search_by<F: Fn(usize) -> Ordering>(n: usize, row: F) -> Option<usize>
    requires { (i : ℕ) → i < n → F.pre row i }
    ensures below { MatchOption result (Unit {0}) (λ i. i < n) }
    ensures halved { (stands : ℕ → Ordering) → ((i : ℕ) (o : Ordering) → i < n → F.post row i o → o ≡ stands i)
        → result ≡ binary_search stands Some None n 0 n }
{
    let mut lo = 0;
    let mut hi = n;
    // Not a `for`: what is left is halved each time.
    while lo < hi {
        let mid = lo + (hi - lo) / 2;
        match row(mid) {
            Ordering::Less => lo = mid + 1,
            Ordering::Equal => return Some(mid),
            Ordering::Greater => hi = mid,
        }
    }
    None
}
