// Numbers as texts.
#![tactic(auto)]

ghost use Rattle.std.specs.Prelude.{◌≡◌, length};
ghost use Rattle.writing.specs.Writing.{decimal};

// How many digits a number has.
pub fn number_length(n: usize) -> usize
    ensures { result ≡ length (decimal n) }
{
    let mut k = 1;
    let mut rest = n;
    // Not a `for`: the number gets shorter by a digit each time.
    while 10 <= rest {
        rest /= 10;
        k += 1;
    }
    k
}
