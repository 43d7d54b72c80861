// The check of a submission, in the order of its answers: one call over file, code book, ledger, findings area and today's date.
#![tactic(auto)]

mod settle;
mod steps;

ghost use Rattle.std.specs.Prelude.{◌≡◌};
ghost use Rattle.answers.specs.declared.Refusal.TheVariants.{Shape};

use lines::Fault;
pub use steps::check;

// Room for the places of a short file's blocks.
pub(crate) const FEW_PLACES: usize = 316;

// What an accepted file has: how many blocks add, change and delete, and how many IN records there are.
#[derive(Clone, Copy)]
pub struct Accepted {
    pub added: usize,
    pub changed: usize,
    pub deleted: usize,
    pub not_immunized: usize,
}

// Why a file is refused, by document 01's names; `numbers_of` in specs/ gives the paper's numbers of each.
#[derive(Clone, Copy)]
pub enum Refusal {
    Date,
    Long,
    Book,
    Ledger,
    Shape(Fault),
    Findings(usize),
    Full,
}

impl From<Fault> for Refusal {
    ghost from_gives = { λ fault refusal. refusal ≡ Shape fault };

    fn from(fault: Fault) -> Refusal {
        Refusal::Shape(fault)
    }
}
