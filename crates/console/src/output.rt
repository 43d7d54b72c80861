// What the program prints: "answer, line, cause, findings, added, changed, deleted, IN; then line, field, rule for each finding kept".
ghost use Rattle.std.specs.Prelude.{◌≡◌};
ghost use Rattle.answers.specs.Answers.{numbers_of};

use crate::FINDING;
use answers::{Accepted, Refusal};
use std::io;

// The numbers of an answer.
#[tactic(auto, unfolding(answers::specs::Answers::numbers_of))]
fn numbers_of(a: Result<Accepted, Refusal>) -> [u64; 8]
    ensures { result ≡ numbers_of a }
{
    match a {
        Ok(accepted) => [
            0,
            0,
            0,
            0,
            accepted.added as u64,
            accepted.changed as u64,
            accepted.deleted as u64,
            accepted.not_immunized as u64,
        ],
        Err(Refusal::Date) => [1, 0, 0, 0, 0, 0, 0, 0],
        Err(Refusal::Long) => [2, 0, 0, 0, 0, 0, 0, 0],
        Err(Refusal::Book) => [3, 0, 0, 0, 0, 0, 0, 0],
        Err(Refusal::Ledger) => [4, 0, 0, 0, 0, 0, 0, 0],
        Err(Refusal::Shape(fault)) => {
            [
                5,
                fault.line as u64,
                fault.cause.number() as u64,
                0,
                0,
                0,
                0,
                0,
            ]
        }
        Err(Refusal::Findings(n)) => [6, 0, 0, n as u64, 0, 0, 0, 0],
        Err(Refusal::Full) => [7, 0, 0, 0, 0, 0, 0, 0],
    }
}

// Prints a finding.
fn finding(rt: &impl Print, bytes: &[u8; FINDING]) -> io::Result<()> {
    let line = house::number_at(bytes, 1);
    let field = bytes[5];
    let rule = bytes[0];
    println!(rt; "{line} {field} {rule}")
}

// Prints an answer, and the findings kept in their area.
pub(crate) fn print(rt: &impl Print, a: Result<Accepted, Refusal>, area: &[u8]) -> io::Result<()> {
    let [
        answer,
        line,
        cause,
        findings,
        added,
        changed,
        deleted,
        not_immunized,
    ] = numbers_of(a);
    println!(rt; "{answer} {line} {cause} {findings} {added} {changed} {deleted} {not_immunized}")?;
    let (kept, _) = area.as_chunks::<FINDING>();
    for bytes in kept.iter().take(findings as usize) {
        finding(rt, bytes)?;
    }
    Ok(())
}
