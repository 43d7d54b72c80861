// The program that document 01 calls `check`. Its stored example is P2: lot L1 on line 6, with an empty ledger.bin.
#![tactic(auto)]

use std::io;

fn main(rt: HostRuntime) -> io::Result<()> {
    console::run(&rt)
}
