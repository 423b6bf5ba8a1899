// Reads divisions from standard input, one to a line, and prints each with its answer; the last line sums them up.
#![tactic(auto)]

mod answer;
mod question;
mod respond;
mod tally;

use respond::respond;
use std::io;
use std::io::{BufRead, BufReader};
use tally::Tally;

fn main(rt: HostRuntime) -> io::Result<()> {
    let mut tally = Tally::new();
    for line in BufReader::new(rt.alloc(), rt.stdin())?.split(rt.alloc(), b'\n') {
        let bytes = line?;
        respond(&rt, &mut tally, bytes.as_slice())?;
    }
    println!(rt; "{tally}")
}
