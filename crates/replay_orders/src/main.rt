// Runs every order of a table, one line of hexadecimal for each, and prints its stages and rows on one line, or its
// refusal. The lines were worked out from the rules by tests/orders.py.
#![tactic(auto)]

use layers::Pair;
use listing::Listing;
use order::resize;
use span::Span;
use std::alloc::{AllocError, Global};
use std::io;
use tent::Tent;

// The value of a hexadecimal digit. Any other byte counts as 0, so that every line is an order (`hex::decode` refuses some,
// and `to_digit` takes capital letters).
fn digit(b: u8) -> u8 {
    match b {
        b'0'..=b'9' => b - b'0',
        b'a'..=b'f' => b - b'a' + 10,
        _ => 0,
    }
}

// The bytes that a line of hexadecimal stands for, whatever its digits are.
fn decode(heap: Global, line: &[u8]) -> Result<Vec<u8>, AllocError> {
    let (pairs, _) = line.as_chunks::<2>();
    pairs
        .iter()
        .map(|[high, low]| digit(*high).wrapping_mul(16) | digit(*low))
        .collect(heap)
}

fn replay(rt: &HostRuntime, line: &str) -> io::Result<()> {
    let order = decode(rt.alloc(), line.as_bytes())?;
    match resize(rt.alloc(), Pair::<Tent, Span>::default(), &order) {
        Ok(resized) => println!(rt; "{}", Listing(&resized)),
        Err(fault) => println!(rt; "refused {}", fault.code()),
    }
}

// The loop of each program over lines: a function for it would take a closure, and be no shorter.
fn main(rt: HostRuntime) -> io::Result<()> {
    for line in rt.lines(rt.alloc()) {
        let line = line?;
        replay(&rt, line.as_str())?;
    }
    Ok(())
}
