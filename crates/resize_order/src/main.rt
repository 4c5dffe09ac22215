// Reads one order from standard input, and prints its stages and the rows of its target, or its refusal.
#![tactic(auto)]

use layers::Pair;
use listing::Listing;
use order::resize;
use span::Span;
use std::io;
use std::io::Read;
use tent::Tent;

fn main(rt: HostRuntime) -> io::Result<()> {
    let mut order = Vec::new(rt.alloc());
    rt.stdin().read_to_end(&mut order)?;
    match resize(rt.alloc(), Pair::<Tent, Span>::default(), &order) {
        Ok(resized) => println!(rt; "{:#}", Listing(&resized)),
        Err(fault) => println!(rt; "refused {}", fault.code()),
    }
}
