// Makes the random step lists that bench/LISTS.md defines, runs each through the machine's public methods, and prints
// their digests. The twin in bench/twin prints the same. A comment in quotation marks names a part of LISTS.md.
#![tactic(auto)]

mod changing;
mod choosing;
mod disturbing;
mod generator;
mod list_steps;
mod setup;
mod tables;

use list_steps::{Digest, Totals, digest_of};
use std::io;
use std::ops::Range;

// "The digest of 100 lists is one more fold: starting with 0, the digests of lists 100i, 100i + 1, .. are folded in."
fn hundred(lists: Range<u64>, totals: &mut Totals) -> u64 {
    let mut digest = Digest { value: 0 };
    for n in lists {
        digest.fold(digest_of(n, totals));
    }
    digest.value
}

// "a line `answer A N`"
fn answers(rt: &impl Print, counts: &[u64; 19]) -> io::Result<()> {
    for (a, n) in counts[..18].iter().enumerate() {
        println!(rt; "answer {a} {n}")?;
    }
    println!(rt; "answer 255 {}", counts[18])
}

fn main(rt: HostRuntime) -> io::Result<()> {
    let mut totals = Totals {
        steps: 0,
        counts: [0; 19],
    };
    for i in 0..36 {
        let digest = hundred(100 * i..100 * i + 100, &mut totals);
        println!(rt; "{digest:016x}")?;
    }
    answers(&rt, &totals.counts)?;
    println!(rt; "lists 3600, steps {}", totals.steps)
}
