//! Reads one rule image from standard input and prints its quote or its refusal.
#![tactic(auto)]

use image::MOST_BYTES;
use std::io::Read;
use verdict::judge;

/// One byte more than the largest image has: enough to see that an input is no image.
const ENOUGH: u64 = MOST_BYTES as u64 + 1;

fn main(rt: HostRuntime) -> anyhow::Result<()> {
    let mut image = Vec::new(rt.alloc());
    rt.stdin().take(ENOUGH).read_to_end(&mut image)?;
    println!(rt; "{}", judge(image.as_slice()))?;
    Ok(())
}
