//! Reads a table of images from standard input and prints the verdict on each.
//!
//! A line is a name and then segments of the image: bytes in hexadecimal, with `*COUNT` behind them where they are
//! repeated. A line with a name alone has an empty image.
#![tactic(auto)]

ghost use Rattle.std.specs.Prelude.{◌<◌, IfSome};

use anyhow::{Context, anyhow};
use std::alloc::Global;
use std::io::{BufRead, BufReader};
use verdict::judge;

fn digit(b: u8) -> Option<u8>
    ensures { IfSome result (λ d. d < 16) }
{
    match b {
        b'0'..=b'9' => Some(b - b'0'),
        b'a'..=b'f' => Some(b - b'a' + 10),
        _ => None,
    }
}

/// The byte of two hexadecimal digits.
fn byte_of(pair: &[u8]) -> Option<u8> {
    let [high, low] = pair else {
        return None;
    };
    Some(digit(*high)? * 16 + digit(*low)?)
}

fn push_segment(heap: Global, image: &mut Vec<u8>, segment: &str) -> anyhow::Result<()> {
    let (hex, count) = match segment.split_once('*') {
        Some((hex, count)) => (hex, count.parse::<u32>()?),
        None => (segment, 1),
    };
    let mut bytes = Vec::new(heap);
    for pair in hex.as_bytes().chunks(2) {
        // `context` would make an error ready for each byte, which takes up to a third more time.
        let Some(byte) = byte_of(pair) else {
            return Err(anyhow!("a segment is not hexadecimal"));
        };
        bytes.push(byte)?;
    }
    for _ in 0..count {
        image.extend_from_slice(bytes.as_slice())?;
    }
    Ok(())
}

/// Prints the verdict on one line of the table.
fn print_verdict(rt: &HostRuntime, line: &str) -> anyhow::Result<()> {
    let heap = rt.alloc();
    let mut words = line.split(' ');
    let name = words.next().context("a line is empty")?;
    let mut image = Vec::new(heap);
    for segment in words {
        push_segment(heap, &mut image, segment)?;
    }
    println!(rt; "{name} {}", judge(image.as_slice()))?;
    Ok(())
}

fn main(rt: HostRuntime) -> anyhow::Result<()> {
    for line in BufReader::new(rt.alloc(), rt.stdin())?.lines(rt.alloc()) {
        print_verdict(&rt, line?.as_str())?;
    }
    Ok(())
}
