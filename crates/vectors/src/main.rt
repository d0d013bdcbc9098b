// Compares the published vectors of SipHash-2-4 with what siphash computes, and prints how many are equal.
// data/siphash-2-4.txt has a line for each: the length of the message 00 01 .., the result as bytes and as a number.
#![tactic(auto)]

ghost use Rattle.std.specs.Prelude.{◌≡◌};
ghost use Rattle.vectors.specs.Agrees.{agrees};

use siphash::siphash;
use std::{array, fs, io};

const KEY: [u8; 16] = [0, 1, 2, 3, 4, 5, 6, 7, 8, 9, 10, 11, 12, 13, 14, 15];

// One published result.
#[derive(Clone, Copy)]
struct Vector {
    length: usize,
    result: u64,
}

// Whether the hash of the first bytes of the message is the published one.
fn agree(key: &[u8; 16], message: &[u8], vector: Vector) -> bool
    ensures { result ≡ agrees key.now message.now vector }
{
    message
        .get(..vector.length)
        .is_some_and(|first| siphash(key, first) == vector.result)
}

// The vector that a line holds, if it holds one whose two forms of the result are the same.
fn read(line: &str) -> Option<Vector> {
    let mut parts = line.split_ascii_whitespace();
    let length = parts.next()?.parse::<usize>().ok()?;
    let bytes = u64::from_str_radix(parts.next()?, 16).ok()?;
    let result = u64::from_str_radix(parts.next()?, 16).ok()?;
    (bytes.swap_bytes() == result).then_some(Vector { length, result })
}

fn main(rt: HostRuntime) -> io::Result<()> {
    let message: [u8; 64] = array::from_fn(|i| i as u8);
    let text = fs::read_to_string(&rt, "siphash-2-4.txt")?;
    let text = text.as_str();
    let lines = text.lines().filter(|line| !line.starts_with('#')).count();
    let equal = text
        .lines()
        .filter_map(read)
        .filter(|vector| agree(&KEY, &message, *vector))
        .count();
    println!(rt; "{equal} of {lines} equal")
}
