// Prints what is shown of each image of a table on standard input, with a blank line after it.
//
// A line that begins with `image` is an image: words of hexadecimal byte pairs, each repeated N times where *N follows
// it. Any other line is printed as it stands.
#![tactic(auto)]

use anyhow::bail;
use screen::screen::Screen;
use std::alloc::Global;
use std::io::{BufRead, BufReader};

// How many bytes are decoded at a time.
const PART: usize = 32;

// Adds the bytes that pairs of hexadecimal digits stand for; capital letters are no digits here. Part by part, so that no
// memory is asked for behind a digit that is none.
fn push_hex(image: &mut Vec<u8>, digits: &str) -> anyhow::Result<()> {
    let (pairs, half) = digits.as_bytes().split_at(digits.len() / 2 * 2);
    let mut bytes = [0; PART];
    for part in pairs.chunks(2 * PART) {
        let bytes = &mut bytes[..PART.min(part.len() / 2)];
        let capital = part.iter().any(u8::is_ascii_uppercase);
        if capital || hex::decode_to_slice(part, bytes).is_err() {
            bail!("not a hexadecimal digit");
        }
        image.extend_from_slice(bytes)?;
    }
    if !half.is_empty() {
        bail!("half a byte");
    }
    Ok(())
}

// Adds the bytes of a word, as often as it says.
fn push_word(image: &mut Vec<u8>, word: &str) -> anyhow::Result<()> {
    let (digits, times) = word.split_once('*').unwrap_or((word, "1"));
    for _ in 0..times.parse::<u16>()? {
        push_hex(image, digits)?;
    }
    Ok(())
}

fn image_of(heap: Global, words: &str) -> anyhow::Result<Vec<u8>> {
    let mut image = Vec::new(heap);
    for word in words.split_whitespace() {
        push_word(&mut image, word)?;
    }
    Ok(image)
}

fn run(rt: &HostRuntime) -> anyhow::Result<()> {
    let heap = rt.alloc();
    for line in BufReader::new(heap, rt.stdin())?.lines(heap) {
        let line = line?;
        match line.as_str().strip_prefix("image") {
            Some(words) => {
                let image = image_of(heap, words)?;
                let screen = Screen::new(heap, image.as_slice())?;
                println!(rt; "{screen}\n")?;
            }
            None => println!(rt; "{line}")?,
        }
    }
    Ok(())
}

fn main(rt: HostRuntime) -> anyhow::Result<()> {
    run(&rt)
}
