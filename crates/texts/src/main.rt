// Prints what the text call answers to each text of standard input, a line for each: `I O`, or `refused` and the number.
// Frame: a line with the text's length in bytes, then that many bytes. The end of the input ends the texts.
#![tactic(auto)]

use aiger::refusal::Refusal;
use reading::read_full;
use std::io;
use std::io::Read;

// The length that the next frame begins with: up to eight digits and a newline. Anything else ends the texts.
fn next_frame<R: Read>(from: &mut R) -> io::Result<Option<usize>> {
    let mut length: usize = 0;
    let mut one = [0u8; 1];
    for _ in 0..9 {
        if read_full(from, &mut one)? == 0 {
            return Ok(None);
        }
        match one[0] {
            b'\n' => return Ok(Some(length)),
            // eight digits at most, also behind zeros
            x @ b'0'..=b'9' if length <= 9999999 => length = length * 10 + (x - b'0') as usize,
            _ => return Ok(None),
        }
    }
    Ok(None)
}

// Reads n bytes and drops them.
fn skip<R: Read>(from: &mut R, n: usize) -> io::Result<()> {
    let mut buffer = [0u8; 4096];
    for _ in 0..n / 4096 {
        read_full(from, &mut buffer)?;
    }
    read_full(from, &mut buffer[..n % 4096])?;
    Ok(())
}

// The line of an answer.
fn print(rt: &impl Print, answer: Result<(u16, u16), Refusal>) -> io::Result<()> {
    match answer {
        Ok((inputs, outputs)) => println!(rt; "{inputs} {outputs}"),
        Err(why) => println!(rt; "refused {}", u16::from(why)),
    }
}

// A text of n bytes. One longer than the buffer is refused for its length alone, so its start stands for it.
fn one_text<R: Read>(rt: &impl Print, from: &mut R, n: usize) -> io::Result<()> {
    let mut buffer = [0u8; 65536];
    if n <= 65536 {
        let got = read_full(from, &mut buffer[..n])?;
        print(rt, nets::text(&buffer[..got]))
    } else {
        read_full(from, &mut buffer)?;
        skip(from, n - 65536)?;
        print(rt, nets::text(&buffer))
    }
}

// A proved loop has to end, so it has a count that no run uses up.
fn main(rt: HostRuntime) -> io::Result<()> {
    let mut from = rt.reader();
    for _ in 0..u64::MAX {
        let Some(n) = next_frame(&mut from)? else {
            break;
        };
        one_text(&rt, &mut from, n)?;
    }
    Ok(())
}
