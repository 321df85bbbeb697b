use console::no_case::NoCase;
use std::alloc::Global;

// No script of the corpus is longer than this, so that no line asks for all of the memory.
const LONGEST_SCRIPT: usize = 100000;

fn digit(b: u8) -> Option<u8> {
    match b {
        b'0'..=b'9' => Some(b - b'0'),
        b'a'..=b'f' => Some(b - b'a' + 10),
        _ => None,
    }
}

fn byte(high: u8, low: u8) -> Option<u8> {
    Some(digit(high)?.wrapping_mul(16).wrapping_add(digit(low)?))
}

// Adds the bytes of a hexadecimal text. `-` stands for no bytes.
fn push_hex(script: &mut Vec<u8>, text: &[u8]) -> Result<(), NoCase> {
    if text == b"-".as_slice() {
        return Ok(());
    }
    for pair in text.chunks(2) {
        let [high, low] = pair else {
            return Err(NoCase::Form);
        };
        script.push(byte(*high, *low).ok_or(NoCase::Form)?)?;
    }
    Ok(())
}

// The same, a number of times over.
fn push_times(script: &mut Vec<u8>, count: usize, text: &[u8]) -> Result<(), NoCase> {
    for _ in 0..count {
        if script.len() > LONGEST_SCRIPT {
            return Err(NoCase::Form);
        }
        push_hex(script, text)?;
    }
    Ok(())
}

// A part: hexadecimal, with a count in front of it or not.
fn push_part(script: &mut Vec<u8>, text: &str) -> Result<(), NoCase> {
    let Some((count, rest)) = text.split_once('*') else {
        return push_hex(script, text.as_bytes());
    };
    push_times(script, count.parse::<usize>()?, rest.as_bytes())
}

// The script that a line writes.
pub(crate) fn read_script(heap: Global, text: &str) -> Result<Vec<u8>, NoCase> {
    let mut script = Vec::new(heap);
    for part in text.split_whitespace() {
        push_part(&mut script, part)?;
    }
    Ok(script)
}
