//! Texts that are put together of parts.

use std::alloc::Global;
use std::io;
use std::io::Write;

/// A part of a text.
#[derive(Clone, Copy)]
pub enum Part {
    /// As it stands.
    Text(&'static str),
    /// These lines for each number from the first up to the end, which is left out. In them `N` stands for the number, and `M`, `H`, `D` and `U`
    /// for its thousands, hundreds, tens and units; `Z` for 253 times `7a`.
    Each(u32, u32, &'static str),
    /// For twenty transactions from 1 on: lines in front, lines for each of fifteen keys, and lines after. In them `T` stands for the
    /// transaction, `N` for the key's place among the three hundred, from 1 on, and `H`, `D` and `U` for the digits of the key, which is
    /// that place times 7,919, of which the last three digits are taken.
    Scattered(&'static str, &'static str, &'static str),
}

/// The numbers that letters of a line stand for.
#[derive(Clone, Copy)]
struct Numbers {
    txn: u32,
    key: u32,
    place: u32,
}

/// The text of these parts.
pub fn text_of(alloc: Global, parts: &[Part]) -> io::Result<Vec<u8>> {
    let mut text = Vec::new(alloc);
    for part in parts {
        match *part {
            Part::Text(words) => text.extend_from_slice(words.as_bytes())?,
            Part::Each(first, end, lines) => {
                for n in first..end {
                    write_lines(
                        &mut text,
                        lines,
                        Numbers {
                            txn: 0,
                            key: n,
                            place: n,
                        },
                    )?;
                }
            }
            Part::Scattered(front, each, behind) => write_scattered(
                &mut text, front, each, behind,
            )?,
        }
    }
    Ok(text)
}

fn write_scattered(text: &mut Vec<u8>, front: &str, each: &str, behind: &str) -> io::Result<()> {
    for txn in 1..21u32 {
        write_lines(
            text,
            front,
            Numbers {
                txn,
                key: 0,
                place: 0,
            },
        )?;
        for j in 0..15u32 {
            let place = (txn - 1) * 15 + j + 1;
            let key = place * 7_919 % 1_000;
            write_lines(text, each, Numbers { txn, key, place })?;
        }
        write_lines(
            text,
            behind,
            Numbers {
                txn,
                key: 0,
                place: 0,
            },
        )?;
    }
    Ok(())
}

fn write_lines(text: &mut Vec<u8>, lines: &str, numbers: Numbers) -> io::Result<()> {
    for byte in lines.as_bytes() {
        match *byte {
            b'T' => write!(text, "{}", numbers.txn)?,
            b'N' => write!(text, "{}", numbers.place)?,
            b'M' => push_digit(text, numbers.key / 1_000)?,
            b'H' => push_digit(text, numbers.key / 100)?,
            b'D' => push_digit(text, numbers.key / 10)?,
            b'U' => push_digit(text, numbers.key)?,
            b'Z' => push_zs(text)?,
            other => text.push(other)?,
        }
    }
    Ok(())
}

// The last digit of a number.
fn push_digit(text: &mut Vec<u8>, n: u32) -> io::Result<()> {
    text.push(b'0' + (n % 10) as u8)?;
    Ok(())
}

// The rest of a key of 255 bytes, as its digits are printed.
fn push_zs(text: &mut Vec<u8>) -> io::Result<()> {
    for _ in 0..253u32 {
        text.extend_from_slice(b"7a")?;
    }
    Ok(())
}
