//! Why a line of a script is bad, where more is known than how such a line is written.

use im_base_types::LONGEST_BATCH;
use im_tool_lines::reason_of;
use im_tool_words::first_piece;

/// What is wrong with a line that the grammar of scripts does not have, or does not have at its place.
pub(crate) fn why_bad(line: &[u8]) -> &'static str {
    let (word, rest) = first_piece(line, b' ');
    let Some(rest) = rest else {
        return reason_of(line);
    };
    match word {
        b"put" => why_no_batch(line, rest),
        b"set" => match first_piece(rest, b' ').1 {
            Some(digits) => why_no_bytes(line, digits),
            None => reason_of(line),
        },
        _ => reason_of(line),
    }
}

fn why_no_batch(line: &[u8], digits: &[u8]) -> &'static str {
    if are_pairs(digits) && digits.len() / 2 > LONGEST_BATCH {
        return "a batch has 1 to 16384 bytes";
    }
    why_no_bytes(line, digits)
}

fn why_no_bytes(line: &[u8], digits: &[u8]) -> &'static str {
    if !line.ends_with(b"\r") && !digits.contains(&b' ') && !are_pairs(digits) {
        return "HEX is pairs of hexadecimal digits, one pair at least";
    }
    reason_of(line)
}

fn are_pairs(digits: &[u8]) -> bool {
    !digits.is_empty()
        && digits.len() % 2 == 0
        && digits.iter().all(|byte| byte.is_ascii_hexdigit())
}
