//! Why a line of a script is bad, in words.

/// The line of a text that this output says was refused, and its number. None where the output is another.
pub fn refused_line<'a>(printed: &[u8], text: &'a [u8]) -> Option<(u64, &'a [u8])> {
    let digits = printed.strip_prefix(b"refused 16 line ")?;
    let digits = digits.strip_suffix(b"\n")?;
    let number = std::str::from_utf8(digits).ok()?.parse::<u64>().ok()?;
    let mut at = 1u64;
    for line in text.split(|byte| *byte == b'\n') {
        if at == number {
            return Some((number, line));
        }
        at = at.saturating_add(1);
    }
    None
}

/// What is wrong with a line that the grammar of scripts does not have, or does not have at its place.
pub fn reason_of(line: &[u8]) -> &'static str {
    if line.ends_with(b"\r") {
        return "a carriage return ends it";
    }
    if has_bad_spaces(line) {
        return "one space stands between two words, and none in front or behind";
    }
    usage_of(first_word(line))
}

fn has_bad_spaces(line: &[u8]) -> bool {
    line.starts_with(b" ")
        || line.ends_with(b" ")
        || line.windows(2).any(|two| two == b"  ".as_slice())
}

fn first_word(line: &[u8]) -> &[u8] {
    match line.split(|byte| *byte == b' ').next() {
        Some(word) => word,
        None => line,
    }
}

// How a line with this first word goes on, and where it stands.
fn usage_of(word: &[u8]) -> &'static str {
    match word {
        b"set" => "`set log HEX`, `set pages HEX` and `set log2 HEX` stand before all lives",
        b"raw" => "`raw` stands alone, and not in a script with `life`",
        b"put" => "`put HEX` stands in a life that `raw` begins",
        b"life" =>
            "`life`, and after it `frames N`, `max N`, `fail N`, `failread N`, `stepped`, `group`, `dense` and `workers N` in this order, not in a script with `raw`",
        b"stop" =>
            "`stop N long|short HEX|written`, where N is `end` or a number, stands last in a life",
        b"calls" => "`calls` stands alone, in a life",
        b"begin" => "`begin` stands alone, in a life",
        b"insert" => "`insert TRANSACTION KEY ROWID`, in a life",
        b"delete" => "`delete TRANSACTION KEY`, in a life",
        b"fetch" => "`fetch TRANSACTION KEY`, in a life",
        b"seek" => "`seek TRANSACTION KEY`, in a life",
        b"next" => "`next TRANSACTION KEY`, in a life",
        b"prev" => "`prev TRANSACTION KEY`, in a life",
        b"scan" => "`scan TRANSACTION KEY KEY LIMIT`, in a life",
        b"commit" => "`commit TRANSACTION`, in a life",
        b"rollback" => "`rollback TRANSACTION`, in a life",
        b"continue" => "`continue TRANSACTION`, in a life",
        b"force" => "`force` stands alone, in a life",
        b"flush" => "`flush PAGE`, in a life",
        b"checkpoint" => "`checkpoint` stands alone, in a life",
        b"switch" => "`switch` stands alone, in a life",
        b"page" => "`page PAGE`, in a life",
        b"redo" => "`redo` stands alone, in a life",
        b"log" => "`log` stands alone, in a life",
        _ => "no line begins with this word",
    }
}
