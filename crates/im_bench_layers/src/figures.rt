//! Whether figures are asked for, and how they are taken and printed.

use anyhow::Result;

/// Whether the first word asks for figures.
pub fn is_timed(words: &[String]) -> bool {
    !words.is_empty() && words[0].as_str() == "--time"
}

/// One line: what came out, or how long a call took.
pub fn show(
    rt: &HostRuntime,
    name: &str,
    sum: u64,
    nanos: u128,
    calls: u64,
    timed: bool,
) -> Result<()> {
    if timed && calls > 0 {
        println!(rt; "{name} {} ns", nanos / calls as u128)?;
    } else {
        println!(rt; "{name} {sum}")?;
    }
    Ok(())
}

/// One line: how many rounds came out right, and how long each took.
pub fn show_of(
    rt: &HostRuntime,
    name: &str,
    sum: u64,
    rounds: u64,
    nanos: u128,
    timed: bool,
) -> Result<()> {
    if timed {
        let each = nanos / u128::from(rounds.max(1));
        println!(rt; "{name} {sum} of {rounds}, {each} ns each")?;
    } else {
        println!(rt; "{name} {sum} of {rounds}")?;
    }
    Ok(())
}
