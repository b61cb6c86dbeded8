//! What the words of the command line ask for.

/// Who makes the forces.
#[derive(Clone, Copy)]
pub enum Mode {
    Group,
    Alone,
    Own,
}

impl Mode {
    /// Its word.
    pub fn name(self) -> &'static str {
        match self {
            Mode::Group => "group",
            Mode::Alone => "alone",
            Mode::Own => "own",
        }
    }

    /// Whether the store has group commit.
    pub fn groups(self) -> bool {
        !matches!(self, Mode::Alone)
    }
}

/// The mode, how many threads there are, and how many transactions each makes.
#[derive(Clone, Copy)]
pub struct Asked {
    pub mode: Mode,
    pub threads: u64,
    pub commits: u64,
}

/// What the words after the program's name and the folder ask for.
pub fn asked_by(words: &[String]) -> Option<Asked> {
    if words.len() != 5 {
        return None;
    }
    let mode = mode_of(words[2].as_str())?;
    let threads = words[3].parse::<u64>().ok()?;
    let commits = words[4].parse::<u64>().ok()?;
    Some(Asked {
        mode,
        threads,
        commits,
    })
}

fn mode_of(word: &str) -> Option<Mode> {
    match word {
        "group" => Some(Mode::Group),
        "alone" => Some(Mode::Alone),
        "own" => Some(Mode::Own),
        _ => None,
    }
}
