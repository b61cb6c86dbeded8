//! The words of a command line.

/// What is worked on.
#[derive(Drop)]
pub struct Options<'a> {
    pub timed: bool,
    pub keys: u64,
    /// How many frames, one run for each number of them.
    pub frames: [usize; 2],
    pub folder: Option<&'a str>,
}

/// What the words say; a word that is none is passed over.
pub fn options_of<'a>(words: &'a [String]) -> Options<'a> {
    let mut options = Options {
        timed: false,
        keys: 2_000,
        frames: [8, 64],
        folder: None,
    };
    for i in 0..words.len() {
        let value = if i + 1 < words.len() {
            words[i + 1].as_str()
        } else {
            ""
        };
        match words[i].as_str() {
            "--time" => options.timed = true,
            "--keys" => options.keys = value.parse::<u64>().unwrap_or(options.keys),
            "--frames" => {
                let frames = value.parse::<usize>().unwrap_or(8);
                options.frames = [frames, frames];
            }
            "--in" => options.folder = Some(value),
            _ => {}
        }
    }
    options
}
