//! The settings that a script leaves open.

use im_engine::BufferSize;
use im_tool_lines::LifeOptions;
use std::io;
use std::io::Write;

/// How the stores of a life are opened.
#[derive(Clone, Copy, Debug, PartialEq, Eq)]
pub(crate) struct Setting {
    pub(crate) options: LifeOptions,
    pub(crate) buffer: BufferSize,
}

/// So many settings there are at most: two of frames, two of `group`, two of workers, three of buffers.
pub(crate) const SETTINGS: u64 = 24;

static BUFFERS: [usize; 3] = [1, 4, 32];

/// The setting of this number, from 0 on. What the life's words name stays as they have it, and so does a buffer that is named: then there is none
/// for the numbers of another one.
pub(crate) fn setting_of(
    number: u64,
    options: LifeOptions,
    buffer: Option<BufferSize>,
) -> Option<Setting> {
    let mut options = options;
    options.frames = chosen(options.frames, number % 2 == 1, 64, 8)?;
    options.group = chosen_word(options.group, number / 2 % 2 == 1)?;
    options.workers = chosen(options.workers, number / 4 % 2 == 1, 1, 4)?;
    let buffer = chosen_buffer(buffer, number / 8)?;
    Some(Setting { options, buffer })
}

// What is named, or the first of two, or the second where that is asked for; none, where the second is asked for beside what is named.
fn chosen(named: Option<u64>, is_second: bool, first: u64, second: u64) -> Option<Option<u64>> {
    match named {
        Some(_) if is_second => None,
        Some(named) => Some(Some(named)),
        None if is_second => Some(Some(second)),
        None => Some(Some(first)),
    }
}

fn chosen_word(is_named: bool, is_second: bool) -> Option<bool> {
    if is_named && is_second {
        None
    } else {
        Some(is_named || is_second)
    }
}

fn chosen_buffer(named: Option<BufferSize>, number: u64) -> Option<BufferSize> {
    match named {
        Some(named) if number == 0 => Some(named),
        Some(_) => None,
        None => BufferSize::new(*BUFFERS.get(number as usize)?),
    }
}

/// Writes a setting, as the words after `life` have it, and its buffer.
pub(crate) fn write_setting<W: Write>(writer: &mut W, setting: Setting) -> io::Result<()> {
    let frames = setting.options.frames.unwrap_or(0);
    let stepped = if setting.options.stepped {
        "stepped "
    } else {
        ""
    };
    let group = if setting.options.group { "group " } else { "" };
    let dense = if setting.options.dense { "dense " } else { "" };
    let workers = setting.options.workers.unwrap_or(0);
    let buffer = setting.buffer.batches();
    write!(
        writer,
        "frames {frames} {stepped}{group}{dense}workers {workers} buffer {buffer} "
    )
}
