//! What a log file is, by the spellings of its records: laws over plain data.
//!
//! `log_of` reads bytes from left to right. Here the same is said with no reading: a header, batches of spelled records, each after an open
//! gate and its length, and a closed gate (`HasLogAt`).

ghost use Rattle.im_log.specs.SpelledFiles.{LogsAreRead, LogsAreSpelled};

use im_log_record::law_spellings;

/// A file that has the spellings of a log is read as that log; and one whose bytes are read as a log, each below 256, has its spellings.
pub fn logs_are_spelled()
    ensures read { LogsAreRead }
    ensures spelled { LogsAreSpelled }
{
    law_spellings();
}
