//! The words of lines that set a file.

ghost use Rattle.std.specs.Prelude.{◌≡◌, ◌≢◌, MatchOption};
ghost use Rattle.im_base_types.specs.declared.file_id.FileId.{FileId};
ghost use Rattle.im_tool_lines.specs.Lines.{file_word};

use im_base_types::FileId;

/// The file of this name.
pub(crate) fn file_of(word: &[u8]) -> Option<FileId>
    ensures { MatchOption result ((file : FileId) → word.now ≢ file_word file) (λ file. word.now ≡ file_word file) }
{
    if word == b"log".as_slice() {
        return Some(FileId::Log);
    }
    if word == b"pages".as_slice() {
        return Some(FileId::Pages);
    }
    if word == b"log2".as_slice() {
        return Some(FileId::Log2);
    }
    None
}
