//! What follows from how headers of the third format are spelled.

ghost use Rattle.im_log_third_header.specs.Laws.{OneHeader, HeadersAreKept, ShowsByHeader, EmptyHasHeader, NoOtherFormat};

/// What files of the third format say, by the bytes in front of the first gate. A law, and nothing that runs.
pub fn third_headers_say()
    ensures one { OneHeader }
    ensures kept { HeadersAreKept }
    ensures shows { ShowsByHeader }
    ensures empty { EmptyHasHeader }
    ensures other { NoOtherFormat }
{}
