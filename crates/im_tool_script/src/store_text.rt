//! Answers of lives of a store as text.

use im_base_types::{PageKind, PageNo};
use im_page::Header;
use im_tool_drill::StoreDrilled;
use im_tool_lines::{Opening, StoreAnswers, StoreReply};
use im_tool_words::{entries_text, reply_text, report_text};
use std::io;
use std::io::Write;

/// Prints what the lives of a store answer, and what stands after the last.
pub(crate) fn print_store<W: Write>(writer: &mut W, drilled: &StoreDrilled) -> io::Result<()> {
    for life in &drilled.lives {
        print_store_life(writer, life)?;
    }
    match &drilled.last {
        Ok(entries) => entries_text(writer, "final", entries),
        Err(fault) => writeln!(writer, "final refused {}", fault.number()),
    }
}

fn print_store_life<W: Write>(writer: &mut W, life: &StoreAnswers) -> io::Result<()> {
    print_opening(writer, life.opening)?;
    for reply in &life.replies {
        match reply {
            StoreReply::Step(reply) => {
                reply_text(writer, reply)?;
                writeln!(writer)?;
            }
            StoreReply::Calls(calls) => writeln!(writer, "calls {calls}")?,
            StoreReply::Page(page, header) => {
                print_header(writer, *page, *header)?;
            }
            StoreReply::Redo(report) => report_text(writer, report.point, report.applied)?,
            StoreReply::Log(gate) => writeln!(writer, "log {}", gate.saturating_add(1))?,
            StoreReply::Changes(changes) => writeln!(writer, "changes {changes}")?,
            StoreReply::Refused(fault) => writeln!(writer, "refused {}", fault.number())?,
            StoreReply::Stopped => writeln!(writer, "stopped")?,
        }
    }
    Ok(())
}

// Prints what a page is for.
fn print_header<W: Write>(writer: &mut W, page: PageNo, header: Header) -> io::Result<()> {
    let kind = match header.kind {
        PageKind::Free => "free",
        PageKind::Meta => "meta",
        PageKind::Leaf => "leaf",
        PageKind::Inner => "inner",
    };
    writeln!(
        writer,
        "page {page} {kind} {} {}",
        header.level, header.count
    )
}

/// Prints what an opening answers.
pub(crate) fn print_opening<W: Write>(writer: &mut W, opening: Opening) -> io::Result<()> {
    match opening {
        Opening::Open(calls) => writeln!(writer, "open ok {calls}"),
        Opening::Refused(fault) => writeln!(writer, "open refused {}", fault.number()),
        Opening::Stopped => writeln!(writer, "open stopped"),
    }
}
