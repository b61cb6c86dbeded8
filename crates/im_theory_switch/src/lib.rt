//! What follows where a log goes on in another file, and what does the one that was left say of the pages then?
//!
//! Laws of a log that goes on in another file, over plain data.
//!
//! A log is switched where nobody is unfinished and every page is in the file as the log made it: the pages of then are a
//! base, with the committed map, and an empty log goes on over it, at LSNs above all of before (`base_after`). What a
//! store stands for, what a writer of pages keeps, and which page counts there may be, is the same over the empty log.
//!
//! The log that was left says something of the pages beside the log that goes on, for the guards of an opening: each of its changes is in
//! the pages that the next log is over, and so in a file that covers these.
//!
//! Stands on `im_theory_log`; it knows of no file and no byte.
#![tactic(auto)]

ghost use Rattle.im_theory_switch.specs.Switch.{Switches, CountsGoOn, CountsStayInFile, StandsSwitched, WriterSwitches};
ghost use Rattle.im_theory_switch.specs.Left.{PastAfter, PagesAreThere, CountsAreThere};

use im_theory_log::logs::PageTree;

/// Where nobody is unfinished, the empty log is lawful over what the old one made. The page count that it begins with is one
/// that the old log has said, and no more than the base's or the pages of the file, once each page is there as the log made it.
pub fn switches<T: PageTree>()
    ensures law { Switches T.tree }
    ensures counts { CountsGoOn T.tree }
    ensures file { CountsStayInFile T.tree }
{}

/// The store stands for the same effects by either log.
pub fn stands_switched<T: PageTree>()
    ensures { StandsSwitched T.tree }
{}

/// A writer of pages whose dirty table is empty keeps over the empty log what it kept over the old one.
pub fn writer_switches()
    ensures { WriterSwitches }
{}

/// After a switch each page has the changes of the log that was left. So a file that the log covers has each such page, but one with a noted copy, with no earlier LSN;
/// and beside a log without a record it has the pages that page 0 counts.
pub fn left_logs_say()
    ensures past { PastAfter }
    ensures there { PagesAreThere }
    ensures counted { CountsAreThere }
{}
