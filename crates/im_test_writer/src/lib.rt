//! Tests of page writes: the device calls of flushes, alone and in company, and of evictions, the Images that join the log, a full dirty table, and a round
//! of redo by several workers.
//!
//! They are calls of what `im_page_writer` shows. `writers` has what they begin with.
//!
//! And tests of logs by generation: headers as the second format gives them and the choice of the current log (`headers`), each stop while a log goes on in the
//! other file, of headers alone and of logs with records (`generations`), and how often an opening reads a log (`reads`).
#![tactic(auto)]

#[cfg(test)]
mod generations;
#[cfg(test)]
mod headers;
#[cfg(test)]
mod in_company;
#[cfg(test)]
mod page_writer;
#[cfg(test)]
mod reads;
#[cfg(test)]
mod rounds;
#[cfg(test)]
mod switching;
#[cfg(test)]
mod writers;
