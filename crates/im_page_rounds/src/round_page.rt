//! A page of a round.

use im_page::Page;

/// A page while a round is redone: the page itself, and whether a record of the round was applied to it.
#[derive(Drop)]
pub struct RoundPage {
    pub page: Box<Page>,
    pub changed: bool,
}
