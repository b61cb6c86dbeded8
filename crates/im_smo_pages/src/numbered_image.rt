//! One page of a structure change, with its number.

use im_base_types::PageNo;
use im_page::Page;
use std::marker::Model;

/// A page in memory, with its number.
#[derive(Drop)]
pub struct Image {
    pub(crate) number: PageNo,
    pub(crate) page: Box<Page>,
}

impl Model for Image {
    ghost use Rattle.im_smo_pages.specs.Images.{Numbered};

    ghost Value = { Numbered };

    ghost view = { λ i. (i.number, i.page.value) };
}
