//! Steps of a store that makes its structure changes page by page, so that other transactions go on between two pages.

ghost use Rattle.im_engine.specs.Aims.{IsBesideOf};

use im_base_types::{Key, PageNo, Rid};
use im_smo_actions::BegunChange;
use im_tree_search::Beside;

mod closing;
mod deleting;
mod inserting;
mod page;
mod steps;
mod taking_back;
mod turning_back;

/// What a structure change under way is for.
#[derive(Drop)]
pub(crate) enum Aim {
    // the key is put into this leaf when the change ends
    Puts(Key, Rid, PageNo),
    // the key was dropped, and the leaf that it left empty goes
    Drops(Key),
    // the newest change of its owner is taken back when it ends
    TakesBack,
    // it was taken back, and the leaf that it left empty goes
    TookBack,
}

/// A structure change under way, which its owner goes on with by Continue.
#[derive(Drop)]
pub(crate) struct Under {
    pub(crate) begun: BegunChange,
    pub(crate) aim: Aim,
}

/// What a Continue makes next of its transaction's structure change: nothing, where it has none; a page; or its end, by what it is for.
pub(crate) enum Part {
    Other,
    Page,
    Insert,
    Delete,
    // of a rollback, a split or a deletion
    Back(bool),
}

// What others are told of it.
pub(crate) fn beside_of(under: &Option<Under>) -> Beside<'_>
    ensures { IsBesideOf under.now result }
{
    match under {
        None => Beside::none(),
        Some(under) => under.begun.beside(),
    }
}
