//! Where a page may stand: a guess by the last digits of its number.
//!
//! A map hashes a number and searches. A guess is read from a list, and what page the guessed frame has from another one, so a wrong guess
//! finds nothing. Numbers of pages have no gaps, and there are at least twice as many guesses as frames: while the pages are not more than
//! the guesses, each has one of its own.

ghost use Rattle.std.specs.Prelude.{◌≡◌, ◌≤◌, ◌+◌, Some, slice_get, slice_set, replicate, IfOk, IfSome, IfErr};
ghost use Rattle.im_base_types.specs.declared.fault.Fault.TheVariants.{Memory};

use im_base_types::{Fault, PageNo};
use std::alloc::Global;
use std::marker::Model;

/// The page of each frame, with guesses of where a page stands. Contracts see the second list alone.
#[derive(Drop)]
pub struct Guesses {
    /// By the last digits of a page's number, the frame that such a page was last found in.
    places: Vec<u32>,
    /// Of each frame the number after that of its page, or 0.
    pages: Vec<u64>,
}

impl Model for Guesses {
    ghost use Rattle.std.specs.Prelude.{List, ℕ};

    ghost Value = { List ℕ };

    ghost view = { λ g. g.pages.items };
}

impl Guesses {
    /// Of so many frames, none of which has a page.
    pub fn new(alloc: Global, frames: usize) -> Result<Self, Fault>
        requires { frames ≤ 262144 }
        ensures none { IfOk result (λ g. g ≡ replicate frames 0) }
        ensures refused { IfErr result (λ e. e ≡ Memory) }
    {
        let most = (2 * frames).next_power_of_two();
        let places = vec![in alloc; 0; most].map_err(|_| Fault::Memory)?;
        let pages = vec![in alloc; 0; frames].map_err(|_| Fault::Memory)?;
        Ok(Guesses { places, pages })
    }

    /// The frame of a page, where it was guessed.
    pub fn find(&self, p: PageNo) -> Option<u32>
        ensures { IfSome result (λ f. slice_get self.now f ≡ Some (p + 1)) }
    {
        let i = self.digits(p);
        if i < self.places.len() {
            let place = self.places[i];
            if (place as usize) < self.pages.len() && self.pages[place as usize] == p as u64 + 1 {
                return Some(place);
            }
        }
        None
    }

    /// Guesses from now on that a page stands in a frame.
    pub fn guess(&mut self, p: PageNo, place: u32)
        ensures { self.new ≡ self.old }
    {
        let i = self.digits(p);
        if i < self.places.len() {
            self.places[i] = place;
        }
    }

    /// Notes the number after that of a frame's page, or 0 where it has none.
    pub fn note(&mut self, place: u32, page: u64)
        ensures { self.new ≡ slice_set self.old place page }
    {
        let i = place as usize;
        if i < self.pages.len() {
            self.pages[i] = page;
        }
    }

    // The last digits of a number: the guesses are as many as a power of two.
    fn digits(&self, p: PageNo) -> usize {
        p as usize & self.places.len().wrapping_sub(1)
    }
}
