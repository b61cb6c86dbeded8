//! The pages of a structure change under construction.

ghost use Rattle.std.specs.Prelude.{◌≡◌, ℕ, ◌<◌, ◌≤◌, [], length, OnOk, OnErr, IfOk, IfErr, IfSome, IsSome, IsNone, Some, None, IsOk};
ghost use Rattle.im_base_types.specs.declared.fault.Fault.TheVariants.{Memory};
ghost use Rattle.im_smo_pages.specs.Images.{IsFound, LacksImage, IsRising, image_of, image_at, put_image, without_image};

use crate::numbered_image::Image;
use im_base_types::{Fault, PageNo};
use im_page::Page;
use std::alloc::Global;
use std::marker::Model;

/// The pages that a structure change leaves, by their numbers: each number once, in rising order. Contracts see the list.
/// A page is moved in and out by its box, and is not copied.
#[derive(Drop)]
pub struct Images {
    images: Vec<Image>,
}

impl Model for Images {
    ghost use Rattle.std.specs.Prelude.{List};
    ghost use Rattle.im_smo_pages.specs.Images.{Numbered, IsRising};

    ghost Value = { List Numbered };

    ghost view = { λ a. a.images.items };

    ghost invariant = { λ a. IsRising a.images.items };
}

impl Images {
    /// With no page. It takes no memory.
    pub fn new(alloc: Global) -> Self
        ensures { result ≡ [] }
    {
        Images {
            images: Vec::new(alloc),
        }
    }

    /// Their numbers rise: a law, and nothing that runs.
    pub fn law_rise(&self)
        ensures { IsRising self.now }
    {
        let _own = &self.images;
    }

    /// How many pages there are. Their numbers rise.
    pub fn len(&self) -> usize
        ensures len { result ≡ length self.now }
        ensures rises { IsRising self.now }
    {
        self.images.len()
    }

    /// The number of the page at a place.
    pub fn number(&self, i: usize) -> PageNo
        requires { i < length self.now }
        ensures { result ≡ (image_at self.now i).0 }
    {
        let image = &self.images[i];
        image.number
    }

    /// The page at a place, lent.
    pub fn page(&self, i: usize) -> &Page
        requires { i < length self.now }
        ensures { result.now ≡ (image_at self.now i).1 }
    {
        let image = &self.images[i];
        &image.page
    }

    // The first place whose number is no less.
    fn place(&self, number: PageNo) -> usize
        ensures within { result ≤ length self.now }
        ensures below { (k : ℕ) → k < result → (image_at self.now k).0 < number }
        ensures above { result < length self.now → number ≤ (image_at self.now result).0 }
    {
        let mut low = 0;
        let mut high = self.images.len();
        while low < high {
            let middle = low + (high - low) / 2;
            if self.number(middle) < number {
                low = middle + 1;
            } else {
                high = middle;
            }
        }
        low
    }

    /// The place of the page of a number, or where it would come in.
    pub fn find(&self, number: PageNo) -> Result<usize, usize>
        ensures found { IfOk result (λ i. IsFound self.now number i) }
        ensures absent { IfErr result (λ i. LacksImage self.now number i) }
        ensures page { IfOk result (λ i. image_of self.now number ≡ Some (image_at self.now i).1) }
        ensures none { IfErr result (λ _. image_of self.now number ≡ None) }
    {
        let at = self.place(number);
        if at == self.images.len() {
            return Err(at);
        }
        if self.number(at) == number {
            Ok(at)
        } else {
            Err(at)
        }
    }

    /// The page of a number, lent.
    pub fn get(&self, number: PageNo) -> Option<&Page>
        ensures page { IfSome result (λ p. image_of self.now number ≡ Some p.now) }
        ensures none { IsNone result → image_of self.now number ≡ None }
    {
        match self.find(number) {
            Ok(at) => Some(self.page(at)),
            Err(_) => None,
        }
    }

    /// Takes the page of a number out, to be changed and put back.
    pub fn take(&mut self, number: PageNo) -> Option<Box<Page>>
        ensures page { IfSome result (λ p. image_of self.old number ≡ Some p.value) }
        ensures new { self.new ≡ without_image number self.old }
        ensures none { IsNone result → image_of self.old number ≡ None }
    {
        match self.find(number) {
            Ok(at) => {
                let image = self.images.remove(at);
                Some(image.page)
            },
            Err(_) => None,
        }
    }

    /// Puts the page of a number in, in place of the one that is there, if there is one. Refused `Memory`, with nothing
    /// changed, where there is none for one page more.
    pub fn put(&mut self, number: PageNo, page: Box<Page>) -> Result<(), Fault>
        ensures new { OnOk result (self.new ≡ put_image number page.value self.old) }
        ensures same { OnErr result (self.new ≡ self.old) }
        ensures refused { IfErr result (λ e. e ≡ Memory) }
        ensures there { IsSome (image_of self.old number) → IsOk result }
    {
        match self.find(number) {
            Ok(at) => {
                self.images[at] = Image { number, page };
                Ok(())
            },
            Err(at) => {
                let image = Image { number, page };
                self.images.insert(at, image).map_err(|_| Fault::Memory)?;
                Ok(())
            },
        }
    }
}
