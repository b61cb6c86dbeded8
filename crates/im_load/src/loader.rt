//! A load that goes on, entry by entry.

ghost use Rattle.std.specs.Prelude.{◌≡◌, ◌≢◌, ◌⊎◌, ◌↔◌, ℕ, ◌+◌, ◌≤◌, ◌<◌, false, true, Ok, Err, IfOk, IfErr, OnOk, List, [], ◌∷◌, ◌++◌, suc, length, set, IfSome, IsTrue};
ghost use Rattle.im_base_types.specs.Keys.{Key};
ghost use Rattle.im_base_types.specs.Pages.{Entry};
ghost use Rattle.im_base_types.specs.declared.fault.Fault.TheVariants.{Capacity, KeyLength, Memory, NotAStore};
ghost use Rattle.im_base_types.specs.declared.file_id.FileId.TheVariants.{Pages};
ghost use Rattle.im_base_types.specs.declared.page_kind.PageKind.TheVariants.{Leaf, Inner, Meta};
ghost use Rattle.im_base_disk.specs.Disk.{Answers};
ghost use Rattle.im_base_disk.specs.Ends.{AnswersOr};
ghost use Rattle.im_base_disk.specs.Runs.{IsSynced, LeavesOnly, Reads};
ghost use Rattle.im_theory_page.specs.Header.{empty_body, leaf_body};
ghost use Rattle.im_theory_page.specs.Split.{LacksRoom};
ghost use Rattle.im_load.specs.Edge.{IsAboveAll};
ghost use Rattle.im_load.specs.Steps.{inner_page};
ghost use Rattle.im_load.specs.Files.{AreEmpty, AreHalf, AreLeft, AreOfLoad, ArePages, HaveNoLog, WritesPageAt};
ghost use Rattle.im_load.specs.Goings.{WritesPages};
ghost use Rattle.im_load.specs.Held.{with_new_body, with_last, held_page, TakesLast};
ghost use Rattle.im_load.specs.Room.{FitsLongest};
ghost use Rattle.im_load.specs.HasTaken.{HasTaken, HasPending, IsLoading, IsOutOfPages, LoaderRefuses};
ghost use Rattle.im_load.specs.Loading.{HasWritten, HasTakenAll};

use crate::held::Held;
use crate::writing::write_page;
use im_base_disk::{Disk, sync};
use im_base_types::{Fault, FileId, LONGEST_KEY, PageNo, Rid};
use im_log_header::{Header, make_log};
use im_page::Page;
use std::alloc::Global;

/// A load: the last leaf, the inner pages above it up to the root, and how many pages there are.
#[derive(Drop)]
pub struct Loader {
    alloc: Global,
    leaf: Held,
    above: Vec<Held>,
    count: PageNo,
}

impl Loader {
    // A page more. Refused `Capacity` where numbers are used up.
    fn new_page(&mut self) -> Result<PageNo, Fault>
        ensures page { IfOk result (λ n. n ≡ self.old.count) }
        ensures more { OnOk result (self.new ≡ record self.old { count = self.old.count + 1 }) }
        ensures refused { IfErr result (λ e. (e ≡ Capacity) × IsOutOfPages self.new) }
    {
        let number = self.count;
        if number == PageNo::MAX {
            return Err(Fault::Capacity);
        }
        self.count = number + 1;
        Ok(number)
    }

    // Writes the last leaf as this page, and begins the next one with an entry.
    fn close_leaf<D: Disk>(
        &mut self,
        disk: &mut D,
        number: PageNo,
        next: PageNo,
        key: &[u8],
        rid: Rid,
    ) -> Result<(), Fault>
        requires working { D.failed disk.old ≡ false }
        ensures closed { OnOk result (self.new ≡ record self.old { leaf = (next, record { lsn = self.old.leaf.1.lsn; body = leaf_body number 0 ((key.now, rid) ∷ []) }) }) }
        ensures written { OnOk result (D.tells → WritesPageAt (D.seen disk.old Pages) (D.seen disk.new Pages) number (with_new_body self.old.leaf.1 (record self.old.leaf.1.body { next = next }))) }
        ensures run { WritesPages D.Disk disk.old disk.new }
        ensures sound { self.old.leaf.1.body.kind ≡ Leaf → 1 ≤ length key.now → length key.now ≤ 255 → result ≡ Err NotAStore → ⊥ }
        ensures outcome { AnswersOr (λ e. e ≡ NotAStore) (D.failed disk.new) result }
    {
        self.leaf.link(next)?;
        write_page(disk, number, self.leaf.page())?;
        self.leaf.begin_leaf(next, number, key, rid)?;
        Ok(())
    }

    // A root over all that was there and what comes.
    fn put_root(&mut self, level: u8, left: PageNo, key: &[u8], right: PageNo) -> Result<(), Fault>
        requires { 1 ≤ level }
        ensures root { OnOk result (self.new ≡ record self.old { above = self.new.above }) }
        ensures above { OnOk result (self.new.above.items ≡ self.old.above.items ++ (1, record { lsn = 0; body = inner_page level left ((key.now, right) ∷ []) }) ∷ []) }
        ensures refused { IfErr result (λ e. (e ≡ Memory) ⊎ (e ≡ NotAStore)) }
        ensures sound { 1 ≤ length key.now → length key.now ≤ 255 → result ≡ Err NotAStore → ⊥ }
    {
        let root = Held::root(self.alloc, level, left, key, right)?;
        self.above.push(root).map_err(|_| Fault::Memory)?;
        Ok(())
    }

    // Puts a separator into the held page at a place.
    fn put_child(&mut self, i: usize, key: &[u8], child: PageNo) -> Result<(), Fault>
        requires { i < length self.old.above.items }
        ensures put { OnOk result (self.new ≡ record self.old { above = self.new.above }) }
        ensures above { OnOk result (self.new.above.items ≡ set self.old.above.items i (with_last (held_page self.old.above.items i) (key.now, child))) }
        ensures refused { IfErr result (λ e. e ≡ NotAStore) }
        ensures sound { TakesLast Inner (held_page self.old.above.items i).1 (key.now, child) → result ≡ Err NotAStore → ⊥ }
    {
        self.above[i].put_child(key, child)?;
        Ok(())
    }

    // The held page at a place becomes the inner page of a number, with one child.
    fn begin_inner(&mut self, i: usize, number: PageNo, level: u8, child: PageNo)
        requires place { i < length self.old.above.items }
        requires level { 1 ≤ level }
        ensures begun { self.new ≡ record self.old { above = self.new.above } }
        ensures above { self.new.above.items ≡ set self.old.above.items i (number, record { lsn = (held_page self.old.above.items i).1.lsn; body = inner_page level child [] }) }
    {
        self.above[i].begin_inner(number, level, child);
    }

    // Writes the last leaf.
    fn write_leaf<D: Disk>(&self, disk: &mut D) -> Result<(), Fault>
        requires working { D.failed disk.old ≡ false }
        ensures written { OnOk result (D.tells → WritesPageAt (D.seen disk.old Pages) (D.seen disk.new Pages) self.now.leaf.0 self.now.leaf.1) }
        ensures run { WritesPages D.Disk disk.old disk.new }
        ensures answers { Answers (D.failed disk.new) result }
    {
        write_page(disk, self.leaf.number(), self.leaf.page())
    }

    // Writes the held page at a place as this page.
    fn write_above<D: Disk>(&self, disk: &mut D, i: usize, number: PageNo) -> Result<(), Fault>
        requires place { i < length self.now.above.items }
        requires working { D.failed disk.old ≡ false }
        ensures written { OnOk result (D.tells → WritesPageAt (D.seen disk.old Pages) (D.seen disk.new Pages) number (held_page self.now.above.items i).1) }
        ensures run { WritesPages D.Disk disk.old disk.new }
        ensures answers { Answers (D.failed disk.new) result }
    {
        write_page(disk, number, self.above[i].page())
    }

    // The number of the held page at a place.
    fn number_above(&self, i: usize) -> PageNo
        requires { i < length self.now.above.items }
        ensures { result ≡ (held_page self.now.above.items i).0 }
    {
        self.above[i].number()
    }

    // Closes the last leaf, which is the root: page 1 stands over it and the next one.
    fn raise_leaf<D: Disk>(&mut self, disk: &mut D, key: &[u8], rid: Rid) -> Result<(), Fault>
        requires working { D.failed disk.old ≡ false }
        ensures taken { (es : List Entry) → HasTaken D.Disk self.old disk.old es → self.old.above.items ≡ [] → IsAboveAll key.now es → LacksRoom true self.old.leaf.1.body.entries
            → OnOk result (HasTaken D.Disk self.new disk.new (es ++ (key.now, rid) ∷ [])) }
        ensures run { WritesPages D.Disk disk.old disk.new }
        ensures outcome { AnswersOr (LoaderRefuses self.new ((es : List Entry) → HasTaken D.Disk self.old disk.old es → 1 ≤ length key.now → length key.now ≤ 255 → ⊥)) (D.failed disk.new) result }
    {
        let left = self.new_page()?;
        let right = self.new_page()?;
        self.close_leaf(disk, left, right, key, rid)?;
        self.put_root(1, left, key, right)?;
        Ok(())
    }

    // Closes the root, an inner page: page 1 stands over it and the next one, which has this child.
    fn raise_inner<D: Disk>(
        &mut self,
        disk: &mut D,
        i: usize,
        level: u8,
        key: &[u8],
        child: PageNo,
    ) -> Result<(), Fault>
        requires working { D.failed disk.old ≡ false }
        requires place { i + 1 ≡ length self.old.above.items }
        requires level { level ≡ i + 1 }
        requires low { level < 255 }
        ensures taken { (es : List Entry) → HasPending D.Disk self.old disk.old es i key.now child → OnOk result (HasTaken D.Disk self.new disk.new es) }
        ensures run { WritesPages D.Disk disk.old disk.new }
        ensures outcome { AnswersOr (LoaderRefuses self.new (1 ≤ length key.now → length key.now ≤ 255 → ⊥)) (D.failed disk.new) result }
    {
        let left = self.new_page()?;
        let right = self.new_page()?;
        self.write_above(disk, i, left)?;
        self.begin_inner(i, right, level, child);
        self.put_root(level + 1, left, key, right)?;
        Ok(())
    }

    // Closes an inner page under another: the next one there begins with this child. It answers the next one, which has to be put into the page above.
    fn close_inner<D: Disk>(
        &mut self,
        disk: &mut D,
        i: usize,
        level: u8,
        child: PageNo,
    ) -> Result<PageNo, Fault>
        requires working { D.failed disk.old ≡ false }
        requires place { i + 1 < length self.old.above.items }
        requires level { level ≡ i + 1 }
        ensures pending { (es : List Entry) (key : Key) → HasPending D.Disk self.old disk.old es i key child → IfOk result (λ next. HasPending D.Disk self.new disk.new es (i + 1) key next) }
        ensures same { OnOk result (length self.new.above.items ≡ length self.old.above.items) }
        ensures run { WritesPages D.Disk disk.old disk.new }
        ensures outcome { AnswersOr (λ e. (e ≡ Capacity) × IsOutOfPages self.new) (D.failed disk.new) result }
    {
        let next = self.new_page()?;
        let number = self.number_above(i);
        self.write_above(disk, i, number)?;
        self.begin_inner(i, next, level, child);
        Ok(next)
    }

    // Whether the held page at a place has room for a separator of any size.
    fn is_open(&self, i: usize) -> bool
        requires { i < length self.now.above.items }
        ensures { IsTrue result ↔ FitsLongest (held_page self.now.above.items i).1 }
    {
        self.above[i].is_open()
    }

    // Puts a separator, with its child, into the pages above the leaves, from the lowest on: one without room is closed, and it goes on up.
    fn put_above<D: Disk>(&mut self, disk: &mut D, key: &[u8], child: PageNo) -> Result<(), Fault>
        requires working { D.failed disk.old ≡ false }
        ensures taken { (es : List Entry) → HasPending D.Disk self.old disk.old es 0 key.now child → OnOk result (HasTaken D.Disk self.new disk.new es) }
        ensures run { WritesPages D.Disk disk.old disk.new }
        ensures outcome { AnswersOr (LoaderRefuses self.new ((es : List Entry) → HasPending D.Disk self.old disk.old es 0 key.now child → 1 ≤ length key.now → length key.now ≤ 255 → ⊥)) (D.failed disk.new) result }
    {
        let mut child = child;
        let len = self.above.len();
        for i in 0..len {
            let open = self.is_open(i);
            if open {
                self.put_child(i, key, child)?;
                return Ok(());
            }
            if i >= 254 {
                return Err(Fault::Capacity);
            }
            let level = i as u8 + 1;
            if i + 1 == len {
                self.raise_inner(disk, i, level, key, child)?;
                return Ok(());
            }
            let next = self.close_inner(disk, i, level, child)?;
            child = next;
        }
        Ok(())
    }

    // Puts an entry into the last leaf, or begins a new one with it.
    fn take<D: Disk>(&mut self, disk: &mut D, key: &[u8], rid: Rid) -> Result<(), Fault>
        requires working { D.failed disk.old ≡ false }
        ensures taken { (es : List Entry) → HasTaken D.Disk self.old disk.old es → IsAboveAll key.now es → OnOk result (HasTaken D.Disk self.new disk.new (es ++ (key.now, rid) ∷ [])) }
        ensures run { WritesPages D.Disk disk.old disk.new }
        ensures outcome { AnswersOr (LoaderRefuses self.new ((es : List Entry) → HasTaken D.Disk self.old disk.old es → IsAboveAll key.now es → 1 ≤ length key.now → length key.now ≤ 255 → ⊥)) (D.failed disk.new) result }
    {
        let open = self.leaf.is_open();
        if open {
            self.leaf.put_entry(key, rid)?;
            return Ok(());
        }
        let levels = self.above.len();
        if levels == 0 {
            self.raise_leaf(disk, key, rid)?;
            return Ok(());
        }
        let next = self.new_page()?;
        let number = self.leaf.number();
        self.close_leaf(disk, number, next, key, rid)?;
        self.put_above(disk, key, next)?;
        Ok(())
    }

    /// Takes an entry, and answers whether it did: it does not where the key is not above all that were taken, and the load goes on as if it had not been asked.
    ///
    /// Refused `KeyLength` where the key has no byte or more than 255, with nothing changed; `Capacity`, `Memory`, `Device`, after which the load is of no
    /// use, and its files are no store. A stop at any moment since the load began leaves no store (`stops`).
    pub fn put<D: Disk>(&mut self, disk: &mut D, key: &[u8], rid: Rid) -> Result<bool, Fault>
        requires working { D.failed disk.old ≡ false }
        ensures taken { (from : D) (es : List Entry) → IsLoading D.Disk from self.old disk.old es → result ≡ Ok true → IsAboveAll key.now es × IsLoading D.Disk from self.new disk.new (es ++ (key.now, rid) ∷ []) }
        ensures falls { (from : D) (es : List Entry) → IsLoading D.Disk from self.old disk.old es → result ≡ Ok false → IsAboveAll key.now es → ⊥ }
        ensures same { result ≡ Ok false → (self.new ≡ self.old) × (disk.new ≡ disk.old) }
        ensures untouched { result ≡ Err KeyLength → (self.new ≡ self.old) × (disk.new ≡ disk.old) }
        ensures key_length { result ≡ Err KeyLength ↔ ((length key.now < 1) ⊎ (255 < length key.now)) }
        ensures stops { (from : D) (es : List Entry) → IsLoading D.Disk from self.old disk.old es → LeavesOnly D.Disk from disk.new AreHalf }
        ensures outcome { AnswersOr (λ e. (e ≡ KeyLength) ⊎ LoaderRefuses self.new ((from : D) (es : List Entry) → IsLoading D.Disk from self.old disk.old es → ⊥) e) (D.failed disk.new) result }
    {
        let keyed = is_key(key);
        if !keyed {
            return Err(Fault::KeyLength);
        }
        let above = self.leaf.ends_below(key);
        if !above {
            return Ok(false);
        }
        self.take(disk, key, rid)?;
        Ok(true)
    }

    /// How many pages the load has made so far, page 0 among them.
    pub fn pages(&self) -> PageNo
        ensures { result ≡ self.now.count }
    {
        self.count
    }

    /// Begins a load into files without bytes; none where a file has one. No device call.
    ///
    /// Refused `Memory`, `Device`.
    pub fn begin<D: Disk>(alloc: Global, disk: &mut D) -> Result<Option<Loader>, Fault>
        requires working { D.failed disk.old ≡ false }
        ensures begun { IfOk result (λ found. IfSome found (λ l. (D.tells → AreEmpty (D.seen disk.new)) × (IsSynced D.Disk disk.old → IsLoading D.Disk disk.old l disk.new []))) }
        ensures none { result ≡ Ok None → D.tells → ¬ (AreEmpty (D.seen disk.new)) }
        ensures reads { Reads D.Disk disk.old disk.new }
        ensures outcome { AnswersOr (λ e. e ≡ Memory) (D.failed disk.new) result }
    {
        let empty = are_empty(disk)?;
        if !empty {
            return Ok(None);
        }
        let leaf = Held::leaf(alloc)?;
        Ok(Some(Loader {
            alloc,
            leaf,
            above: Vec::new(alloc),
            count: 2,
        }))
    }

    /// Ends the load: the pages that are held are written, page 0 last; the file is synced; and then a log is made, with no record. The files are
    /// those of a load of just the entries that were taken (`loaded`), all of them on the disk.
    ///
    /// Refused `Device`: the files are no store then, or the one that was loaded. So they are after a stop at any moment since the load began (`stops`).
    pub fn finish<D: Disk>(self, disk: &mut D) -> Result<(), Fault>
        requires working { D.failed disk.old ≡ false }
        ensures loaded { (from : D) (es : List Entry) → IsLoading D.Disk from self disk.old es → OnOk result (D.tells → AreOfLoad es (D.seen disk.new)) }
        ensures synced { (from : D) (es : List Entry) → IsLoading D.Disk from self disk.old es → OnOk result (IsSynced D.Disk disk.new) }
        ensures stops { (from : D) (es : List Entry) → IsLoading D.Disk from self disk.old es → LeavesOnly D.Disk from disk.new (AreLeft es) }
        ensures answers { Answers (D.failed disk.new) result }
    {
        self.write_pages(disk)?;
        sync(disk, FileId::Pages)?;
        let header = Header {
            generation: 1,
            base: 48,
            next: 1,
        };
        make_log(disk, FileId::Log, &header)?;
        Ok(())
    }

    // Writes the pages that are held, page 0 last.
    fn write_pages<D: Disk>(&self, disk: &mut D) -> Result<(), Fault>
        requires working { D.failed disk.old ≡ false }
        ensures written { (es : List Entry) → HasTaken D.Disk self.now disk.old es → OnOk result (D.tells → ArePages es (D.seen disk.new Pages)) }
        ensures run { WritesPages D.Disk disk.old disk.new }
        ensures answers { Answers (D.failed disk.new) result }
    {
        self.write_held(disk)?;
        self.write_meta(disk)?;
        Ok(())
    }

    // Writes the pages that are held, from the last leaf up to the root.
    fn write_held<D: Disk>(&self, disk: &mut D) -> Result<(), Fault>
        requires working { D.failed disk.old ≡ false }
        ensures written { (es : List Entry) (t : HasTaken D.Disk self.now disk.old es)
            → OnOk result (D.tells → HasWritten t.pages t.at (suc (length self.now.above.items)) (length self.now.above.items) self.now.count (D.seen disk.new Pages)) }
        ensures run { WritesPages D.Disk disk.old disk.new }
        ensures answers { Answers (D.failed disk.new) result }
    {
        self.write_leaf(disk)?;
        self.write_levels(disk)?;
        Ok(())
    }

    // Writes the inner pages that are held, once the last leaf was written.
    fn write_levels<D: Disk>(&self, disk: &mut D) -> Result<(), Fault>
        requires working { D.failed disk.old ≡ false }
        ensures written { (file : List ℕ) (es : List Entry) (t : HasTakenAll self.now.leaf self.now.above.items self.now.count D.tells file es)
            → (D.tells → HasWritten t.pages t.at 1 (length self.now.above.items) self.now.count (D.seen disk.old Pages))
            → OnOk result (D.tells → HasWritten t.pages t.at (suc (length self.now.above.items)) (length self.now.above.items) self.now.count (D.seen disk.new Pages)) }
        ensures run { WritesPages D.Disk disk.old disk.new }
        ensures answers { Answers (D.failed disk.new) result }
    {
        let len = self.above.len();
        for i in 0..len {
            let number = self.number_above(i);
            self.write_above(disk, i, number)?;
        }
        Ok(())
    }

    // Writes the meta page.
    fn write_meta<D: Disk>(&self, disk: &mut D) -> Result<(), Fault>
        requires working { D.failed disk.old ≡ false }
        ensures written { OnOk result (D.tells → WritesPageAt (D.seen disk.old Pages) (D.seen disk.new Pages) 0 (record { lsn = 0; body = empty_body Meta 0 0 0 self.now.count })) }
        ensures run { WritesPages D.Disk disk.old disk.new }
        ensures answers { Answers (D.failed disk.new) result }
    {
        let mut meta = Page::initial(0);
        meta.set_leftmost(self.count);
        write_page(disk, 0, &meta)
    }
}

// Bytes that may be a key.
fn is_key(bytes: &[u8]) -> bool
    ensures { IsTrue result ↔ ((1 ≤ length bytes.now) × (length bytes.now ≤ 255)) }
{
    !bytes.is_empty() && bytes.len() <= LONGEST_KEY
}

// A file has no byte.
fn is_empty<D: Disk>(disk: &mut D, file: FileId) -> Result<bool, Fault>
    requires { D.failed disk.old ≡ false }
    ensures empty { result ≡ Ok true → D.tells → D.seen disk.new file ≡ [] }
    ensures some { result ≡ Ok false → D.tells → D.seen disk.new file ≢ [] }
    ensures reads { Reads D.Disk disk.old disk.new }
    ensures answers { Answers (D.failed disk.new) result }
{
    let len = disk.len(file)?;
    if len == 0 {
        return Ok(true);
    }
    Ok(false)
}

// No file has a byte.
fn are_empty<D: Disk>(disk: &mut D) -> Result<bool, Fault>
    requires { D.failed disk.old ≡ false }
    ensures empty { result ≡ Ok true → D.tells → AreEmpty (D.seen disk.new) }
    ensures some { result ≡ Ok false → D.tells → ¬ (AreEmpty (D.seen disk.new)) }
    ensures reads { Reads D.Disk disk.old disk.new }
    ensures answers { Answers (D.failed disk.new) result }
{
    let log = is_empty(disk, FileId::Log)?;
    if !log {
        return Ok(false);
    }
    let pages = is_empty(disk, FileId::Pages)?;
    if !pages {
        return Ok(false);
    }
    let other = is_empty(disk, FileId::Log2)?;
    Ok(other)
}
