//! What holds of whatever a stop leaves, and of lists of lives.

ghost use Rattle.std.specs.Prelude.{ℕ, List, []};
ghost use Rattle.im_base_types.specs.Changes.{Effect};
ghost use Rattle.im_base_disk.specs.Disk.{Files, both};
ghost use Rattle.im_base_two_logs.specs.Runs.{IsNameless};
ghost use Rattle.im_engine.specs.FirstFormat.{StandsForFirst};
ghost use Rattle.im_engine.specs.Stands.{StandsFor};
ghost use Rattle.im_engine.specs.Counted.{FilesAreCounted, LivesAreCounted, OpeningsAreCounted, StepsAreCounted};
ghost use Rattle.im_engine.specs.Promise.{Life, Promise, PromiseFrom};
ghost use Rattle.im_engine.specs.Lived.{AreLives, AreKept};

use im_base_disk::Disk;

/// In the log of whatever files are a store's, each insert and each delete is compensated at most once: where its transaction has a Commit,
/// not at all if it is part of what that committed, and once if it is not; once where it has an End. So it is in what a stop leaves, between
/// two steps, within one, or within an opening: no change is taken back twice, and none half. A law, and nothing that runs.
pub fn changes_are_taken_back_once<D: Disk>()
    ensures files { FilesAreCounted }
    ensures lives { LivesAreCounted D.Disk }
    ensures steps { StepsAreCounted D.Disk }
    ensures openings { OpeningsAreCounted D.Disk }
{}

/// The promise. From new files, whatever lives are run, and wherever each stops, there is one list of effects, which only grows. What an
/// opening hands out is what the list makes of an empty index. Each life adds to its end a prefix of the commits that it had asked when it
/// stopped, in their order, each whole, with every acknowledged one in it. `live` and `look` say of each life what it asks (`IsRunOn`). So it
/// is from whatever files stand for some effects (`from`), those that lives of the first format left among them (`first_format`), and by
/// whichever names files have their two logs (`nameless`). A law, and nothing that runs.
pub fn the_promise()
    ensures promise { Promise StandsFor (both [] []) }
    ensures from { (before : List Effect) (files : Files) → PromiseFrom before StandsFor files }
    ensures first_format { (before : List Effect) (log pages : List ℕ) → StandsForFirst before log pages → StandsFor before (both log pages) }
    ensures nameless { (before : List Effect) → IsNameless (StandsFor before) }
{}

/// Over every list of lives, one after another, each an opening with steps of many transactions as `live` makes it, stopped at any
/// moment: files that stood for some effects stand in the end for those and, of each life, a prefix in commit order of the effects whose
/// Commit it had asked when it stopped, each whole, with every effect in it whose Commit had been acknowledged by then, and nothing else.
/// The files between two lives stand for what was kept up to there. Files that are all empty stand for no effect,
/// and those that lives of the first format left stand for what these kept. A law, and nothing that runs.
pub fn law_every_list_of_lives()
    ensures lives { (old new : Files) (lives : List (Life Files)) (before : List Effect) → StandsFor before old → AreLives old lives new → (after : List Effect) × AreKept before lives after × StandsFor after new }
    ensures first { StandsFor [] (both [] []) }
    ensures first_format { (before : List Effect) (log pages : List ℕ) → StandsForFirst before log pages → StandsFor before (both log pages) }
{}
