//! What a reader's view of one committed map reads, as a law over every run of the machine.

ghost use Rattle.im_theory_machine.specs.OverlayLaws.{StepsKeep, UndosKeep, RunsKeep, NotesKeep, Begins, BeginsFromLog, Serves, ReadsMap, ReadsKey, Chains, Joins, Merges, Many, AskedIsEnough};

/// Whatever steps are made, the overlay of a view, laid over the walk, is the map that was committed at its moment. A law, and nothing that runs.
pub fn views_are_committed()
    ensures steps { StepsKeep }
    ensures undos { UndosKeep }
    ensures runs { RunsKeep }
    ensures notes { NotesKeep }
    ensures begins { Begins }
    ensures log { BeginsFromLog }
    ensures serves { Serves }
    ensures reads { ReadsMap }
    ensures key { ReadsKey }
    ensures chains { Chains }
    ensures joins { Joins }
    ensures merges { Merges }
    ensures many { Many }
    ensures asked { AskedIsEnough }
{}
