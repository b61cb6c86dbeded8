//! Isolation, as a law over every run of the machine.

ghost use Rattle.std.specs.Prelude.{ℕ};
ghost use Rattle.im_base_types.specs.Maps.{IndexMap};
ghost use Rattle.im_theory_machine.specs.Isolation.{Isolates, GrantedChangesAreFree, FreeReadsAreCommitted};
ghost use Rattle.im_theory_machine.specs.Kept.{KeptLocksStay, PendingInsertsAreGranted};
ghost use Rattle.im_theory_machine.specs.Serving.{TableServes};
ghost use Rattle.im_theory_machine.specs.Changing.{ChangesServe};

/// Whatever steps of however many transactions come in whatever order, each transaction is as good as alone. It
/// does nothing: its contract is the law.
pub fn law_isolation()
    ensures { (base : IndexMap) (next : ℕ) → Isolates base next }
{}

/// The verdicts of a lock table that holds what a view of the machine says are the machine's answers, and the
/// table then holds what the next view says; so do its releases. It does nothing: its contract is the law.
pub fn table_serves()
    ensures { TableServes }
{}

/// The same beside an insert that ends in a later step: the table keeps its lock on the next name until then, and it falls back when
/// the insert ends. It does nothing: its contract is the law.
pub fn changes_serve()
    ensures { ChangesServe }
{}

/// Whoever is granted the locks of a change finds its key in no other transaction's net: so what the log asks of a
/// key record holds of each change that the lock table grants. It does nothing: its contract is the law.
pub fn granted_changes_are_free()
    ensures { GrantedChangesAreFree }
{}

/// The lock on the next name that an insert keeps until it ends is enough: whatever others do meanwhile, the insert is granted in
/// the end as if it were asked then. It does nothing: its contract is the law.
pub fn kept_locks_stay()
    ensures { KeptLocksStay }
{}

/// Between any two steps of a run, an insert that goes on finds its key absent and what it asks free. It does nothing: its
/// contract is the law.
pub fn pending_inserts_are_granted()
    ensures { PendingInsertsAreGranted }
{}

/// What a reader who holds nothing finds free to be read is as it was committed. It does nothing: its contract is the law.
pub fn free_reads_are_committed()
    ensures { FreeReadsAreCommitted }
{}
