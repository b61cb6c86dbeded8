//! A load on a store with group commit, of which each Commit has a force of its own after it: four steps a transaction.

use crate::stores::{NEVER, new_store, stop_at};
use im_base_types::StartAtOnce;
use im_front::LoadArgs;
use im_front_load::load_text;
use std::test::Fail;

#[test]
fn a_load_with_group_commit_makes_four_steps_a_transaction(rt: HostRuntime) -> Result<(), Fail> {
    let engine = new_store(&rt, rt.alloc(), true, stop_at(NEVER), NEVER)?;
    let args = LoadArgs::new(1, 3, 0).expect(&rt, "in their ranges");
    let mut text = Vec::new(rt.alloc());
    let status = load_text(
        &rt,
        rt.alloc(),
        engine,
        args.with_group(true),
        &StartAtOnce,
        &mut text,
    )?;
    assert_eq!(rt; status, 0);
    let want = b"started 3 committed 3 rolledback 0\nentries 3\ntrace 12\n";
    assert!(rt; text.as_slice() == want.as_slice());
    Ok(())
}
