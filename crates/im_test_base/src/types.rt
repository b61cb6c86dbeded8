//! The texts of faults.

use im_base_types::Fault;
use std::test::Fail;

#[test]
fn a_fault_has_a_text(rt: HostRuntime) -> Result<(), Fail> {
    let text = format!(in rt.alloc(); "{}", Fault::NotAStore)?;
    assert!(rt; text.as_str() == "the files hold no store");
    Ok(())
}
