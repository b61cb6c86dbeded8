//! Steps that are made, and what is seen of their replies.

use im_base_steps::{Reply, Step};
use im_base_types::TxnId;
use im_theory_store_trait::Store;

/// Makes a step, whatever it answers.
pub fn make<E: Store>(store: &mut E, step: Step) {
    let _reply = store.step(&step);
}

/// Begins a transaction; its number, where it was begun.
pub fn begun<E: Store>(store: &mut E) -> Option<TxnId> {
    match store.step(&Step::Begin) {
        Reply::Started(number) => Some(number),
        _ => None,
    }
}
