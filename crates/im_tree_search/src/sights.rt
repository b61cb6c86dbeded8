//! Sights that are handed on.

ghost use Rattle.std.specs.Prelude.{◌≡◌, Ok, Err, IfOk, true, false};
ghost use Rattle.im_base_types.specs.declared.fault.Fault.TheVariants.{Failed};
ghost use Rattle.im_tree_search.specs.declared.sight.Sight.TheVariants.{Hidden};
ghost use Rattle.im_tree_search.specs.Sights.{IfSeen, IsSeenOf};

use crate::sight::Sight;
use im_base_types::Fault;
use im_page_writer::PageWriter;

/// What is seen where nothing is hidden.
pub(crate) fn seen<T>(sight: Result<Sight<T>, Fault>) -> Result<T, Fault>
where
    T: Drop,
    requires { IfOk sight (IfSeen (λ _. Unit) ⊥) }
    ensures { IsSeenOf sight result }
{
    match sight {
        Ok(Sight::Seen(value)) => Ok(value),
        Ok(Sight::Hidden) => Err(Fault::NotAStore),
        Err(fault) => Err(fault),
    }
}

/// What is answered where a page that is made would have to be read: nothing is read. A writer that has failed refuses that as anything else.
pub(crate) fn hidden<T>(writer: &PageWriter) -> Result<Sight<T>, Fault>
    ensures works { writer.now.failed ≡ false → result ≡ Ok Hidden }
    ensures failed { writer.now.failed ≡ true → result ≡ Err Failed }
{
    if writer.has_failed() {
        return Err(Fault::Failed);
    }
    Ok(Sight::Hidden)
}
