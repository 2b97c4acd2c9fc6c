//! Who says which endings are looked for.
ghost use Rattle.std.specs.Prelude.{◌≡◌, ◌↔◌, true, false, IfOk};

use std::alloc::{AllocError, Global};

/// Looks for some endings: a search ends at the first of them that it meets.
pub trait Seeks<E> {
    /// Which these are.
    ghost sought: { Self → E → Type 0 };

    /// Whether it looks for any. Where it doesn't, no ending is asked about.
    fn seeks_any(&self) -> bool
        ensures { result ≡ false → (e : E) → sought self.now e → ⊥ };

    /// Whether this is one of them.
    ///
    /// # Errors
    /// Where memory is refused.
    fn is_sought(&self, alloc: Global, ending: &E) -> Result<bool, AllocError>
        ensures { IfOk result (λ is. (is ≡ true) ↔ sought self.now ending.now) };
}

/// It looks for none.
impl<E> Seeks<E> for () {
    ghost sought = { λ _ _. ⊥ };

    fn seeks_any(&self) -> bool {
        false
    }

    fn is_sought(&self, _alloc: Global, _ending: &E) -> Result<bool, AllocError> {
        Ok(false)
    }
}
