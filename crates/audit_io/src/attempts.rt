//! The history of save attempts, for proofs only.

ghost use Rattle.std.specs.Prelude.{◌≡◌, List, [], ◌∷◌, ◌++◌};
ghost use Rattle.std.specs.Borrow.{ftrue};
ghost use Rattle.audit_model.specs.Attempts.{Try, try_of};

use std::marker::Model;

/// The save attempts so far, in order. The list exists in proofs only: it takes no memory, and its
/// methods do nothing at run time.
#[derive(Drop)]
pub(crate) struct Attempts {
    pub(crate) ghost items: { List Try },
}

impl Model for Attempts {
    ghost also_owns = { λ _. ftrue };
}

// A list of attempts owns nothing, so another thread may take it.
unsafe impl Send for Attempts {}

/// A save attempt: its slot, its bytes, and whether it succeeded.
#[derive(Clone, Copy)]
pub(crate) struct Save<'a> {
    pub(crate) slot: u8,
    pub(crate) bytes: &'a [u8],
    pub(crate) succeeded: bool,
}

impl Attempts {
    pub(crate) fn new() -> Attempts
        ensures { result.items ≡ [] }
    {
        Attempts {}
    }

    /// Returns the list with one more attempt at its end.
    pub(crate) fn and(&self, _save: &Save<'_>) -> Attempts
        ensures { result.items ≡ self.now.items ++ try_of _save.now.slot _save.now.bytes.now _save.now.succeeded ∷ [] }
    {
        Attempts {}
    }
}
