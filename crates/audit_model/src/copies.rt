//! Types whose clones are equal to the original.

ghost use Rattle.std.specs.Prelude.{◌≡◌};

use crate::setting::{Ask, Label};

/// A type whose clones are equal to the original. `Clone` alone does not promise this to proofs.
pub trait Same: Clone {
    ghost same: { (x y : Self) → Self.Clone.is_clone x y → y ≡ x };
}

impl Same for u64 {
    ghost same = { λ x y same. same };
}

impl Same for u32 {
    ghost same = { λ x y same. same };
}

impl Same for Ask {
    ghost same = { λ x y same. same };
}

impl Same for Label {
    ghost same = { λ x y same. same };
}
