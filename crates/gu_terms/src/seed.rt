//! Seeds for hash tables.

ghost use Rattle.std.specs.Prelude.{◌≡◌, fold};
ghost use Rattle.std.specs.Hash as fed;
ghost use Rattle.std.specs.Hash.FoldHasher as folding;

use std::hash::{BuildHasher, FoldHasher, Hasher};

/// A table's initial hasher, so that nobody without the seed can choose ids that collide. It doesn't affect what a table holds.
#[derive(Clone, Copy)]
pub struct Seed {
    begun: FoldHasher,
}

impl Seed {
    /// Returns the seed with this number: a hasher that has taken in its eight bytes.
    pub fn new(number: u64) -> Self
        ensures { result.begun ≡ fold folding.write folding.initial (fed.u64 number) }
    {
        let mut begun = FoldHasher::default();
        begun.write_u64(number);
        Seed { begun }
    }
}

impl BuildHasher for Seed {
    type Hasher = FoldHasher;

    ghost build_hasher = { λ seed. seed.begun };

    fn build_hasher(&self) -> FoldHasher {
        self.begun
    }
}
