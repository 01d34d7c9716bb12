//! How the table of labels is hashed.

use sha2::{Digest, Sha256};
use std::hash::{BuildHasher, DefaultHasher, Hasher};

/// Makes hashers that begin with the digest of a whole text. So nobody can choose labels that collide in the
/// table: other labels make another text, and its hashes differ.
#[derive(Clone, Copy)]
pub struct HashedByText {
    begun: DefaultHasher,
}

impl HashedByText {
    /// What hashes the labels of a text.
    pub fn new(text: &[u8]) -> HashedByText {
        let digest = Sha256::digest(text);
        let mut begun = DefaultHasher::new();
        begun.write(&digest);
        HashedByText { begun }
    }
}

impl BuildHasher for HashedByText {
    type Hasher = DefaultHasher;

    ghost build_hasher = { λ builder. builder.begun };

    fn build_hasher(&self) -> DefaultHasher {
        self.begun
    }
}
