//! A hasher with a secret.

use std::hash::{BuildHasher, DefaultHasher, Hasher};

/// SipHash behind two secret words, so that whoever chooses what is hashed can't choose what collides. It tells
/// nothing of the words, and no answer depends on them.
#[derive(Clone, Copy)]
pub struct Secret {
    begun: DefaultHasher,
}

impl Secret {
    /// The words are hashed here once.
    pub fn new(first: u64, second: u64) -> Secret {
        let mut begun = DefaultHasher::new();
        begun.write_u64(first);
        begun.write_u64(second);
        Secret { begun }
    }
}

impl BuildHasher for Secret {
    type Hasher = DefaultHasher;

    ghost build_hasher = { λ secret. secret.begun };

    fn build_hasher(&self) -> DefaultHasher {
        self.begun
    }
}
