// Hashers that nobody can aim at.
use sha2::{Digest, Sha256};
use std::hash::{BuildHasher, DefaultHasher, Hasher};

/// Digests the texts that a hash table is to tell apart, for a `KeyedState`. Nothing is proved of
/// it: only how evenly a table fills depends on it.
#[derive(Drop)]
pub struct TextsDigest {
    digest: Sha256,
}

impl TextsDigest {
    /// The digest of no text.
    pub fn new() -> TextsDigest {
        TextsDigest {
            digest: Sha256::new(),
        }
    }

    /// One text more, behind its length, so that lists of texts with one concatenation differ.
    pub fn add(&mut self, text: &str) {
        let length = text.len() as u64;
        self.digest.update(&length.to_le_bytes());
        self.digest.update(text.as_bytes());
    }

    /// The state whose key is the digest.
    pub fn into_state(self) -> KeyedState {
        let TextsDigest { digest } = self;
        let mut keyed = DefaultHasher::new();
        keyed.write(&digest.finalize());
        KeyedState { keyed }
    }
}

/// Builds hashers for texts that come from the inputs. Each has hashed the SHA-256 of all those
/// texts before its first byte, so whoever chooses texts that would collide changes by it how they
/// are hashed. The same texts in the same order hash alike in each run.
#[derive(Clone, Copy)]
pub struct KeyedState {
    keyed: DefaultHasher,
}

impl BuildHasher for KeyedState {
    type Hasher = DefaultHasher;

    ghost build_hasher = { λ state. state.keyed };

    fn build_hasher(&self) -> DefaultHasher {
        self.keyed
    }
}
