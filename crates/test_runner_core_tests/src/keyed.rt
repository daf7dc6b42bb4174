// Hashers that nobody can aim at.
use std::hash::{BuildHasher, Hasher};
use test_runner_core_plan::TextsDigest;

// What a hasher keyed by these texts says of no bytes.
fn hash_by(texts: &[&str]) -> u64 {
    let mut digest = TextsDigest::new();
    for text in texts {
        digest.add(text);
    }
    digest.into_state().build_hasher().finish()
}

#[test]
fn lists_of_texts_with_one_concatenation_hash_differently(rt: HostRuntime) {
    let one = hash_by(&["ab", "c"]);
    let others = [hash_by(&["a", "bc"]), hash_by(&["abc"])];
    assert!(rt; one == hash_by(&["ab", "c"]) && !others.contains(&one));
}
