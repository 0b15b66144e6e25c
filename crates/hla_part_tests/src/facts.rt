//! What must be so of a thing, each by its name.

use std::process::Abort;

/// Says that each of these facts is so; they stand in the order of their names.
pub fn check(rt: &impl Abort, names: &[&str], facts: &[bool]) {
    assert!(rt; facts.len() == names.len());
    for (name, is_so) in names.iter().zip(facts) {
        assert!(rt; *is_so, "{name}");
    }
}
