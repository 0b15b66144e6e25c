//! What a test tells of a record.

ghost use Rattle.std.specs.Prelude.{◌≡◌, cond};
ghost use Rattle.hla_verdicts.specs.declared.verdict.Verdict.TheVariants as verdict;

/// What a test tells of a record.
#[derive(Clone, Copy, Debug, PartialEq, Eq)]
pub enum Verdict {
    /// The machine allows it, and the state after it is kept.
    Allowed,
    /// The machine does not allow it.
    Wrong,
}

impl Verdict {
    /// By a test that is exact.
    pub fn of(is_allowed: bool) -> Verdict
        ensures { result ≡ cond is_allowed verdict.Allowed verdict.Wrong }
    {
        if is_allowed {
            Verdict::Allowed
        } else {
            Verdict::Wrong
        }
    }
}
