//! How large a workload is.

/// The numbers of a workload; what they count differs from one to the other.
#[derive(Clone, Copy)]
pub struct Sizes {
    /// How many federates there are.
    pub federates: u32,
    /// How many objects, events or attributes each has.
    pub amount: u32,
    /// How many rounds there are.
    pub rounds: u32,
    /// Each makes another input of the same kind and size.
    pub seed: u32,
}
