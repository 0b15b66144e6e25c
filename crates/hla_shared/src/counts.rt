//! How many executions there were and are.

/// How many executions were ever created, and how many there are.
#[derive(Clone, Copy)]
pub(crate) struct Counts {
    pub creates: u32,
    pub present: u32,
}
