//! What a benchmark counts.

/// How much was done. What a benchmark doesn't count is 0.
#[derive(Clone, Copy, Default)]
pub struct Counts {
    /// Steps of a federation.
    pub steps: u64,
    /// Messages that were sent.
    pub sent: u64,
    /// Messages that were given to their receivers.
    pub received: u64,
    /// Time advance grants.
    pub grants: u64,
    /// Events that were put into a queue.
    pub queued: u64,
    /// Bytes of FED text that were read.
    pub bytes: u64,
    /// Records that were judged to be a run.
    pub judged: u64,
    /// Reads of a monitor, as many as there is time for.
    pub reads: u64,
}

impl Counts {
    /// Each count under its name, and whether it is the same at each run.
    pub fn named(&self) -> [(&'static str, u64, bool); 8] {
        [
            ("steps", self.steps, true),
            ("sent", self.sent, true),
            ("received", self.received, true),
            ("grants", self.grants, true),
            ("queued", self.queued, true),
            ("bytes", self.bytes, true),
            ("judged", self.judged, true),
            ("reads", self.reads, false),
        ]
    }
}
