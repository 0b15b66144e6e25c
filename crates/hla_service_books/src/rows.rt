//! What federates know of one another's times.

use crate::columns::Column;
use crate::texts::FOREVER;

/// What a federate knows of a peer: its epoch, and a bound that it sends nothing below.
#[derive(Clone, Copy)]
pub struct Row {
    federate: u32,
    peer: u32,
    epoch: u32,
    bound: u64,
}

/// What all federates know.
pub type Rows = Column<Row>;

impl Column<Row> {
    /// The least of what a federate knows of its peers; with none it is `FOREVER`.
    pub fn bound(&self, federate: u32) -> u64 {
        let mut least = FOREVER;
        for row in self.entries.as_slice() {
            if row.federate == federate {
                least = least.min(row.bound);
            }
        }
        least
    }

    /// A federate learns at once that a peer begins an epoch, and from where on that peer may send.
    pub fn hear_entry(&mut self, federate: u32, peer: u32, epoch: u32, entry: u64) {
        if !self.change(federate, peer, epoch, entry) {
            self.add(Row {
                federate,
                peer,
                epoch,
                bound: entry,
            });
        }
    }

    /// A peer that is known begins an epoch; answers whether it is known.
    fn change(&mut self, federate: u32, peer: u32, epoch: u32, entry: u64) -> bool {
        let mut is_known = false;
        for row in self.entries.iter_mut() {
            if row.federate == federate && row.peer == peer {
                row.epoch = epoch;
                row.bound = row.bound.min(entry);
                is_known = true;
            }
        }
        is_known
    }

    /// A null message comes, and says whether it was of the epoch that is known.
    pub fn hear_null(&mut self, federate: u32, peer: u32, epoch: u32, bound: u64) -> bool {
        let mut is_known = false;
        for row in self.entries.iter_mut() {
            if row.federate == federate && row.peer == peer && row.epoch == epoch {
                row.bound = row.bound.max(bound);
                is_known = true;
            }
        }
        is_known
    }
}
