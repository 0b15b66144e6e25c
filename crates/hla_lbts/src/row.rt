//! What a component knows of one peer.

ghost use Rattle.std.specs.Prelude.{◌≡◌, ◌<◌, length, count_by, nat_eq};
ghost use Rattle.std.specs.List.{All};
ghost use Rattle.hla_lbts.specs.Rows.{IsLeast};

use hla_base::{FOREVER, Ticks};

/// What a component knows of one peer.
#[derive(Clone, Copy, Debug, PartialEq, Eq)]
pub struct PeerRow {
    /// How often the peer has enabled regulation.
    pub epoch: u64,
    /// The peer sends nothing below it in time-stamp order.
    pub bound: Ticks,
}

impl PeerRow {
    /// The row of a peer that never regulated.
    pub const SILENT: PeerRow = PeerRow {
        epoch: 0,
        bound: FOREVER,
    };
}

/// The least bound of the rows and how many have it.
pub fn least_of(rows: &[PeerRow]) -> (Ticks, usize)
    requires { 0 < length rows.now }
    ensures { IsLeast rows.now result.0 result.1 }
{
    let mut least = FOREVER;
    let mut holders = 0;
    for row in rows {
        if row.bound < least {
            least = row.bound;
            holders = 1;
        } else if row.bound == least {
            holders += 1;
        }
    }
    (least, holders)
}
