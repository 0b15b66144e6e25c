//! The rows of a component's peers.

ghost use Rattle.std.specs.Prelude.{◌≡◌, ◌≤◌, ◌<◌, ◌+◌, ℕ, min};
ghost use Rattle.hla_base.specs.Limits.{max_joins};
ghost use Rattle.hla_base.specs.Tables.{forever, upd, least};
ghost use Rattle.hla_lbts.specs.Peers.{peers_of, null_bound};

use crate::row::{PeerRow, least_of};
use hla_base::{FederateNo, MAX_JOINS, Ticks};
use std::marker::Model;

/// How many rows there are: one for each number of a federate, which are counted from 1, and one for 0.
const ROWS: usize = MAX_JOINS + 1;

/// What a component knows of its peers, the federates 1 to 16: the epoch of each, and its bound, below which it sends
/// nothing in time-stamp order. A federate that never regulated has epoch 0 and bound `FOREVER`, and so have the
/// component's own row and that of number 0. Contracts see lists of rows; `peers_of` reads them as tables by number.
///
/// Nothing here takes memory.
#[derive(Debug, Drop)]
pub struct Peers {
    rows: [PeerRow; ROWS],
    /// The least of the bounds, and how many rows have it.
    least: Ticks,
    holders: usize,
}

impl Model for Peers {
    ghost use Rattle.std.specs.Prelude.{List};
    ghost use Rattle.hla_lbts.specs.declared.row.PeerRow.{PeerRow};
    ghost use Rattle.hla_lbts.specs.Rows.{IsCounted};

    ghost Value = { List PeerRow };

    ghost view = { λ p. p.rows };

    ghost invariant = { λ p. IsCounted p.rows p.least p.holders };
}

impl Peers {
    /// No peer has regulated.
    pub fn new() -> Peers
        ensures { peers_of result ≡ record { bound = λ _. forever; known_epoch = λ _. 0 } }
    {
        let rows = [PeerRow::SILENT; ROWS];
        let (least, holders) = least_of(&rows);
        Peers {
            rows,
            least,
            holders,
        }
    }

    /// A peer has this epoch and this bound from now on.
    pub fn set(&mut self, peer: FederateNo, epoch: u64, bound: Ticks)
        requires some { 0 < peer }
        requires within { peer ≤ max_joins }
        ensures { peers_of self.new ≡ record {
          bound = upd (peers_of self.old).bound peer bound;
          known_epoch = upd (peers_of self.old).known_epoch peer epoch;
        } }
    {
        let row = PeerRow { epoch, bound };
        self.put(peer, row);
    }

    /// A peer enables regulation: it is in a new epoch, and may send from `entry` on, so that its bound is the lesser of
    /// the one that it had and `entry`.
    pub fn lower(&mut self, peer: FederateNo, epoch: u64, entry: Ticks)
        requires some { 0 < peer }
        requires within { peer ≤ max_joins }
        ensures { peers_of self.new ≡ record {
          bound = upd (peers_of self.old).bound peer (min ((peers_of self.old).bound peer) entry);
          known_epoch = upd (peers_of self.old).known_epoch peer epoch;
        } }
    {
        let bound = self.row(peer).bound.min(entry);
        self.put(peer, PeerRow { epoch, bound });
    }

    /// A null message of a peer arrives: one of the peer's present epoch raises the bound to `value`, if that is above it;
    /// one of another epoch changes nothing.
    pub fn accept(&mut self, peer: FederateNo, epoch: u64, value: Ticks)
        requires some { 0 < peer }
        requires within { peer ≤ max_joins }
        ensures { peers_of self.new
            ≡ record (peers_of self.old) {
              bound = upd (peers_of self.old).bound peer
                  (null_bound ((peers_of self.old).known_epoch peer)
                  ((peers_of self.old).bound peer) epoch value);
            } }
    {
        let row = self.row(peer);
        let bound = if epoch == row.epoch {
            row.bound.max(value)
        } else {
            row.bound
        };
        self.put(
            peer,
            PeerRow {
                epoch: row.epoch,
                bound,
            },
        );
    }

    /// The lower bound on the time stamps that may still come: the least of the bounds. It is at hand, and no row is
    /// looked at.
    pub fn bound(&self) -> Ticks
        ensures joined { (n : ℕ) → ((g : ℕ) → n ≤ g → (peers_of self.now).bound g ≡ forever)
            → result ≡ least n (peers_of self.now).bound }
        ensures rows { result ≡ least (max_joins + 1) (peers_of self.now).bound }
    {
        self.least
    }

    /// What is known of a peer.
    pub fn row(&self, peer: FederateNo) -> PeerRow
        requires { peer ≤ max_joins }
        ensures { result ≡ record {
          epoch = (peers_of self.now).known_epoch peer;
          bound = (peers_of self.now).bound peer;
        } }
    {
        let row = &self.rows[peer as usize];
        *row
    }

    fn put(&mut self, peer: FederateNo, row: PeerRow)
        requires { peer ≤ max_joins }
        ensures { peers_of self.new ≡ record {
          bound = upd (peers_of self.old).bound peer row.bound;
          known_epoch = upd (peers_of self.old).known_epoch peer row.epoch;
        } }
    {
        let old = self.rows[peer as usize].bound;
        self.rows[peer as usize] = row;
        if row.bound < self.least {
            self.least = row.bound;
            self.holders = 1;
            return;
        }
        self.holders = self.holders + (row.bound == self.least) as usize
            - (old == self.least) as usize;
        if self.holders == 0 {
            (self.least, self.holders) = least_of(&self.rows);
        }
    }
}
