//! What is done to some of the examples that a user would not do on purpose, and what is printed of it.

use crate::Files;
use crate::cutting::cuts;
use crate::failing::troubles;
use crate::filling::fillings;
use crate::stopping::stops;
use hla_trials::Listed;
use std::alloc::Global;
use std::io;
use std::rt::Runtime;
use std::sync::Wait;

/// Those that stop behind each of their lines.
const STOPPED: [&str; 15] = [
    "ancestor",
    "stale_bound",
    "boundary",
    "creep",
    "creep_available",
    "newcomer",
    "epoch",
    "retraction",
    "floor",
    "flush",
    "asynchronous_delivery",
    "largest_time",
    "two_orders_and_a_tie",
    "refusals",
    "late_subscriber",
];

/// Those whose history is full before their end. Each of their lines makes a record.
const FILLED: [&str; 2] = ["stale_bound", "retraction"];

/// That whose ambassadors give trouble. Each of its lines makes a record, and each of its ticks gives a callback.
const TROUBLED: [&str; 1] = ["two_orders_and_a_tie"];

/// Those whose text is cut off.
const CUT: [&str; 2] = ["stale_bound", "two_orders_and_a_tie"];

/// What is done to an example.
#[derive(Clone, Copy)]
enum Harm {
    /// It stops behind each of its lines.
    Stops,
    /// Its history is full before its end.
    Fillings,
    /// Its ambassadors give trouble.
    Troubles,
    /// Its text is cut off.
    Cuts,
}

impl Harm {
    /// What is printed of it.
    fn name(self) -> &'static str {
        match self {
            Harm::Stops => "stops",
            Harm::Fillings => "full histories",
            Harm::Troubles => "troubled callbacks",
            Harm::Cuts => "cuts",
        }
    }

    /// How many tries there are of an example, where all come out as they should.
    fn count<R: Wait>(self, rt: &R, alloc: Global, listed: &Listed<'_>) -> Option<usize> {
        match self {
            Harm::Stops => stops(rt, alloc, listed),
            Harm::Fillings => fillings(rt, alloc, listed),
            Harm::Troubles => troubles(rt, alloc, listed),
            Harm::Cuts => cuts(alloc, listed),
        }
    }

    /// Does it to an example, and says how many tries there were, or that one came out otherwise.
    fn harm<R: Runtime + AllocGlobal + Wait>(self, rt: &R, name: &str) -> io::Result<bool> {
        let files = Files::read(rt, name)?;
        let listed = files.listed(rt.alloc())?;
        let harm = self.name();
        match self.count(rt, rt.alloc(), &listed) {
            Some(count) => println!(rt; "{name} {harm} ok {count}")?,
            None => {
                println!(rt; "{name} {harm} differs")?;
                return Ok(false);
            }
        }
        Ok(true)
    }

    /// Does it to some of the examples. Whether all came out as they should.
    fn harm_each<R: Runtime + AllocGlobal + Wait>(
        self,
        rt: &R,
        names: &[&str],
    ) -> io::Result<bool> {
        let mut are_all = true;
        for name in names.iter() {
            if !self.harm(rt, name)? {
                are_all = false;
            }
        }
        Ok(are_all)
    }
}

/// Does each harm to its examples. Whether all came out as they should.
pub fn harm_some<R: Runtime + AllocGlobal + Wait>(rt: &R) -> io::Result<bool> {
    let are_stopped = Harm::Stops.harm_each(rt, &STOPPED)?;
    let are_filled = Harm::Fillings.harm_each(rt, &FILLED)?;
    let are_troubled = Harm::Troubles.harm_each(rt, &TROUBLED)?;
    let are_cut = Harm::Cuts.harm_each(rt, &CUT)?;
    Ok(are_stopped && are_filled && are_troubled && are_cut)
}
