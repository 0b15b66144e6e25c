//! Scripts that are played line by line behind a lock, with ambassadors that write down what they hear.

ghost use Rattle.std.specs.Prelude.{◌≡◌, ◌≤◌};
ghost use Rattle.hla_base.specs.Limits.{ledger_parts, max_history_limit};

use hla_base::LEDGER_PARTS;
use hla_checker::check_run;
use hla_federation::Federation;
use hla_in_order::run_in_order_within;
use hla_machine::Record;
use hla_monitor::{Naming, Opened};
use hla_run::Ran;
use hla_script::Watched;
use hla_shared::Shared;
use hla_trials::{Diary, Heard, Listed, Listener, Trouble, are_of, listeners};
use std::alloc::Global;
use std::marker::Brand;
use std::sync::Wait;
use std::sync::ledger::{Blank, Ledger};

/// More records than any script makes that is played so.
pub const ROOM: usize = 100;

/// How a script came out behind the lock: what it printed, its records, what a monitor read last, and what ambassadors heard.
#[derive(Drop)]
pub struct Played {
    pub text: Vec<u8>,
    pub ran: Ran,
    pub heard: Vec<Heard>,
}

impl Played {
    /// The records.
    pub fn records(&self) -> &[Record] {
        self.ran.closed.records()
    }

    /// Whether ambassadors heard just what the records' ticks gave, a monitor read the counts of all records, and the checker takes
    /// them.
    pub fn is_judged(&self, alloc: Global) -> bool {
        let records = self.records();
        let has_seen_all = match &self.ran.seen {
            Some(seen) => seen.is_of(records),
            None => false,
        };
        has_seen_all
            && are_of(self.heard.as_slice(), records)
            && check_run(alloc, records) == Ok(())
    }
}

/// Plays a script behind the lock that `blank` is for, with a history of so many records.
fn played_at<L: Ledger + Naming, R: Wait>(
    rt: &R,
    alloc: Global,
    blank: Blank,
    opened: Opened,
    fed: &[u8],
    script: &[u8],
    history_limit: usize,
    trouble: Trouble,
) -> Option<Played>
    requires name { blank.name ≡ L.name }
    requires parts { blank.parts ≡ L.parts }
    requires all { blank.parts ≡ ledger_parts }
    requires book { opened.seen.book ≡ L.book }
    requires limit { history_limit ≤ max_history_limit }
{
    let diary = Diary::new(alloc);
    let Ok(own) = listeners(alloc, trouble, &diary) else {
        return None;
    };
    let mut text = Vec::new(alloc);
    let ran = run_in_order_within::<L, Listener, Shared<L, Listener, Federation>, R, &mut Vec<u8>>(
        rt,
        alloc,
        blank,
        opened,
        fed,
        script,
        own,
        history_limit,
        true,
        &mut Watched::new(&mut text),
    );
    match ran {
        Ok(ran) => Some(Played {
            text,
            ran,
            heard: diary.into_list(),
        }),
        Err(_) => None,
    }
}

/// Plays a script behind a lock, with a history of so many records and with ambassadors of which one may give trouble; nothing where
/// it does not come to its end.
pub fn played_within<R: Wait>(
    rt: &R,
    alloc: Global,
    fed: &[u8],
    script: &[u8],
    history_limit: usize,
    trouble: Trouble,
) -> Option<Played>
    requires { history_limit ≤ max_history_limit }
{
    played_at::<Brand, R>(
        rt,
        alloc,
        Blank::new(LEDGER_PARTS),
        Opened::new(),
        fed,
        script,
        history_limit,
        trouble,
    )
}

/// Plays a script behind a lock as `played_within` does; nothing, too, where it prints something else than this, or what was heard,
/// read and recorded is not judged as it should be.
pub fn run_printing<R: Wait>(
    rt: &R,
    alloc: Global,
    fed: &[u8],
    script: &[u8],
    history_limit: usize,
    trouble: Trouble,
    printed: &[u8],
) -> Option<Played>
    requires { history_limit ≤ max_history_limit }
{
    let run = played_within(rt, alloc, fed, script, history_limit, trouble)?;
    if run.text.as_slice() == printed && run.is_judged(alloc) {
        Some(run)
    } else {
        drop(run);
        None
    }
}

/// Plays a whole script behind a lock, with no trouble; nothing where it does not come to its end.
pub fn whole_run<R: Wait>(rt: &R, alloc: Global, listed: &Listed<'_>) -> Option<Played> {
    match listed.begun(alloc, listed.script.len()) {
        Ok(script) => played_within(
            rt,
            alloc,
            listed.fed,
            script.as_slice(),
            ROOM,
            Trouble::None,
        ),
        Err(_) => None,
    }
}
