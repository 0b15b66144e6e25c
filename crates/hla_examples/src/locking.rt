//! Examples behind the lock of the run-time infrastructure: line by line on one thread, and each federate on a thread of its own.

ghost use Rattle.std.specs.Prelude.{◌≡◌};
ghost use Rattle.hla_base.specs.Limits.{ledger_parts};

use crate::Files;
use hla_base::LEDGER_PARTS;
use hla_callbacks::Recorder;
use hla_checker::check_run;
use hla_federation::Federation;
use hla_in_order::run_in_order;
use hla_monitor::{Naming, Opened};
use hla_run::{OpenGate, recorders, run_scripts};
use hla_script::Watched;
use hla_shared::Shared;
use std::alloc::Global;
use std::marker::Brand;
use std::sync::Wait;
use std::sync::ledger::{Blank, Ledger};
use std::thread::Threads;

/// Whether an example prints what is expected, line by line behind the lock that `blank` is for, and closes with so many
/// records, which the checker takes.
fn prints_expected<L: Ledger + Naming, R: Wait>(
    rt: &R,
    alloc: Global,
    blank: Blank,
    opened: Opened,
    files: &Files,
    records: usize,
) -> bool
    requires name { blank.name ≡ L.name }
    requires parts { blank.parts ≡ L.parts }
    requires all { blank.parts ≡ ledger_parts }
    requires book { opened.seen.book ≡ L.book }
{
    let Ok(own) = recorders(alloc, files.script.as_bytes()) else {
        return false;
    };
    let mut transcript = Vec::new(alloc);
    let ran = run_in_order::<L, Recorder, Shared<L, Recorder, Federation>, R, &mut Vec<u8>>(
        rt,
        alloc,
        blank,
        opened,
        files.fed.as_bytes(),
        files.script.as_bytes(),
        own,
        &mut Watched::new(&mut transcript),
    );
    match ran {
        Ok(closed) => {
            transcript.as_slice() == files.expected.as_bytes()
                && closed.records().len() == records
                && check_run(alloc, closed.records()) == Ok(())
        }
        Err(_) => false,
    }
}

/// Whether an example prints what is expected behind a lock, too, line by line, and closes with so many records, which the
/// checker takes.
pub fn is_same_behind_the_lock<R: Wait>(
    rt: &R,
    alloc: Global,
    files: &Files,
    records: usize,
) -> bool {
    prints_expected::<Brand, R>(
        rt,
        alloc,
        Blank::new(LEDGER_PARTS),
        Opened::new(),
        files,
        records,
    )
}

/// Whether a script ends on threads, behind the lock that `blank` is for, and closes with records that the checker takes, and
/// whose number a monitor has read.
fn ends_on_threads<L: Ledger + Naming + Send + Sync, R: Threads + Wait + Sync>(
    rt: &R,
    alloc: Global,
    blank: Blank,
    opened: Opened,
    files: &Files,
) -> bool
    requires name { blank.name ≡ L.name }
    requires parts { blank.parts ≡ L.parts }
    requires all { blank.parts ≡ ledger_parts }
    requires book { opened.seen.book ≡ L.book }
{
    let Ok(own) = recorders(alloc, files.script.as_bytes()) else {
        return false;
    };
    let mut transcript = Vec::new(alloc);
    let ran = run_scripts::<
        L,
        Recorder,
        Shared<L, Recorder, Federation>,
        OpenGate,
        R,
        &mut Vec<u8>,
    >(
        rt,
        alloc,
        blank,
        opened,
        files.fed.as_bytes(),
        files.script.as_bytes(),
        own,
        &OpenGate,
        true,
        &mut Watched::new(&mut transcript),
    );
    match ran {
        Ok(ran) => {
            let records = ran.closed.records();
            let has_seen_all = match &ran.seen {
                Some(seen) => seen.steps == records.len() as u64,
                None => false,
            };
            has_seen_all && check_run(alloc, records) == Ok(())
        }
        Err(_) => false,
    }
}

/// Whether a script ends with a thread for each federate, and closes with records that the checker takes. What it prints
/// depends on the turns that the threads take.
pub fn is_run_on_threads<R: Threads + Wait + Sync>(rt: &R, alloc: Global, files: &Files) -> bool {
    ends_on_threads::<Brand, R>(rt, alloc, Blank::new(LEDGER_PARTS), Opened::new(), files)
}
