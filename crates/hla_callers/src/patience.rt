//! How a caller waits for the lock.

ghost use Rattle.std.specs.Prelude.{◌≡◌, ◌⊎◌, ◌+◌};
ghost use Rattle.hla_callers.specs.Waiting.{is_vain, vain_steps_then, Learns};

use hla_machine::{Answer, Carried, Outcome};
use std::sync::atomic::AtomicU64;
use std::sync::{Mutex, MutexGuard, Wait};
use std::time::Duration;

/// How often a caller finds the lock taken, while nobody's step is in vain, before it naps.
const PATIENT_FINDS: u32 = 32;

/// The naps that a caller takes at the most, in microseconds: few and long ones, so that sixteen callers who nap look so seldom that
/// the one who has the lock makes some hundred steps before another takes it from it. The first is short, for the lock may be
/// free at once.
const NAPS: [u64; 5] = [50, 200, 800, 1_600, 3_200];

/// How a caller waits for the lock. While callers take turns at each step, what lies behind the lock moves from core to core
/// with it, and one of them sleeps and is woken for nearly each step: two make fewer steps than one alone. So a caller that
/// finds the lock taken again and again naps, and leaves it to the others for some hundred steps. Where a step was in vain, its
/// caller waits for others, and nobody naps: whom it waits for would be late, as in lock-step.
#[derive(Drop)]
pub(crate) struct Patience {
    /// How often the lock was found taken since the number below last changed.
    finds: u32,
    /// How many steps of all callers had been in vain when this caller had the lock last.
    vain_steps: u64,
}

impl Patience {
    /// That of a caller who has not found the lock taken.
    pub(crate) fn new() -> Patience
        ensures { result.finds ≡ 0 }
    {
        Patience {
            finds: 0,
            vain_steps: 0,
        }
    }

    /// The lock, once it is free. It ends: each nap ends by itself, a few are taken at most, and then the caller waits in the
    /// lock's own line.
    pub(crate) fn lock<'a, T>(&mut self, rt: &impl Wait, lock: &'a Mutex<T>) -> MutexGuard<'a, T>
        ensures { (self.new.finds ≡ self.old.finds) ⊎ (self.new.finds ≡ self.old.finds + 1) }
    {
        if let Some(guard) = lock.try_lock() {
            return guard;
        }
        self.finds = self.finds.saturating_add(1);
        if self.finds > PATIENT_FINDS {
            if let Some(guard) = nap(rt, lock) {
                return guard;
            }
        }
        lock.lock(rt)
    }

    /// Learns how many steps of all callers have been in vain: if another number than it knew, it is as patient as at first.
    pub(crate) fn learn(&mut self, vain_steps: u64)
        ensures { Learns self.old vain_steps self.new }
    {
        if self.vain_steps != vain_steps {
            self.finds = 0;
            self.vain_steps = vain_steps;
        }
    }
}

/// Whether a tick gave nothing, a federate had nothing to announce, or nothing was on a wire.
fn is_vain(outcome: &Outcome) -> bool
    ensures { result ≡ is_vain outcome.now }
{
    matches!(
        outcome,
        Outcome::Done(
            Answer::Ticked(None) | Answer::Announced(None) | Answer::Carried(Carried::Nothing)
        )
    )
}

/// How many steps have been in vain, once another has ended so.
pub(crate) fn vain_steps_after(vain_steps: u64, outcome: &Outcome) -> u64
    ensures { result ≡ vain_steps_then vain_steps outcome.now }
{
    if is_vain(outcome) {
        vain_steps.saturating_add(1)
    } else {
        vain_steps
    }
}

/// Naps until the lock is found free, or for the last time.
fn nap<'a, T>(rt: &impl Wait, lock: &'a Mutex<T>) -> Option<MutexGuard<'a, T>> {
    let bed = AtomicU64::new(0);
    for micros in NAPS {
        bed.park_timeout(rt, 0, Duration::from_micros(micros));
        let guard = lock.try_lock();
        if guard.is_some() {
            return guard;
        }
    }
    None
}
