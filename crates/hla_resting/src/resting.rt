//! Where the threads of a run wait for each other.

ghost use Rattle.std.specs.Prelude.{◌≡◌, ◌-◌, ◌+◌, ◌<◌, ◌≤◌, Some, unwrap_or, min, max, ◌%◌, ◌^◌};
ghost use Rattle.hla_base.specs.Limits.{largest_number};

use std::sync::atomic::{AtomicU64, Ordering};
use std::sync::{Mutex, Wait};
use std::time::Duration;

/// How many microseconds a thread that rests sleeps before it looks again how far the others are, where some are held: one that
/// a gate holds may be let go, or stay, and neither is told.
const MOMENT: u64 = 500;

/// The same where some do their lines, of whom the last that comes to rest or ends sees to it that the bout begins.
const LONG_MOMENT: u64 = 5_000;

/// How often a thread sleeps so in one rest at most. Others who do what takes longer than seconds do not keep it for ever.
const MOST_MOMENTS: u32 = 1_000;

/// For how many moments a line waits for those who are held, after its first, its second and each further tick that gave
/// nothing: 5, 20 and then 50 milliseconds, so that a line whose ticks all give nothing waits nearly a second for them. After
/// `PATIENT_TICKS` there is little to wait for.
const FIRST_MOMENTS: u32 = 10;

const SECOND_MOMENTS: u32 = 40;

const FURTHER_MOMENTS: u32 = 100;

const LAST_MOMENTS: u32 = 1;

/// How many ticks with nothing a line is patient after. So often, too, it is content with one exchange a bout: in lock-step a
/// few are enough, and each takes its records.
const PATIENT_TICKS: u32 = 10;

/// What has been done so far in a run while lines waited.
#[derive(Clone, Copy, Debug)]
struct Effort {
    /// How many ticks gave nothing.
    ticks: u64,
    /// How many exchanges were made.
    exchanges: u64,
}

impl Effort {
    /// How many exchanges there were fewer than ticks with nothing, since an earlier effort.
    fn lacking_since(&self, since: Effort) -> u64
        ensures { result ≡ (self.now.ticks - since.ticks) - (self.now.exchanges - since.exchanges) }
    {
        let ticks = self.ticks.saturating_sub(since.ticks);
        ticks.saturating_sub(self.exchanges.saturating_sub(since.exchanges))
    }
}

/// How a line that ticks has waited so far.
#[derive(Debug, Drop)]
pub struct LineWait {
    /// How many of its ticks gave nothing.
    ticks: u32,
    /// The effort of all when the first of them did.
    since: Option<Effort>,
}

impl LineWait {
    /// A line that has not ticked.
    pub fn new() -> LineWait {
        LineWait {
            ticks: 0,
            since: None,
        }
    }

    /// For how many moments it waits for those who are held, after its last tick.
    fn patience(&self) -> u32
        ensures first { self.now.ticks ≤ 1 → result ≡ FIRST_MOMENTS }
        ensures second { self.now.ticks ≡ 2 → result ≡ SECOND_MOMENTS }
        ensures further { 2 < self.now.ticks → self.now.ticks ≤ PATIENT_TICKS
            → result ≡ FURTHER_MOMENTS }
        ensures last { PATIENT_TICKS < self.now.ticks → result ≡ LAST_MOMENTS }
    {
        match self.ticks {
            0 | 1 => FIRST_MOMENTS,
            2 => SECOND_MOMENTS,
            ticks if ticks <= PATIENT_TICKS => FURTHER_MOMENTS,
            _ => LAST_MOMENTS,
        }
    }

    /// One more tick gave nothing: how many exchanges the line lacks, with one for this tick. Before it has waited for long it is
    /// content with one.
    fn lacks(&mut self, effort: Effort) -> u64
        ensures since { self.new.since ≡ Some (unwrap_or self.old.since effort) }
        ensures ticks { self.old.ticks ≤ PATIENT_TICKS → self.new.ticks ≡ self.old.ticks + 1 }
        ensures many { PATIENT_TICKS < self.old.ticks → PATIENT_TICKS < self.new.ticks }
        ensures patient { self.old.ticks < PATIENT_TICKS → result ≡ 1 }
        ensures long { let since = unwrap_or self.old.since effort
            in PATIENT_TICKS ≤ self.old.ticks → result ≡ min
            ((effort.ticks - since.ticks) - (effort.exchanges - since.exchanges) + 1)
            largest_number }
    {
        self.ticks = self.ticks.saturating_add(1);
        let since = self.since.unwrap_or(effort);
        self.since = Some(since);
        if self.ticks <= PATIENT_TICKS {
            1
        } else {
            effort.lacking_since(since).saturating_add(1)
        }
    }
}

/// How far the threads of a run are.
#[derive(Drop)]
struct Crowd {
    /// How many have ended.
    ended: usize,
    /// How many wait for the next bout to end.
    resting: usize,
    /// How many are between two of their lines, where a gate may hold them, or have not begun.
    held: usize,
    /// For how many moments those who are held are waited for: as many as the most patient one who rests wants.
    patience: u32,
    /// How many exchanges the next bout is to make: as many as are lacked by the one who rests and lacks most.
    due: u64,
    effort: Effort,
}

impl Crowd {
    /// How many do their lines or bring what others send, if there are so many in all.
    fn awake(&self, threads: usize) -> usize
        ensures { result ≡ threads - self.now.resting - self.now.ended - self.now.held }
    {
        threads
            .saturating_sub(self.resting)
            .saturating_sub(self.ended)
            .saturating_sub(self.held)
    }

    /// One more rests, which lacks so many exchanges and waits for so many moments for those who are held.
    fn take_in(&mut self, lacking: u64, patience: u32)
        ensures { self.new ≡ record self.old {
          resting = min (self.old.resting + 1) largest_number;
          patience = max self.old.patience patience;
          due = max self.old.due lacking;
        } }
    {
        self.due = self.due.max(lacking);
        self.patience = self.patience.max(patience);
        self.resting = self.resting.saturating_add(1);
    }

    /// One who rests gets up to lead the next bout.
    fn led(&mut self) -> Rested
        ensures bout { result ≡ Rested.Leads self.old.due }
        ensures up { self.new ≡ record self.old { resting = self.old.resting - 1 } }
    {
        self.resting = self.resting.saturating_sub(1);
        Rested::Leads {
            exchanges: self.due,
        }
    }

    /// All who rest go on, behind so many exchanges.
    fn let_out(&mut self, exchanges: u64)
        ensures { self.new ≡ record self.old {
          resting = 0;
          patience = 0;
          due = 0;
          effort = record self.old.effort {
            exchanges = min (self.old.effort.exchanges + exchanges) largest_number;
          };
        } }
    {
        self.effort.exchanges = self.effort.exchanges.saturating_add(exchanges);
        self.resting = 0;
        self.patience = 0;
        self.due = 0;
    }
}

/// How a rest ended.
#[derive(Clone, Copy, Debug, PartialEq, Eq)]
pub enum Rested {
    /// A bout has ended.
    News,
    /// All others rest, are held or have ended, so that nothing comes but by this thread: a bout of so many exchanges.
    Leads { exchanges: u64 },
}

/// What a thread that rests sees of the others.
#[derive(Clone, Copy, Debug, PartialEq, Eq)]
enum Look {
    /// The rest has ended.
    Ended(Rested),
    /// Some do their lines, or bring what others send.
    Awake,
    /// All others rest, are held or have ended, and those who are held are waited for.
    Held,
}

/// The part of a count by which a thread sleeps on it.
fn low_bits(count: u64) -> u32
    ensures { result ≡ count % 2 ^ 32 }
{
    (count % (1 << 32)) as u32
}

/// Where a thread whose federate was given nothing waits, at next to no cost, until a bout has ended: the last of all that comes to
/// rest brings what federates have for each other, and then all that rest tick once more, side by side.
#[derive(Drop)]
pub struct RestingRoom {
    threads: usize,
    crowd: Mutex<Crowd>,
    /// How many bouts have ended; those who rest sleep on it.
    bouts: AtomicU64,
}

impl RestingRoom {
    /// A room for so many threads, none of which has begun.
    pub fn new(threads: usize) -> RestingRoom {
        RestingRoom {
            threads,
            crowd: Mutex::new(Crowd {
                ended: 0,
                resting: 0,
                held: threads,
                patience: 0,
                due: 0,
                effort: Effort {
                    ticks: 0,
                    exchanges: 0,
                },
            }),
            bouts: AtomicU64::new(0),
        }
    }

    /// A thread ends, behind its last line. Those who rest look whether they are alone then.
    pub fn leave(&self, rt: &impl Wait) {
        let mut crowd = self.crowd.lock(rt);
        crowd.ended = crowd.ended.saturating_add(1);
        crowd.held = crowd.held.saturating_sub(1);
        self.bouts.wake_all();
    }

    /// A thread has done a line, and may be held by a gate from now on.
    pub fn hold(&self, rt: &impl Wait) {
        let mut crowd = self.crowd.lock(rt);
        crowd.held = crowd.held.saturating_add(1);
    }

    /// The gate has let the thread through to its next line.
    pub fn let_go(&self, rt: &impl Wait) {
        let mut crowd = self.crowd.lock(rt);
        crowd.held = crowd.held.saturating_sub(1);
    }

    /// How many bouts have ended. A thread asks before it ticks: where one ends meanwhile, it does not rest.
    pub fn bouts(&self) -> u64 {
        self.bouts.load(Ordering::SeqCst)
    }

    /// A tick gave nothing: the thread counts as resting from now on, unless a bout has ended since it had seen so many end.
    fn lie_down(&self, rt: &impl Wait, seen: u64, wait: &mut LineWait) -> bool {
        let mut crowd = self.crowd.lock(rt);
        let lacking = wait.lacks(crowd.effort);
        crowd.effort.ticks = crowd.effort.ticks.saturating_add(1);
        if self.bouts() != seen {
            return false;
        }
        crowd.take_in(lacking, wait.patience());
        true
    }

    /// How far the others are, for a thread that rests, had seen so many bouts end, and has waited so many moments for those who are
    /// held.
    fn look(&self, rt: &impl Wait, seen: u64, moments: u32) -> Look {
        let mut crowd = self.crowd.lock(rt);
        if self.bouts() != seen {
            return Look::Ended(Rested::News);
        }
        if crowd.awake(self.threads) > 0 {
            return Look::Awake;
        }
        if crowd.held > 0 && moments < crowd.patience {
            return Look::Held;
        }
        Look::Ended(crowd.led())
    }

    /// The thread has rested for long enough: it leads the next bout, unless one has ended just now.
    fn get_up(&self, rt: &impl Wait, seen: u64) -> Rested {
        let mut crowd = self.crowd.lock(rt);
        if self.bouts() == seen {
            crowd.led()
        } else {
            Rested::News
        }
    }

    /// Sleeps for so many microseconds, or until a bout ends or a thread does.
    fn sleep(&self, rt: &impl Wait, seen: u64, moment: u64) {
        self.bouts
            .park_timeout(rt, low_bits(seen), Duration::from_micros(moment));
    }

    /// After a tick that gave nothing: waits until a bout has ended, or until this thread is to lead one, as all others rest, are
    /// held or have ended. It ends by itself, whatever others do: it sleeps at most `MOST_MOMENTS` times, each time a moment at
    /// most.
    pub fn rest(&self, rt: &impl Wait, seen: u64, wait: &mut LineWait) -> Rested {
        if !self.lie_down(rt, seen, wait) {
            return Rested::News;
        }
        let mut moments: u32 = 0;
        for _ in 0..MOST_MOMENTS {
            match self.look(rt, seen, moments) {
                Look::Ended(rested) => return rested,
                Look::Awake => self.sleep(rt, seen, LONG_MOMENT),
                Look::Held => {
                    self.sleep(rt, seen, MOMENT);
                    moments = moments.saturating_add(1);
                }
            }
        }
        self.get_up(rt, seen)
    }

    /// A bout ends, of so many exchanges. Those who rest go on, each, to see what there is.
    pub fn end_bout(&self, rt: &impl Wait, exchanges: u64) {
        let mut crowd = self.crowd.lock(rt);
        self.bouts.fetch_add(1, Ordering::SeqCst);
        crowd.let_out(exchanges);
        self.bouts.wake_all();
    }
}
