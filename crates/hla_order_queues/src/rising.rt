//! The stamps of one sender's events, by serials that rise.

ghost use Rattle.std.specs.Prelude.{◌≡◌, ℕ, true, cond, eqb, None, Some, [], MatchBool};
ghost use Rattle.std.specs.List.{prefix_len};
ghost use Rattle.std.specs.VecDeque.{deque_capacity, deque_len};
ghost use Rattle.hla_order_queues.specs.Names.{noted, is_passed, unpassed, passed_to, without_passed, AreRisingNotes, AreLess, Keeps, TakesNote, IsPushed, IsLeastNoted, is_first_none, is_first_note, is_note_before, is_try_due, tried_after};

use hla_base::{Serial, Ticks};
use std::alloc::Global;
use std::collections::VecDeque;
use std::marker::Model;

/// How many more notes of events that are gone than of others there may be before they are swept out.
const SPARE_NOTES: usize = 32;

/// How much room is never given back.
const SPARE_ROOM: usize = 64;

/// An event's stamp, at its serial; `None` where the event is gone.
#[derive(Clone, Copy, Debug)]
pub(crate) struct StampNote {
    pub serial: Serial,
    pub stamp: Option<Ticks>,
}

/// An event of a sender that was taken as the least of all: no event of that sender that comes before it, by stamp and then
/// by serial, was there then.
#[derive(Clone, Copy, Debug)]
pub(crate) struct Passed {
    pub stamp: Ticks,
    pub serial: Serial,
}

/// What became of a stamp that was to be noted.
#[derive(Clone, Copy, Debug)]
pub(crate) enum Pushed {
    Noted,
    /// Its place is not behind the others: its serial is not greater than theirs, or its event comes before one that was passed.
    Elsewhere,
    /// Memory for it was refused.
    Refused,
}

/// The stamps of one sender's events, by serials that rise from note to note. Contracts see the notes, which say nothing of events
/// that were passed.
#[derive(Debug, Drop)]
pub(crate) struct Rising {
    notes: VecDeque<StampNote>,
    /// The last event that was passed and whose note was not the first: notes of events up to it may still be there.
    passed: Option<Passed>,
    /// About how many notes are of events that are gone: it tells when to sweep them out, and nothing else.
    gone: usize,
    /// How many notes there were when room was last given back, or refused to be; more than any where much of the room has
    /// been used since. It tells when to try again, and nothing else.
    tried: usize,
}

impl Model for Rising {
    ghost use Rattle.std.specs.Prelude.{List};
    ghost use Rattle.hla_order_queues.specs.declared.rising.StampNote.{StampNote};
    ghost use Rattle.hla_order_queues.specs.Names.{AreRisingNotes, without_passed};

    ghost Value = { List StampNote };

    ghost view = { λ r. without_passed r.passed r.notes.items };

    ghost invariant = { λ r. AreRisingNotes r.notes.items };
}

impl Rising {
    /// No stamps; it takes no memory.
    pub fn new(alloc: Global) -> Rising
        ensures { result ≡ [] }
    {
        Rising {
            notes: VecDeque::new(alloc),
            passed: None,
            gone: 0,
            tried: usize::MAX,
        }
    }

    /// Notes a stamp at a serial, where it is greater than all others, and the event behind all that were passed. It costs the
    /// same however many there are, but for the growth of the room. Where it is not noted, nothing changes.
    #[inline(always)]
    pub fn push(&mut self, serial: Serial, stamp: Ticks) -> Pushed
        ensures { IsPushed result serial stamp self.old self.new }
    {
        if !is_below(&self.notes, serial) || is_passed(self.passed, serial, stamp) {
            return Pushed::Elsewhere;
        }
        let note = StampNote {
            serial,
            stamp: Some(stamp),
        };
        match self.notes.push_back(note) {
            Ok(()) => Pushed::Noted,
            Err(_) => Pushed::Refused,
        }
    }

    /// The stamp at a serial, if the event is there. A serial that is greater than all needs no look; else it looks at a
    /// logarithm of the notes, of which there are few more than twice as many as events.
    pub fn get(&self, serial: Serial) -> Option<Ticks>
        ensures { result ≡ noted serial self.now }
    {
        unpassed(self.passed, serial, stamp_noted(&self.notes, serial))
    }

    /// Takes the stamp at a serial, if the event is there. Where it is the first event it costs the same however many there
    /// are; else it looks at a logarithm of the notes. It sweeps, and gives room back, so seldom that the events that
    /// were put and taken before have paid for it.
    pub fn take(&mut self, serial: Serial) -> Option<Ticks>
        ensures found { result ≡ noted serial self.old }
        ensures rest { (m : ℕ) → noted m self.new ≡ cond (eqb serial m) None (noted m self.old) }
    {
        let stamp = take_from(&mut self.notes, &mut self.gone, serial);
        tidy(
            &mut self.notes,
            &mut self.gone,
            &mut self.tried,
            self.passed,
        );
        unpassed(self.passed, serial, stamp)
    }

    /// The event with this serial and stamp goes, before which none comes. Its note is looked for nowhere but in front: where it
    /// lies elsewhere it stays, and says nothing any more. It costs the same however many there are, but for what `take` says
    /// of sweeping and of room.
    #[inline(always)]
    pub fn pass(&mut self, serial: Serial, stamp: Ticks)
        requires { IsLeastNoted serial stamp self.old }
        ensures { (m : ℕ) → noted m self.new ≡ cond (eqb serial m) None (noted m self.old) }
    {
        if is_first(&self.notes, serial) {
            let _ = take_first(&mut self.notes, serial);
        } else {
            self.passed = passed_to(self.passed, serial, stamp);
            self.gone = self.gone.saturating_add(1);
        }
        tidy(
            &mut self.notes,
            &mut self.gone,
            &mut self.tried,
            self.passed,
        );
    }
}

/// Whether an event of the sender was passed.
#[inline(always)]
fn is_passed(passed: Option<Passed>, serial: Serial, stamp: Ticks) -> bool
    ensures { result ≡ is_passed passed serial stamp }
{
    match passed {
        Some(last) => stamp < last.stamp || (stamp == last.stamp && serial <= last.serial),
        None => false,
    }
}

/// The stamp of an event, if it was not passed.
fn unpassed(passed: Option<Passed>, serial: Serial, stamp: Option<Ticks>) -> Option<Ticks>
    ensures { result ≡ unpassed passed serial stamp }
{
    match stamp {
        Some(stamp) => {
            if is_passed(passed, serial, stamp) {
                None
            } else {
                Some(stamp)
            }
        }
        None => None,
    }
}

/// The last event that was passed, once this one is.
fn passed_to(passed: Option<Passed>, serial: Serial, stamp: Ticks) -> Option<Passed>
    ensures { result ≡ passed_to passed serial stamp }
{
    if is_passed(passed, serial, stamp) {
        passed
    } else {
        Some(Passed { stamp, serial })
    }
}

/// Whether all serials that are noted are less than this one.
#[inline(always)]
fn is_below(notes: &VecDeque<StampNote>, serial: Serial) -> bool
    requires { AreRisingNotes notes.now.items }
    ensures { MatchBool result (AreLess serial notes.now.items)
        (AreLess serial notes.now.items → ⊥) }
{
    match notes.back() {
        Some(last) => last.serial < serial,
        None => true,
    }
}

/// The stamp in the note with this serial, if there is one.
fn stamp_noted(notes: &VecDeque<StampNote>, serial: Serial) -> Option<Ticks>
    requires { AreRisingNotes notes.now.items }
    ensures { result ≡ noted serial notes.now.items }
{
    if is_below(notes, serial) {
        None
    } else {
        stamp_at(notes, place_of(notes, serial), serial)
    }
}

/// The place of the first note with no lesser serial.
fn place_of(notes: &VecDeque<StampNote>, serial: Serial) -> usize
    requires { AreRisingNotes notes.now.items }
    ensures { result ≡ prefix_len (is_note_before serial) notes.now.items }
{
    notes.partition_point(|note| note.serial < serial)
}

/// The stamp in the note at a place, if the note has this serial.
fn stamp_at(notes: &VecDeque<StampNote>, place: usize, serial: Serial) -> Option<Ticks>
    requires rising { AreRisingNotes notes.now.items }
    requires place { place ≡ prefix_len (is_note_before serial) notes.now.items }
    ensures { result ≡ noted serial notes.now.items }
{
    let Some(note) = notes.get(place) else {
        return None;
    };
    if note.serial == serial {
        note.stamp
    } else {
        None
    }
}

/// Takes the stamp at a serial, if the event is there.
fn take_from(notes: &mut VecDeque<StampNote>, gone: &mut usize, serial: Serial) -> Option<Ticks>
    requires { AreRisingNotes notes.old.items }
    ensures { TakesNote serial notes.old.items notes.new.items result }
{
    if is_first(notes, serial) {
        take_first(notes, serial)
    } else {
        let stamp = mark(notes, serial);
        if stamp.is_some() {
            *gone = gone.saturating_add(1);
        }
        stamp
    }
}

/// Whether the first note has this serial.
#[inline(always)]
fn is_first(notes: &VecDeque<StampNote>, serial: Serial) -> bool
    ensures { result ≡ is_first_note serial notes.now.items }
{
    match notes.front() {
        Some(note) => note.serial == serial,
        None => false,
    }
}

/// Takes the first note, which has this serial, and gives its stamp.
#[inline(always)]
fn take_first(notes: &mut VecDeque<StampNote>, serial: Serial) -> Option<Ticks>
    requires rising { AreRisingNotes notes.old.items }
    requires first { is_first_note serial notes.old.items ≡ true }
    ensures { TakesNote serial notes.old.items notes.new.items result }
{
    match notes.pop_front() {
        Some(note) => note.stamp,
        None => None,
    }
}

/// Takes the stamp out of the note with this serial, if there is one. The note stays, so that no other moves.
fn mark(notes: &mut VecDeque<StampNote>, serial: Serial) -> Option<Ticks>
    requires { AreRisingNotes notes.old.items }
    ensures { TakesNote serial notes.old.items notes.new.items result }
{
    let place = place_of(notes, serial);
    let stamp = stamp_at(notes, place, serial);
    if stamp.is_some() {
        notes[place] = StampNote {
            serial,
            stamp: None,
        };
    }
    stamp
}

/// Takes notes of events that are gone out, if there are any, and gives room back.
#[inline(always)]
fn tidy(
    notes: &mut VecDeque<StampNote>,
    gone: &mut usize,
    tried: &mut usize,
    passed: Option<Passed>,
)
    requires { AreRisingNotes notes.old.items }
    ensures { Keeps (without_passed passed notes.old.items)
        (without_passed passed notes.new.items) }
{
    if *gone > 0 {
        drop_first(notes, gone, passed);
        drop_many(notes, gone, passed);
    }
    give_back(notes, tried);
}

/// Takes the notes before the first event out.
fn drop_first(notes: &mut VecDeque<StampNote>, gone: &mut usize, passed: Option<Passed>)
    requires { AreRisingNotes notes.old.items }
    ensures { Keeps (without_passed passed notes.old.items)
        (without_passed passed notes.new.items) }
{
    while is_first_gone(notes, passed) {
        let _ = notes.pop_front();
        *gone = gone.saturating_sub(1);
    }
}

/// Takes all notes of events that are gone out, where they are many. It goes through all notes, which the marking of each
/// that is gone has paid for.
fn drop_many(notes: &mut VecDeque<StampNote>, gone: &mut usize, passed: Option<Passed>)
    requires { AreRisingNotes (without_passed passed notes.old.items) }
    ensures { Keeps (without_passed passed notes.old.items)
        (without_passed passed notes.new.items) }
{
    if gone.saturating_sub(SPARE_NOTES) > notes.len().saturating_sub(*gone) {
        notes.retain(|note| unpassed(passed, note.serial, note.stamp).is_some());
        *gone = 0;
    }
}

/// Whether the first note is of an event that is gone.
fn is_first_gone(notes: &VecDeque<StampNote>, passed: Option<Passed>) -> bool
    ensures { result ≡ is_first_none (without_passed passed notes.now.items) }
{
    match notes.front() {
        Some(note) => unpassed(passed, note.serial, note.stamp).is_none(),
        None => false,
    }
}

/// Gives room back where that is due; if it is refused, or more room than was asked for stays, all stays as it is until it
/// is due again.
#[inline(always)]
fn give_back(notes: &mut VecDeque<StampNote>, tried: &mut usize)
    ensures same { notes.new.items ≡ notes.old.items }
    ensures tried { tried.new
        ≡ tried_after (deque_capacity notes.old) (deque_len notes.old) tried.old }
{
    let room = notes.capacity();
    let len = notes.len();
    if len >= room / 2 {
        *tried = usize::MAX;
    } else if is_due(room, len, *tried) {
        *tried = len;
        notes.shrink_to(len * 2);
    }
}

/// Whether to give room back, which moves all notes: there is much more than they need, and as many as they are have been taken
/// since the last try, and have paid for this one.
fn is_due(room: usize, len: usize, tried: usize) -> bool
    ensures { result ≡ is_try_due room len tried }
{
    room > SPARE_ROOM && room / 4 > len && len <= tried / 2
}
