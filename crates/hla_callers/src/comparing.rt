//! Comparing the transcripts of all callers with the history.

ghost use Rattle.std.specs.Prelude.{◌≡◌, IsTrue, IfNone, IfSome};
ghost use Rattle.hla_callers.specs.Close.{AllAgree, AllStand, DiffersFirst};

use crate::seat::{Left, Seat};
use hla_callbacks::FederateAmbassador;
use hla_history::{History, Unmatched};
use hla_monitor::Naming;
use std::alloc::Global;
use std::sync::ledger::Ledger;

/// A table with a place for each number below this, and no transcript in it; none where the room was refused.
fn empty_table<'a>(alloc: Global, numbers: usize) -> Option<Vec<Unmatched<'a>>> {
    (0..numbers).map(|_| Unmatched::none()).collect(alloc).ok()
}

/// Puts each transcript at its caller's number; not all of them where the table has no place for a number, or two callers
/// have the same.
fn put_transcripts<'a, L: Ledger + Naming, B: FederateAmbassador>(
    table: &mut [Unmatched<'a>],
    lefts: &'a [Left<L, B>],
    own: &'a Seat<L>,
) -> bool
    ensures { IsTrue result → AllStand table.new lefts.now own.now }
{
    if !own.put_into(table) {
        return false;
    }
    for left in lefts {
        if !left.put_into(table) {
            return false;
        }
    }
    true
}

/// The transcripts of all, each at its caller's number; none where the room was refused, or the numbers are not those from
/// zero on.
fn transcript_table<'a, L: Ledger + Naming, B: FederateAmbassador>(
    alloc: Global,
    lefts: &'a [Left<L, B>],
    own: &'a Seat<L>,
) -> Option<Vec<Unmatched<'a>>>
    ensures { IfSome result (λ table. AllStand table.items lefts.now own.now) }
{
    let mut table = empty_table(alloc, lefts.len().saturating_add(1))?;
    if put_transcripts(table.as_mut_slice(), lefts, own) {
        Some(table)
    } else {
        None
    }
}

/// The place of the first transcript that differs from the history, if one does, by one pass over the history for all.
fn first_unmatched<L: Ledger + Naming, B: FederateAmbassador, H: History<L, B>>(
    shared: &H,
    table: &mut [Unmatched],
    lefts: &[Left<L, B>],
    own: &Seat<L>,
) -> Option<usize>
    requires { AllStand table.old lefts.now own.now }
    ensures none { IfNone result (AllAgree (H.value shared.now).history lefts.now own.now) }
    ensures some { IfSome result (λ k. DiffersFirst (H.value shared.now).history lefts.now own.now k) }
{
    shared.match_all(table);
    for (k, left) in lefts.iter().enumerate() {
        if !left.is_matched_in(table) {
            return Some(k);
        }
    }
    if !own.is_matched_in(table) {
        return Some(lefts.len());
    }
    None
}

/// The place of the first transcript that differs from the history, if one does, by a pass over the history for each; it
/// takes no memory.
fn first_in_turn<L: Ledger + Naming, B: FederateAmbassador, H: History<L, B>>(
    shared: &H,
    lefts: &[Left<L, B>],
    own: &Seat<L>,
) -> Option<usize>
    ensures none { IfNone result (AllAgree (H.value shared.now).history lefts.now own.now) }
    ensures some { IfSome result (λ k. DiffersFirst (H.value shared.now).history lefts.now own.now k) }
{
    for (k, left) in lefts.iter().enumerate() {
        if !left.agrees_with(shared) {
            return Some(k);
        }
    }
    if !own.agrees_with(shared) {
        return Some(lefts.len());
    }
    None
}

/// The place of the first transcript that differs from the history, if one does.
pub(crate) fn first_differing<L: Ledger + Naming, B: FederateAmbassador, H: History<L, B>>(
    alloc: Global,
    shared: &H,
    lefts: &[Left<L, B>],
    own: &Seat<L>,
) -> Option<usize>
    ensures none { IfNone result (AllAgree (H.value shared.now).history lefts.now own.now) }
    ensures some { IfSome result (λ k. DiffersFirst (H.value shared.now).history lefts.now own.now k) }
{
    match transcript_table(alloc, lefts, own) {
        Some(mut table) => first_unmatched(shared, table.as_mut_slice(), lefts, own),
        None => first_in_turn(shared, lefts, own),
    }
}
