//! Ears for federates that join, and their ambassadors back where they resign.

ghost use Rattle.std.specs.Prelude.{◌≡◌, ◌<◌, ◌+◌, ◌++◌, ◌∷◌, [], true, None, Some, is_some, IfSome, if◌then◌else◌, get_or, slice_get, slice_set, vec_len, vec_capacity};
ghost use Rattle.hla_callbacks.specs.Hearing.{Hearing};
ghost use Rattle.hla_history.specs.Creating.{is_accepted};
ghost use Rattle.hla_history.specs.Hosting.{heard_of, tags_of};

use hla_base::FederateNo;
use hla_callbacks::{Ear, FederateAmbassador};
use hla_machine::Outcome;

/// Makes an ear for the federate that joined, or gives the ambassador back where it was refused.
pub(crate) fn seat<B: FederateAmbassador>(
    ears: &mut Vec<Option<Ear<B>>>,
    answer: &Outcome,
    inner: B,
) -> Option<B>
    requires { vec_len ears.old < vec_capacity ears.old }
    ensures back { result ≡ (if is_accepted answer.now then None else Some inner) }
    ensures heard { heard_of ears.new.items
        ≡ (if is_accepted answer.now then heard_of ears.old.items ++ Some (B.heard inner)
        ∷ [] else heard_of ears.old.items) }
    ensures tags { tags_of ears.new.items
        ≡ (if is_accepted answer.now then tags_of ears.old.items ++ Some (B.tag inner)
        ∷ [] else tags_of ears.old.items) }
    ensures len { vec_len ears.new
        ≡ (if is_accepted answer.now then vec_len ears.old + 1 else vec_len ears.old) }
{
    match answer {
        Outcome::Done(_) => {
            ears.push_reserved(Some(Ear::new(inner)));
            None
        }
        _ => Some(inner),
    }
}

/// Takes the ear out of its place.
fn ear_out<B: FederateAmbassador>(place: &mut Option<Ear<B>>) -> Option<Ear<B>>
    ensures value { result ≡ place.old }
    ensures after { place.new ≡ None }
{
    place.take()
}

/// Takes the ear of the federate that resigned, and hands out its ambassador; none where it was refused.
pub(crate) fn unseat<B: FederateAmbassador>(
    ears: &mut Vec<Option<Ear<B>>>,
    federate: FederateNo,
    answer: &Outcome,
) -> Option<B>
    requires { is_accepted answer.now ≡ true
        → (e : Hearing) × (slice_get ears.old.items federate ≡ Some (Some e)) }
    ensures back { is_some result ≡ is_accepted answer.now }
    ensures at { IfSome result
        (λ b. get_or (heard_of ears.old.items) federate None ≡ Some (B.heard b)) }
    ensures tag { IfSome result
        (λ b. get_or (tags_of ears.old.items) federate None ≡ Some (B.tag b)) }
    ensures heard { heard_of ears.new.items
        ≡ (if is_accepted answer.now then slice_set
        (heard_of ears.old.items) federate None else heard_of ears.old.items) }
    ensures tags { tags_of ears.new.items
        ≡ (if is_accepted answer.now then slice_set
        (tags_of ears.old.items) federate None else tags_of ears.old.items) }
    ensures len { vec_len ears.new ≡ vec_len ears.old }
{
    match answer {
        Outcome::Done(_) => match ear_out(&mut ears[federate as usize]) {
            Some(ear) => Some(ear.into_inner()),
            None => unreachable!(),
        },
        _ => None,
    }
}
