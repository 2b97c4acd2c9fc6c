//! The seats of a recorder, dealt to the desk and to threads 0 to 2.
ghost use Rattle.std.specs.Prelude.{◌≡◌, map, IfSome};
ghost use Rattle.types.specs.declared.limits.TheConstants.{DESK_NAME, SEATS};
ghost use Rattle.shared_memory_on_table.specs.Callers.{fresh, fresh_from};

use locked_recorder::{LockedSeat, Naming};

/// Four seats.
#[derive(Drop)]
pub struct Dealt<S> {
    pub desk: S,
    pub zero: S,
    pub one: S,
    pub two: S,
}

/// Deals the seats of a new recorder.
pub fn deal<B: Naming>(mut seats: Vec<LockedSeat<B>>) -> Option<Dealt<LockedSeat<B>>>
    requires { map (λ s. s.caller) seats.items ≡ fresh_from SEATS 0 }
    ensures desk { IfSome result (λ d. d.desk.caller ≡ fresh DESK_NAME) }
    ensures zero { IfSome result (λ d. d.zero.caller ≡ fresh 0) }
    ensures one { IfSome result (λ d. d.one.caller ≡ fresh 1) }
    ensures two { IfSome result (λ d. d.two.caller ≡ fresh 2) }
{
    let desk = seats.pop()?;
    seats.reverse();
    let zero = seats.pop()?;
    let one = seats.pop()?;
    let two = seats.pop()?;
    Some(Dealt {
        desk,
        zero,
        one,
        two,
    })
}
