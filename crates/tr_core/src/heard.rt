//! What comes of a reply that concerns the tracee in hand.

ghost use Rattle.std.specs.Prelude.{ℕ};
ghost use Rattle.pt_model.specs.Tracer as tracer;
ghost use Rattle.tr_core.specs.Hearings.{Comes, known_at};
ghost use Rattle.tr_core.specs.Held.{IsHeld};
ghost use Rattle.tr_core.specs.Known.{place_of};
ghost use Rattle.tr_core.specs.declared.session.Session.{Session as SessionOf};
ghost use Rattle.tr_core.specs.declared.place.Tracee.{Tracee as TraceeOf};

use crate::place::Awaiting;
use containers::Bytes;
use std::alloc::Global;

/// What is asked next of the tracee in hand, none where it is let go, and what is printed.
#[derive(Drop)]
pub struct Heard {
    pub next: Option<Awaiting>,
    pub bytes: Bytes,
}

/// Nothing is printed, and nothing more asked of the tracee.
#[tactic(auto, unfolding(crate::specs::Pens::wrote, crate::specs::Pens::pen_after))]
pub fn nothing(alloc: Global) -> Heard
    ensures { (s : SessionOf) (pid : ℕ) (t : TraceeOf)
        → Comes (tracer.nothing (known_at s pid t)) result s s pid t t }
{
    Heard {
        next: None,
        bytes: Bytes::new(alloc),
    }
}

/// This is asked next, and nothing printed.
#[tactic(auto, unfolding(crate::specs::Pens::wrote, crate::specs::Pens::pen_after))]
pub fn asks(alloc: Global, place: Awaiting) -> Heard
    ensures { (s : SessionOf) (pid : ℕ) (t : TraceeOf) → IsHeld s.settings.options t.called place
        → Comes (tracer.moves (known_at s pid t) (place_of place)) result s s pid t t }
{
    Heard {
        next: Some(place),
        bytes: Bytes::new(alloc),
    }
}
