//! A law of what is compared of orders.

ghost use Rattle.std.specs.Prelude.{◌≡◌, ℕ, Option};
ghost use Rattle.alarm_machine.specs.declared.states.OrderFault.{OrderFault};
ghost use Rattle.alarm_machine.specs.declared.states.Verb.{Verb};
ghost use Rattle.try_desks.specs.Shifts.{telling_of};

/// Orders are told alike only where their verbs, with the times of shelvings, their targets and their refusals are the same. So notes of which
/// `are_told` is true are of the very orders.
pub fn tellings_tell_apart()
    ensures { (v w : Verb) (t u : Option ℕ) (r s : Option OrderFault)
        → telling_of v t r ≡ telling_of w u s → (v ≡ w) × (t ≡ u) × (r ≡ s) }
{}
