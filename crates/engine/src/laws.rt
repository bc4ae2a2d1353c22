//! Laws of lawful histories. These functions do nothing: each has a law as its contract, for the crates above.

ghost use Rattle.std.specs.Prelude.{◌≡◌, ◌≤◌, List, [], ◌∷◌, length, All};
ghost use Rattle.engine_system.specs.Plants.{PlainPlant, IsPlant};
ghost use Rattle.engine_system.specs.Event.{Event};
ghost use Rattle.engine_system.specs.EngineHistoryReloads.{NoReload};
ghost use Rattle.engine_system.specs.Reloads.{numbers_of};
ghost use Rattle.engine_system.specs.System.{System, after_event, system, outputs_of};
ghost use Rattle.engine.specs.Lawful.{IsLawfulHistory, HasValuesInRange, IsOutputValue};

/// The system holds its plant, and only a reload changes it: after each history without one it is the plant with which the system began.
pub fn system_keeps_its_plant()
    ensures { (plant : PlainPlant) (history : List Event) → NoReload history
        → (system plant history).plant ≡ plant }
{}

/// One event that is no reload, so a scan or an order, changes nothing of the plant that the system holds.
pub fn event_keeps_plant()
    ensures { (sys : System) (e : Event) → NoReload (e ∷ []) → (after_event sys e).plant ≡ sys.plant }
{}

/// After each lawful history, also one with reloads, the consoles' numbers, in their order, and the epoch are those of the plant with which the
/// system began.
pub fn lawful_history_keeps_consoles_and_epoch()
    ensures consoles { (plant : PlainPlant) (history : List Event) → IsLawfulHistory plant history
        → numbers_of (system plant history).plant.consoles ≡ numbers_of plant.consoles }
    ensures epoch { (plant : PlainPlant) (history : List Event) → IsLawfulHistory plant history
        → (system plant history).plant.epoch ≡ plant.epoch }
{}

/// After each lawful history the value of each variable is in the range of its kind.
pub fn lawful_history_stays_in_range()
    ensures { (plant : PlainPlant) (history : List Event) → IsPlant plant → IsLawfulHistory plant history
        → HasValuesInRange (system plant history) }
{}

/// A lawful history has at most 1,000,000 events, and the moment of its last scan is at most 4,000,000,000,000.
pub fn lawful_history_is_short()
    ensures { (plant : PlainPlant) (history : List Event) → IsLawfulHistory plant history
        → (length history ≤ 1000000) × ((system plant history).moment ≤ 4000000000000) }
{}

/// After each lawful history each output is a value of its global's kind, and worth the number that the world has for that global.
pub fn outputs_are_worth_their_numbers()
    ensures { (plant : PlainPlant) (history : List Event) → IsPlant plant → IsLawfulHistory plant history
        → All (IsOutputValue (system plant history)) (outputs_of (system plant history)) }
{}
