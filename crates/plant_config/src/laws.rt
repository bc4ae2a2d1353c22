//! Laws of the definitions: texts are accepted or refused, never both, and in one way. These functions do nothing; each has a law as its contract.

ghost use Rattle.std.specs.Prelude.{◌≡◌, ◌≢◌, ◌⊎◌};
ghost use Rattle.plant_config.specs.declared.fault.ConfigFault.{ConfigFault};
ghost use Rattle.plant_config.specs.declared.fault.ConfigFault.TheVariants as fault;
ghost use Rattle.plant_config.specs.Files.{Texts};
ghost use Rattle.plant_config.specs.Plants.{PlainPlant};
ghost use Rattle.plant_config.specs.Stages.{Accepted};
ghost use Rattle.plant_config.specs.Refusals.{IsRefused, unplaced};

/// Texts are accepted as at most one plant, and are never both accepted and, but for want of memory, refused.
pub fn one_plant()
    ensures plant { (t : Texts) (a b : PlainPlant) → Accepted t a → Accepted t b → a ≡ b }
    ensures apart { (t : Texts) (plant : PlainPlant) (f : ConfigFault) → Accepted t plant → IsRefused t f
        → f ≡ fault.Memory }
{}

/// Texts are refused, but for want of memory, for one fault: two are equal, apart from the place of a C5 in its source.
pub fn one_refusal()
    ensures { (t : Texts) (f g : ConfigFault) → IsRefused t f → IsRefused t g → f ≢ fault.Memory
        → g ≢ fault.Memory → unplaced f ≡ unplaced g }
{}

/// All texts are accepted as a plant, or refused for a fault that isn't `Memory`.
pub fn accepted_or_refused()
    ensures { (t : Texts)
        → ((plant : PlainPlant) × Accepted t plant)
        ⊎ ((f : ConfigFault) × IsRefused t f × (f ≢ fault.Memory)) }
{}
