//! Laws of the definitions: texts have units or a first fault, and one of either. These functions do nothing; each has a law as its contract.

ghost use Rattle.std.specs.Prelude.{◌≡◌, ◌≢◌, ◌⊎◌, ℕ, List};
ghost use Rattle.st_parser.specs.Units.{PlainUnit};
ghost use Rattle.st_sources.specs.declared.fault.SourceFault.{SourceFault};
ghost use Rattle.st_sources.specs.declared.fault.SourceFault.TheVariants as fault;
ghost use Rattle.st_sources.specs.Sources.{HaveUnits, IsSourceFault, SameFault};

/// Each list of texts has units, or a first fault that isn't `Memory`.
pub fn spelled_or_stopped()
    ensures { (texts : List (List ℕ))
        → ((units : List PlainUnit) × HaveUnits texts units)
        ⊎ ((f : SourceFault) × IsSourceFault texts f × (f ≢ fault.Memory)) }
{}

/// A list of texts has at most one list of units and, `Memory` and the place of a C5 apart, at most one fault, and never both.
pub fn one_answer()
    ensures units { (texts : List (List ℕ)) (a b : List PlainUnit) → HaveUnits texts a
        → HaveUnits texts b → a ≡ b }
    ensures fault { (texts : List (List ℕ)) (f g : SourceFault) → IsSourceFault texts f
        → IsSourceFault texts g → SameFault f g }
    ensures apart { (texts : List (List ℕ)) (units : List PlainUnit) (f : SourceFault)
        → HaveUnits texts units → IsSourceFault texts f → f ≡ fault.Memory }
{}
