//! Laws of the definitions: units are well formed or have a fault, and one of either. These functions do nothing; each has a law as its contract.

ghost use Rattle.std.specs.Prelude.{◌≡◌, ◌≢◌, ◌⊎◌, true, List};
ghost use Rattle.std.specs.List.{list_all};
ghost use Rattle.st_names.specs.Lexemes.{Lexeme};
ghost use Rattle.st_names.specs.Declarations.{SpellsUnit};
ghost use Rattle.st_names.specs.Units.{PlainUnit};
ghost use Rattle.st_typing.specs.Kinds.{is_global};
ghost use Rattle.st_typing.specs.Faults.{AreTyped, IsTypeFault};
ghost use Rattle.st_typing.specs.declared.fault.TypeFault.{TypeFault};
ghost use Rattle.st_typing.specs.declared.fault.TypeFault.TheVariants as fault;

/// Each list of units is well formed or has a fault that isn't `Memory`.
pub fn typed_or_not()
    ensures { (units : List PlainUnit)
        → AreTyped units ⊎ ((f : TypeFault) × IsTypeFault units f × (f ≢ fault.Memory)) }
{}

/// A list of units has, `Memory` apart, at most one fault, and none where it is well formed.
pub fn one_type_fault()
    ensures one { (units : List PlainUnit) (f g : TypeFault) → IsTypeFault units f → IsTypeFault units g
        → f ≢ fault.Memory → g ≢ fault.Memory → f ≡ g }
    ensures apart { (units : List PlainUnit) (f : TypeFault) → AreTyped units → IsTypeFault units f
        → f ≡ fault.Memory }
{}

/// The sections of globals that a text spells are VAR_GLOBAL, as the rule of kinds wants them: it refuses no text for this.
pub fn spelled_globals_stand()
    ensures { (ts : List Lexeme) (unit : PlainUnit) → SpellsUnit ts unit
        → list_all is_global unit.globals ≡ true }
{}
