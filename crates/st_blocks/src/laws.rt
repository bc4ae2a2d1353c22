//! Laws of block types and their depth. These functions do nothing: each has a law as its contract, for the crates above.

ghost use Rattle.std.specs.Prelude.{◌≡◌, ◌≢◌, ◌⊎◌, ℕ, suc, List, false, nat_lt};
ghost use Rattle.st_blocks.specs.Blocks.{PlainBlock, NoneHoldsItself, NoneTooDeep, AreOrdered};
ghost use Rattle.st_blocks.specs.Faults.{IsNestingFault};
ghost use Rattle.st_blocks.specs.declared.faults.NestingFault.{NestingFault};
ghost use Rattle.st_blocks.specs.declared.faults.NestingFault.TheVariants as fault;
ghost use Rattle.st_blocks.specs.Chains.{has_chain, depth};

/// It is deeper than so many levels exactly where there is a chain of as many steps from it.
pub fn deeper_where_chain()
    ensures { (next : List ℕ → List (List ℕ)) (k : ℕ) (a : List ℕ)
        → nat_lt k (depth next (suc k) a) ≡ has_chain next k a }
{}

/// As many levels as no chain of instances has show the whole depth.
pub fn levels_show_depth()
    ensures { (next : List ℕ → List (List ℕ)) (k : ℕ) (a : List ℕ) → has_chain next k a ≡ false
        → depth next (suc k) a ≡ depth next k a }
{}

/// Of each list of block types none holds itself and none is too deep, or the list has a fault that isn't `Memory`.
pub fn sound_or_not()
    ensures { (blocks : List PlainBlock)
        → (NoneHoldsItself blocks × NoneTooDeep blocks)
        ⊎ ((f : NestingFault) × IsNestingFault blocks f × (f ≢ fault.Memory)) }
{}

/// A list of block types has, `Memory` apart, at most one fault, and none where it has an order.
pub fn one_nesting_fault()
    ensures one { (blocks : List PlainBlock) (f g : NestingFault) → IsNestingFault blocks f
        → IsNestingFault blocks g → f ≢ fault.Memory → g ≢ fault.Memory → f ≡ g }
    ensures apart { (blocks : List PlainBlock) (order : List ℕ) (f : NestingFault)
        → AreOrdered blocks order → IsNestingFault blocks f → f ≡ fault.Memory }
{}
