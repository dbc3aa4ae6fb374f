//! Laws of the function in which an address lies: contracts of functions with an empty body.

ghost use Rattle.std.specs.Prelude.{List, ℕ};
ghost use Rattle.elf_symbols.specs.Addresses.{IsAt, function_at};
ghost use Rattle.elf_symbols.specs.declared.symbols.Function.{Function as Named};

/// The answer is a function of the list in which the address lies, and none of them is nearer in which it lies too;
/// there is none where the address lies in no function of the list.
pub fn answers_are_nearest()
    ensures { (fs : List Named) (address : ℕ) → IsAt fs address (function_at fs address) }
{}
