//! Laws that follow from the definitions alone. A law is the contract of a function that does nothing.
ghost use Rattle.std.specs.Prelude.{◌≡◌, ◌<◌, ◌≤◌, ℕ, pos};
ghost use Rattle.ttrpc_wire.specs.declared.values.code.Code.{Code};
ghost use Rattle.ttrpc_wire.specs.declared.values.code.Code.TheVariants.{UNKNOWN};
ghost use Rattle.ttrpc_wire.specs.Code.{code_of_number, number_of_code};

/// States that no two codes have the same number. The numbers from 0 to 16 are the codes' numbers, and each greater
/// number means `UNKNOWN`.
pub fn code_is_one_to_one()
    ensures codes { (c : Code) → code_of_number (number_of_code c) ≡ c }
    ensures numbers { (n : ℕ) → n ≤ 16 → number_of_code (code_of_number (pos n)) ≡ pos n }
    ensures others { (n : ℕ) → 16 < n → code_of_number (pos n) ≡ UNKNOWN }
{}
