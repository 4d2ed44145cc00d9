//! Laws that follow from the definitions alone. Each law is the contract of a function that does nothing.
ghost use Rattle.std.specs.Prelude.{◌≡◌, ◌+◌, ◌≤◌, ◌<◌, ◌^◌, ◌↔◌, ℕ, ℤ, List, [], ◌++◌, length, Some, FitsSigned};
ghost use Rattle.std.specs.List.{AllByRecursion};
ghost use Rattle.std.specs.Int.{w32, w64};
ghost use Rattle.ttrpc_wire.specs.Varint.{IsVarint, varint};
ghost use Rattle.ttrpc_wire.specs.Number.{number_of, int64_of, int32_of};
ghost use Rattle.ttrpc_wire.specs.Field.{Field, IsField, IsFields, Fits, field_bytes, fields_bytes};
ghost use Rattle.ttrpc_wire.specs.Front.{Begins};
ghost use Rattle.ttrpc_wire.specs.Reading.{fields_of};

/// States that bytes are at most one list of fields.
pub fn one_list_of_fields()
    ensures { (bytes : List ℕ) (fs gs : List Field)
        → IsFields bytes fs → IsFields bytes gs → fs ≡ gs }
{}

/// States that bytes begin with at most one field, and so determine the bytes after it.
pub fn one_field_at_the_front()
    ensures { (bytes rest rest' : List ℕ) (f g : Field)
        → Begins IsField bytes f rest → Begins IsField bytes g rest' → (f ≡ g) × (rest ≡ rest') }
{}

/// States that no encoding of a varint begins another, and that each encoding has one number.
pub fn no_varint_begins_another()
    ensures { (bytes more : List ℕ) (m n : ℕ)
        → IsVarint bytes m → IsVarint (bytes ++ more) n → (m ≡ n) × (more ≡ []) }
{}

/// States that the varint which is written for a number of 64 bits encodes the number, and that no encoding of it is
/// shorter. The number of any encoding is less than 2^64.
pub fn varint_is_shortest()
    ensures spells { (n : ℕ) → n < 2 ^ 64 → IsVarint (varint n) n }
    ensures shortest { (bytes : List ℕ) (n : ℕ) → AllByRecursion (λ b. b < 256) bytes
        → IsVarint bytes n → length (varint n) ≤ length bytes }
    ensures fits { (bytes : List ℕ) (n : ℕ) → AllByRecursion (λ b. b < 256) bytes
        → IsVarint bytes n → n < 2 ^ 64 }
{}

/// States that a written field reads back, whatever bytes follow it. A list of written fields does so too, if the bytes
/// after it are fields.
pub fn written_reads_back()
    ensures one { (f : Field) (rest : List ℕ)
        → Fits f → Begins IsField (field_bytes f ++ rest) f rest }
    ensures all { (fs gs : List Field) (rest : List ℕ) → AllByRecursion Fits fs
        → IsFields rest gs → IsFields (fields_bytes fs ++ rest) (fs ++ gs) }
{}

/// States that the function `fields_of` returns exactly the fields of the grammar.
pub fn reading_is_exact()
    ensures { (bytes : List ℕ) (fs : List Field)
        → (fields_of bytes ≡ Some fs) ↔ IsFields bytes fs }
{}

/// States that a signed number of 64 or of 32 bits reads back from the number that is written for it.
pub fn signed_numbers_read_back()
    ensures int64 { (z : ℤ) → FitsSigned w64 z → int64_of (number_of z) ≡ z }
    ensures int32 { (z : ℤ) → FitsSigned w32 z → int32_of (number_of z) ≡ z }
{}
