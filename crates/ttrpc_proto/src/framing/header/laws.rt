//! Laws that follow from the definitions alone. A law is the contract of a function that does nothing.
ghost use Rattle.std.specs.Prelude.{◌≡◌, ◌<◌, ℕ, List, length};
ghost use Rattle.std.specs.List.{AllByRecursion};
ghost use Rattle.ttrpc_proto.specs.declared.framing.header.MessageHeader.{MessageHeader};
ghost use Rattle.ttrpc_proto.specs.Framing.Header.{FitsHeader, header_bytes, header_of};

/// States that a written header reads back, and that ten bytes are the written form of the header that they are. So no
/// two headers have the same bytes, and no two lists of ten bytes are the same header.
pub fn header_is_one_to_one()
    // Either form gives the other back.
    ensures reads_back { (h : MessageHeader) → FitsHeader h → header_of (header_bytes h) ≡ h }
    ensures writes_back { (bytes : List ℕ) → length bytes ≡ 10 → AllByRecursion (λ b. b < 256) bytes
        → header_bytes (header_of bytes) ≡ bytes }
    // So no two headers, and no two lists of bytes, are mistaken for each other.
    ensures one_header { (g h : MessageHeader) → FitsHeader g → FitsHeader h
        → header_bytes g ≡ header_bytes h → g ≡ h }
    ensures one_spelling { (xs ys : List ℕ) → length xs ≡ 10 → length ys ≡ 10
        → AllByRecursion (λ b. b < 256) xs → AllByRecursion (λ b. b < 256) ys
        → header_of xs ≡ header_of ys → xs ≡ ys }
    // Ten bytes never state a number that is too great for its field.
    ensures fits { (bytes : List ℕ) → AllByRecursion (λ b. b < 256) bytes
        → FitsHeader (header_of bytes) }
{}
