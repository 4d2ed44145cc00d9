//! The consequences of the definitions alone: the meaning of fields as a member, for each kind, in the guide's words. Each law is the
//! contract of a function that does nothing.
ghost use Rattle.std.specs.Prelude.{◌≡◌, ◌≢◌, ◌↔◌, ◌<◌, ◌^◌, ◌++◌, ◌⊎◌, ℕ, [], ◌∷◌, List, Option, Some, None, true, false, map};
ghost use Rattle.std.proofs.Common.{inl, inr};
ghost use Rattle.std.specs.List.{AllByRecursion};
ghost use Rattle.std.specs.Map.{lookup};
ghost use Rattle.std.specs.Option.{option_map};
ghost use Rattle.std.specs.Str.{is_utf8};
ghost use Rattle.std.specs.BTreeMap.{is_at};
ghost use Rattle.ttrpc_wire.specs.Field.{Field, Fits};
ghost use Rattle.ttrpc_wire.specs.Fold.{folded};
ghost use Rattle.ttrpc_members.specs.Items.{as_fixed32, as_fixed64, as_varint, boolean_of, bytes, nested, text};
ghost use Rattle.ttrpc_members.specs.Kinds.{optional, packed, repeated, single};
ghost use Rattle.ttrpc_members.specs.Maps.{entry_item, map_of};
ghost use Rattle.ttrpc_members.specs.Meaning.{Numbers, all_numbers, bytes_in, fixed32s_in, fixed64s_in, items_in, last_at, last_or, message_value, numbers_value, one_more_choice, values_at, varints_in};
ghost use Rattle.ttrpc_members.specs.Schema.{flat, member};

use crate::coding::{Coding32, Coding64};
use crate::item::ItemKind;
use ttrpc_wire::codec::message::WireMessage;

/// States that a scalar is the last value of its number that has its wire type, or 0, or empty. This holds for a number as a varint, as
/// eight bytes or as four, for bytes, and for a text, if each value is one. A `bool` is false only for 0.
pub fn a_scalar_is_its_last_value<C: Coding64, D: Coding32>()
    // A number is decoded from the last varint, eight bytes or four bytes of its field, or from 0.
    ensures varint { (number : ℕ) (fields : List Field)
        → folded (member number (single (as_varint C.coding))).step (C.coding.decode 0) fields
        ≡ Some (C.coding.decode (last_or 0 (varints_in (values_at number fields)))) }
    ensures fixed64 { (number : ℕ) (fields : List Field)
        → folded (member number (single (as_fixed64 C.coding))).step (C.coding.decode 0) fields
        ≡ Some (C.coding.decode (last_or 0 (fixed64s_in (values_at number fields)))) }
    ensures fixed32 { (number : ℕ) (fields : List Field)
        → folded (member number (single (as_fixed32 D.coding))).step (D.coding.decode 0) fields
        ≡ Some (D.coding.decode (last_or 0 (fixed32s_in (values_at number fields)))) }
    // Bytes are the last ones of their field, or empty. So is a text, if each value of its field is valid UTF-8.
    ensures in_bytes { (number : ℕ) (fields : List Field)
        → folded (member number (single bytes)).step [] fields
        ≡ Some (last_or [] (bytes_in (values_at number fields))) }
    ensures in_text { (number : ℕ) (fields : List Field)
        → AllByRecursion (λ b. is_utf8 b ≡ true) (bytes_in (values_at number fields))
        → folded (member number (single text)).step [] fields
        ≡ Some (last_or [] (bytes_in (values_at number fields))) }
    // A `bool` is false exactly for 0.
    ensures truth { (n : ℕ) → (boolean_of n ≡ false) ↔ (n ≡ 0) }
{}

/// States that a list has all values of its number in order, each read by itself. Numbers come one by one or several in a value, in any
/// mixture, and are joined.
pub fn a_list_has_all_values_in_order<C: Coding64, I: ItemKind>()
    ensures one_by_one { (number : ℕ) (fields : List Field)
        → folded (member number (repeated I.form)).step [] fields
        ≡ items_in I.form (values_at number fields) }
    ensures joined { (number : ℕ) (fields : List Field) (parts : List Numbers)
        → AllByRecursion (λ n. n < 2 ^ 64) (all_numbers parts)
        → values_at number fields ≡ map numbers_value parts
        → folded (member number (packed (as_varint C.coding))).step [] fields
        ≡ Some (map C.coding.decode (all_numbers parts)) }
{}

/// States that a message that comes in several values has the fields of all of them, one after the other.
pub fn a_message_is_all_its_parts<M: WireMessage>()
    ensures { (number : ℕ) (fields first : List Field) (parts : List (List Field))
        → AllByRecursion (λ part. AllByRecursion Fits part) (first ∷ parts)
        → values_at number fields ≡ map message_value (first ∷ parts)
        → folded (member number (optional (nested M.is_value M.empty M.step M.fields))).step
        None fields ≡ option_map (λ m. Some m) (folded M.step M.empty (flat (first ∷ parts))) }
{}

/// States that a map has for each key the value of the last entry with that key, and nothing for a key that no entry has.
pub fn a_map_has_the_last_entry_of_a_key<K: ItemKind, V: ItemKind>()
where
    K::Item: Ord,
    ensures { (number : ℕ) (fields : List Field) (entries : List (K.Item × V.Item))
        → items_in (entry_item K.form V.form) (values_at number fields) ≡ Some entries
        → (all : List (K.Item × V.Item))
        × (folded (member number (map_of K.Item.cmp (entry_item K.form V.form))).step [] fields
        ≡ Some all)
        × ((key : K.Item)
        → lookup (is_at (K.Item.cmp key)) all ≡ last_at (is_at (K.Item.cmp key)) None entries) }
{}

/// Some members in a choice: at most one of them is set.
pub trait Members: Sized {
    ghost use Rattle.std.specs.Prelude.{◌≡◌, Option, Some, None, false};
    ghost use Rattle.ttrpc_wire.specs.Field.{Field};
    ghost use Rattle.ttrpc_members.specs.Choices.{Choices};
    ghost use Rattle.ttrpc_members.specs.Laws.{is_among};

    /// The numbers of the members, and how each is written and read.
    ghost choices: { Choices Self };

    /// Fields of other numbers set none of the members.
    ghost passes: { (set : Option Self) (field : Field)
        → is_among field.number Self.choices.numbers ≡ false
        → Self.choices.read set field ≡ Some None };
}

/// States that in a choice of members the last one that a field sets is set, whatever was set before. The member begins anew if another was
/// set, and continues its old value if it was set itself.
pub fn a_oneof_has_the_last_member_set<S: Members, I: ItemKind>()
    ensures begins { (number : ℕ) (fields : List Field) (field : Field)
        (before : Option (S ⊎ I.Item)) (item : I.Item)
        → folded (one_more_choice S.choices number I.form).step None fields ≡ Some before
        → field.number ≡ number → ((old : I.Item) → before ≢ Some (inr old))
        → I.form.read I.form.first field.value ≡ Some (Some item)
        → folded (one_more_choice S.choices number I.form).step None (fields ++ field ∷ [])
        ≡ Some (Some (inr item)) }
    ensures goes_on { (number : ℕ) (fields : List Field) (field : Field) (old item : I.Item)
        → folded (one_more_choice S.choices number I.form).step None fields ≡ Some (Some (inr old))
        → field.number ≡ number → I.form.read old field.value ≡ Some (Some item)
        → folded (one_more_choice S.choices number I.form).step None (fields ++ field ∷ [])
        ≡ Some (Some (inr item)) }
    ensures ends { (number : ℕ) (fields : List Field) (field : Field) (old : I.Item) (other : S)
        → folded (one_more_choice S.choices number I.form).step None fields ≡ Some (Some (inr old))
        → field.number ≢ number → S.choices.read None field ≡ Some (Some other)
        → folded (one_more_choice S.choices number I.form).step None (fields ++ field ∷ [])
        ≡ Some (Some (inl other)) }
{}
