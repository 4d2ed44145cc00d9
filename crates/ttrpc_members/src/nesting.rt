//! The rules for the bytes of a message that may contain itself, and the limit of its nesting.
ghost use Rattle.std.specs.Prelude.{◌≡◌, ◌-◌, ℕ, List, Option, IfErr};
ghost use Rattle.ttrpc_wire.specs.Seen.{seen};
ghost use Rattle.ttrpc_wire.specs.Fold.{Gives};
ghost use Rattle.ttrpc_wire.specs.Reading.{Reads};
ghost use Rattle.ttrpc_members.specs.Nesting.{TellsDepth, content_in, content_from as content_of_first, content_of as content_by, field_in, nested_upto, numbers_in, text_in, within};

use ttrpc_wire::{CodecError, Field, Reader, Value, WireType};

/// The content that is required of a member's length-delimited value.
#[derive(Clone, Copy)]
pub enum Content {
    /// A text.
    Text,
    /// Numbers of this wire type, one after the other.
    Numbers(WireType),
    /// The message with its first rule at this place among all rules.
    Message(u32),
}

/// The rule for the values of one member: the place of its message's first rule among all rules, its number, and the required content.
#[derive(Clone, Copy)]
pub struct Rule {
    pub message: u32,
    pub number: u32,
    pub content: Content,
}

/// A message that may contain the one that it is in: the rules for it and for all messages that may be in it.
pub trait Recursive {
    ghost use Rattle.ttrpc_members.specs.declared.nesting.Rule.{Rule};

    /// The rules.
    ghost rules: { List Rule };

    /// The place of the message's first rule among all rules, which are in the order of their messages.
    ghost message: { ℕ };

    /// Returns the rules.
    fn rules() -> &'static [Rule]
        ensures { result.now ≡ rules };

    /// Returns the place of the message's first rule among all rules.
    fn message() -> u32
        ensures { result ≡ message };
}

/// The most levels of messages in a message.
const LEVELS: u32 = 100;

/// Checks that the bytes are fields of the message, and of the messages in it, in at most 100 levels. An error other than `TooDeep` comes
/// only if they are not, in whatever number of levels. Takes no memory.
#[tactic(auto, unfolding(crate::specs::Nesting::within))]
pub fn check<R: Recursive>(bytes: &[u8]) -> Result<(), CodecError>
    ensures taken { Gives (λ _. tt) result (within R.rules R.message bytes.now) }
    ensures told { IfErr result
        (λ e. TellsDepth e (λ k. nested_upto R.rules k R.message bytes.now)) }
{
    check_message(R::rules(), R::message(), bytes, LEVELS)
}

/// Checks that the bytes are fields of the message, in at most `levels` levels.
#[cycle(check)]
fn check_message(rules: &[Rule], message: u32, bytes: &[u8], levels: u32) -> Result<(), CodecError>
    ensures taken { Gives (λ _. tt) result (nested_upto rules.now levels message bytes.now) }
    ensures told { IfErr result
        (λ e. TellsDepth e (λ k. nested_upto rules.now k message bytes.now)) }
{
    if levels == 0 {
        return Err(CodecError::TooDeep);
    }
    let mut reader = Reader::new(bytes);
    while !reader.is_empty() {
        let field = reader.field()?;
        check_field(rules, message, field, levels - 1)?;
    }
    Ok(())
}

/// Checks that a field, and the fields in it, are as the rules require, in at most `levels` levels.
#[cycle(check)]
fn check_field(
    rules: &[Rule],
    message: u32,
    field: Field<'_>,
    levels: u32,
) -> Result<(), CodecError>
    ensures taken { Gives (λ _. tt) result (field_in rules.now
        (λ m b. nested_upto rules.now levels m b) message tt (seen field.entry)) }
    ensures told { IfErr result (λ e. TellsDepth e (λ k. field_in rules.now
        (λ m b. nested_upto rules.now k m b) message tt (seen field.entry))) }
{
    let Value::LengthDelimited(bytes) = field.value else {
        return Ok(());
    };
    match content_of(rules, message, field.number.value) {
        None => Ok(()),
        Some(Content::Text) => check_text(bytes),
        Some(Content::Numbers(wire_type)) => check_numbers(wire_type, bytes),
        Some(Content::Message(inner)) => check_message(rules, inner, bytes, levels),
    }
}

/// Returns the content that the rules require of a member. The rules of its message lie together, from its place on.
fn content_of(rules: &[Rule], message: u32, number: u32) -> Option<Content>
    ensures { result ≡ content_by rules.now message number }
{
    if message as usize >= rules.len() {
        return None;
    }
    content_from(&rules[message as usize..], message, number)
}

/// Returns the content that the first of these rules require of a member of their message, up to the first rule of another message.
fn content_from(rules: &[Rule], message: u32, number: u32) -> Option<Content>
    ensures { result ≡ content_of_first rules.now message number }
{
    for rule in rules {
        if rule.message != message {
            return None;
        }
        if rule.number == number {
            return Some(rule.content);
        }
    }
    None
}

/// Checks that the bytes are a text. `BadUtf8` is the only error.
fn check_text(bytes: &[u8]) -> Result<(), CodecError>
    ensures taken { Reads (λ _. tt) result (text_in bytes.now) }
    ensures told { IfErr result (λ e. e ≡ CodecError.BadUtf8) }
{
    match std::str::from_utf8(bytes) {
        Ok(_) => Ok(()),
        Err(_) => Err(CodecError::BadUtf8),
    }
}

/// Checks that the bytes are numbers of this wire type.
fn check_numbers(wire_type: WireType, bytes: &[u8]) -> Result<(), CodecError>
    ensures { Reads (λ _. tt) result (numbers_in wire_type bytes.now) }
{
    let mut reader = Reader::new(bytes);
    while !reader.is_empty() {
        reader.value(wire_type)?;
    }
    Ok(())
}
