//! The switch for TCP's delay.
ghost use Rattle.std.specs.Prelude.{◌≡◌, ◌↔◌, IsTrue, IsSomeAnd};
ghost use Rattle.ttrpc_transport.specs.Address.Addresses.{SaysYes};

/// Returns whether TCP is to send each write at once, by the value of `TTRPC_TCP_NODELAY_ENABLED`, if there is one. It is if the value is
/// `1`, or `true` in letters of either case. Takes no memory.
pub fn nodelay_from(value: Option<&str>) -> bool
    ensures { IsTrue result ↔ IsSomeAnd value.entry (λ text. SaysYes text.now) }
{
    match value {
        Some(text) => text == "1" || text.eq_ignore_ascii_case("true"),
        None => false,
    }
}
