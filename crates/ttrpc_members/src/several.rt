//! Members that are copied or written together, two, four or eight of them. So a message of many members has few calls, and few places at
//! which it gives up: each of these costs proof time.
ghost use Rattle.std.specs.Prelude.{◌≡◌, ◌≢◌, ◌≤◌, ◌^◌, ◌∷◌, [], IfOk, OnOk, IfErr};
ghost use Rattle.ttrpc_members.specs.Schema.{appended, fields_at, total};

use crate::kind::MemberKind;
use std::alloc::AllocError;
use ttrpc_wire::{CodecError, FieldNumber};

/// Copies two members.
pub fn clone_two<A: MemberKind, B: MemberKind>(
    a: &A::Member,
    b: &B::Member,
) -> Result<(A::Member, B::Member), AllocError>
    ensures { IfOk result (λ copies. copies ≡ (a.now, b.now)) }
{
    let a = A::try_clone(a)?;
    let b = B::try_clone(b)?;
    Ok((a, b))
}

/// Writes two members, each with its number. The error is `TooLong` if they are 2^32 bytes or longer. After an error some of them may have
/// been written.
pub fn write_two<A: MemberKind, B: MemberKind>(
    a: (&A::Member, FieldNumber),
    b: (&B::Member, FieldNumber),
    out: &mut Vec<u8>,
) -> Result<(), CodecError>
    ensures ok { OnOk result (out.new.items
        ≡ appended out.old.items (fields_at a.entry.1.value (A.kind.values a.entry.0.now)
        ∷ fields_at b.entry.1.value (B.kind.values b.entry.0.now) ∷ [])) }
    ensures too_long { IfErr result (λ why. why ≢ CodecError.NoMemory → (why ≡ CodecError.TooLong)
        × (2 ^ 32 ≤ total (fields_at a.entry.1.value (A.kind.values a.entry.0.now)
        ∷ fields_at b.entry.1.value (B.kind.values b.entry.0.now) ∷ []))) }
{
    A::write(a.0, a.1, out)?;
    B::write(b.0, b.1, out)
}

/// Copies four members.
pub fn clone_four<A: MemberKind, B: MemberKind, C: MemberKind, D: MemberKind>(
    a: &A::Member,
    b: &B::Member,
    c: &C::Member,
    d: &D::Member,
) -> Result<(A::Member, B::Member, C::Member, D::Member), AllocError>
    ensures { IfOk result (λ copies. copies ≡ (a.now, b.now, c.now, d.now)) }
{
    let (a, b) = clone_two::<A, B>(a, b)?;
    let (c, d) = clone_two::<C, D>(c, d)?;
    Ok((a, b, c, d))
}

/// Writes four members, each with its number. The error is `TooLong` if they are 2^32 bytes or longer. After an error some of them may have
/// been written.
pub fn write_four<A: MemberKind, B: MemberKind, C: MemberKind, D: MemberKind>(
    a: (&A::Member, FieldNumber),
    b: (&B::Member, FieldNumber),
    c: (&C::Member, FieldNumber),
    d: (&D::Member, FieldNumber),
    out: &mut Vec<u8>,
) -> Result<(), CodecError>
    ensures ok { OnOk result (out.new.items ≡ appended out.old.items (fields_at a.entry.1.value
        (A.kind.values a.entry.0.now) ∷ fields_at b.entry.1.value (B.kind.values b.entry.0.now)
        ∷ fields_at c.entry.1.value (C.kind.values c.entry.0.now)
        ∷ fields_at d.entry.1.value (D.kind.values d.entry.0.now) ∷ [])) }
    ensures too_long { IfErr result (λ why. why ≢ CodecError.NoMemory → (why ≡ CodecError.TooLong)
        × (2 ^ 32 ≤ total (fields_at a.entry.1.value (A.kind.values a.entry.0.now)
        ∷ fields_at b.entry.1.value (B.kind.values b.entry.0.now)
        ∷ fields_at c.entry.1.value (C.kind.values c.entry.0.now)
        ∷ fields_at d.entry.1.value (D.kind.values d.entry.0.now) ∷ []))) }
{
    write_two::<A, B>(a, b, out)?;
    write_two::<C, D>(c, d, out)
}

/// Copies eight members.
pub fn clone_eight<
    A: MemberKind,
    B: MemberKind,
    C: MemberKind,
    D: MemberKind,
    E: MemberKind,
    F: MemberKind,
    G: MemberKind,
    H: MemberKind,
>(
    a: &A::Member,
    b: &B::Member,
    c: &C::Member,
    d: &D::Member,
    e: &E::Member,
    f: &F::Member,
    g: &G::Member,
    h: &H::Member,
) -> Result<
    (
        A::Member,
        B::Member,
        C::Member,
        D::Member,
        E::Member,
        F::Member,
        G::Member,
        H::Member,
    ),
    AllocError,
>
    ensures { IfOk result
        (λ copies. copies ≡ (a.now, b.now, c.now, d.now, e.now, f.now, g.now, h.now)) }
{
    let (a, b, c, d) = clone_four::<A, B, C, D>(a, b, c, d)?;
    let (e, f, g, h) = clone_four::<E, F, G, H>(e, f, g, h)?;
    Ok((a, b, c, d, e, f, g, h))
}

/// Writes eight members, each with its number. The error is `TooLong` if they are 2^32 bytes or longer. After an error some of them may
/// have been written.
pub fn write_eight<
    A: MemberKind,
    B: MemberKind,
    C: MemberKind,
    D: MemberKind,
    E: MemberKind,
    F: MemberKind,
    G: MemberKind,
    H: MemberKind,
>(
    a: (&A::Member, FieldNumber),
    b: (&B::Member, FieldNumber),
    c: (&C::Member, FieldNumber),
    d: (&D::Member, FieldNumber),
    e: (&E::Member, FieldNumber),
    f: (&F::Member, FieldNumber),
    g: (&G::Member, FieldNumber),
    h: (&H::Member, FieldNumber),
    out: &mut Vec<u8>,
) -> Result<(), CodecError>
    ensures ok { OnOk result (out.new.items ≡ appended out.old.items (fields_at a.entry.1.value
        (A.kind.values a.entry.0.now) ∷ fields_at b.entry.1.value (B.kind.values b.entry.0.now)
        ∷ fields_at c.entry.1.value (C.kind.values c.entry.0.now)
        ∷ fields_at d.entry.1.value (D.kind.values d.entry.0.now)
        ∷ fields_at e.entry.1.value (E.kind.values e.entry.0.now)
        ∷ fields_at f.entry.1.value (F.kind.values f.entry.0.now)
        ∷ fields_at g.entry.1.value (G.kind.values g.entry.0.now)
        ∷ fields_at h.entry.1.value (H.kind.values h.entry.0.now) ∷ [])) }
    ensures too_long { IfErr result (λ why. why ≢ CodecError.NoMemory → (why ≡ CodecError.TooLong)
        × (2 ^ 32 ≤ total (fields_at a.entry.1.value (A.kind.values a.entry.0.now)
        ∷ fields_at b.entry.1.value (B.kind.values b.entry.0.now)
        ∷ fields_at c.entry.1.value (C.kind.values c.entry.0.now)
        ∷ fields_at d.entry.1.value (D.kind.values d.entry.0.now)
        ∷ fields_at e.entry.1.value (E.kind.values e.entry.0.now)
        ∷ fields_at f.entry.1.value (F.kind.values f.entry.0.now)
        ∷ fields_at g.entry.1.value (G.kind.values g.entry.0.now)
        ∷ fields_at h.entry.1.value (H.kind.values h.entry.0.now) ∷ []))) }
{
    write_four::<A, B, C, D>(a, b, c, d, out)?;
    write_four::<E, F, G, H>(e, f, g, h, out)
}
