//! The messages of kinds.proto.
//! Written by tools/messages from kinds.proto: change that, and run the tool.

use std::alloc::{AllocError, Global};
use ttrpc_members::choice::Choice;
use ttrpc_members::enclosed::{Enclosable, Enclosed, Enclosing};
use ttrpc_members::entries::MapOf;
use ttrpc_members::item::{
    Bits32, Bits64, Boolean, Bytes, Int32, Int64, ItemKind, Nested, Signed32, Signed64, Sint32,
    Sint64, Uint32, Uint64, Utf8,
};
use ttrpc_members::kind::{MemberKind, Optional, Packed, Repeated, Single, item_len, put_item};
use ttrpc_members::map::Map;
use ttrpc_members::named::Named;
use ttrpc_members::nesting::{Content, Recursive, Rule};
use ttrpc_members::several::{
    clone_eight, clone_four, clone_two, write_eight, write_four, write_two,
};
use ttrpc_wire::codec::message::WireMessage;
use ttrpc_wire::{Blob, CodecError, Field, FieldNumber, Sequence, Text, TryClone, Value, WireType};

/// The number of `UNKNOWN` of the enum `test.kinds.Way`.
pub const WAY_UNKNOWN: i32 = 0;

/// The number of `LEFT` of the enum `test.kinds.Way`.
pub const WAY_LEFT: i32 = 1;

/// The number of `RIGHT` of the enum `test.kinds.Way`.
pub const WAY_RIGHT: i32 = -2;

/// A point in time.
#[derive(Drop)]
pub struct Timestamp {
    /// Seconds since the beginning of 1970.
    pub seconds: i64,
    /// Nanoseconds of the second.
    pub nanos: i32,
}

const TIMESTAMP_SECONDS: FieldNumber = FieldNumber { value: 1 };

const TIMESTAMP_NANOS: FieldNumber = FieldNumber { value: 2 };

impl TryClone for Timestamp {
    fn try_clone(&self) -> Result<Timestamp, AllocError> {
        Ok(Timestamp {
            seconds: self.seconds,
            nanos: self.nanos,
        })
    }
}

impl WireMessage for Timestamp {
    ghost use Rattle.ttrpc_test_members.specs.Messages.{timestamp};

    ghost is_value = { timestamp.part.is_value };

    ghost empty = { timestamp.part.empty };

    ghost step = { timestamp.part.step };

    ghost fields = { timestamp.part.fields };

    fn new(alloc: Global) -> Timestamp {
        Timestamp {
            seconds: Single::<Int64>::empty(alloc),
            nanos: Single::<Int32>::empty(alloc),
        }
    }

    fn put(&mut self, alloc: Global, field: Field<'_>) -> Result<(), CodecError> {
        match field.number.value {
            1 => Single::<Int64>::take(&mut self.seconds, alloc, field.value),
            2 => Single::<Int32>::take(&mut self.nanos, alloc, field.value),
            _ => Ok(()),
        }
    }

    #[tactic(auto, using(ttrpc_members::proofs::Groups::flat_measured))]
    fn length(&self) -> u64 {
        let len: u64 = 0;
        let len = len.saturating_add(Single::<Int64>::length(&self.seconds, TIMESTAMP_SECONDS));
        len.saturating_add(Single::<Int32>::length(&self.nanos, TIMESTAMP_NANOS))
    }

    #[tactic(auto, using(ttrpc_members::proofs::Groups::flat_written, ttrpc_members::proofs::Groups::flat_len))]
    fn write(&self, out: &mut Vec<u8>) -> Result<(), CodecError> {
        Single::<Int64>::write(&self.seconds, TIMESTAMP_SECONDS, out)?;
        Single::<Int32>::write(&self.nanos, TIMESTAMP_NANOS, out)
    }

    fn lemma_is_value(&self) {
        Single::<Int64>::lemma_is_value(&self.seconds);
        Single::<Int32>::lemma_is_value(&self.nanos);
    }

    ghost again = { timestamp.laws.again timestamp.valid };

    ghost fits = { timestamp.laws.fits timestamp.valid };
}

impl Named for Timestamp {
    ghost use Rattle.std.specs.Prelude.{codes};

    ghost full_name = { codes "google.protobuf.Timestamp" };

    fn full_name() -> &'static str {
        "google.protobuf.Timestamp"
    }
}

/// One number of every kind.
#[derive(Drop)]
pub struct Figures {
    /// Field 1.
    pub a: i32,
    /// Field 2.
    pub b: i64,
    /// Field 3.
    pub c: u32,
    /// Field 4.
    pub d: u64,
    /// Field 5.
    pub e: i32,
    /// Field 6.
    pub f: i64,
    /// Field 7.
    pub g: bool,
    /// Field 8.
    pub h: u32,
    /// Field 9.
    pub i: u64,
    /// Field 10.
    pub j: i32,
    /// Field 11.
    pub k: i64,
    /// Field 12.
    pub l: u32,
    /// Field 13.
    pub m: u64,
    /// Field 14.
    pub n: i32,
}

const FIGURES_A: FieldNumber = FieldNumber { value: 1 };

const FIGURES_B: FieldNumber = FieldNumber { value: 2 };

const FIGURES_C: FieldNumber = FieldNumber { value: 3 };

const FIGURES_D: FieldNumber = FieldNumber { value: 4 };

const FIGURES_E: FieldNumber = FieldNumber { value: 5 };

const FIGURES_F: FieldNumber = FieldNumber { value: 6 };

const FIGURES_G: FieldNumber = FieldNumber { value: 7 };

const FIGURES_H: FieldNumber = FieldNumber { value: 8 };

const FIGURES_I: FieldNumber = FieldNumber { value: 9 };

const FIGURES_J: FieldNumber = FieldNumber { value: 10 };

const FIGURES_K: FieldNumber = FieldNumber { value: 11 };

const FIGURES_L: FieldNumber = FieldNumber { value: 12 };

const FIGURES_M: FieldNumber = FieldNumber { value: 13 };

const FIGURES_N: FieldNumber = FieldNumber { value: 14 };

impl TryClone for Figures {
    fn try_clone(&self) -> Result<Figures, AllocError> {
        Ok(Figures {
            a: self.a,
            b: self.b,
            c: self.c,
            d: self.d,
            e: self.e,
            f: self.f,
            g: self.g,
            h: self.h,
            i: self.i,
            j: self.j,
            k: self.k,
            l: self.l,
            m: self.m,
            n: self.n,
        })
    }
}

impl WireMessage for Figures {
    ghost use Rattle.ttrpc_test_members.specs.Messages.{figures};

    ghost is_value = { figures.part.is_value };

    ghost empty = { figures.part.empty };

    ghost step = { figures.part.step };

    ghost fields = { figures.part.fields };

    fn new(alloc: Global) -> Figures {
        Figures {
            a: Single::<Int32>::empty(alloc),
            b: Single::<Int64>::empty(alloc),
            c: Single::<Uint32>::empty(alloc),
            d: Single::<Uint64>::empty(alloc),
            e: Single::<Sint32>::empty(alloc),
            f: Single::<Sint64>::empty(alloc),
            g: Single::<Boolean>::empty(alloc),
            h: Single::<Bits32>::empty(alloc),
            i: Single::<Bits64>::empty(alloc),
            j: Single::<Signed32>::empty(alloc),
            k: Single::<Signed64>::empty(alloc),
            l: Single::<Bits32>::empty(alloc),
            m: Single::<Bits64>::empty(alloc),
            n: Single::<Int32>::empty(alloc),
        }
    }

    fn put(&mut self, alloc: Global, field: Field<'_>) -> Result<(), CodecError> {
        match field.number.value {
            1 => Single::<Int32>::take(&mut self.a, alloc, field.value),
            2 => Single::<Int64>::take(&mut self.b, alloc, field.value),
            3 => Single::<Uint32>::take(&mut self.c, alloc, field.value),
            4 => Single::<Uint64>::take(&mut self.d, alloc, field.value),
            5 => Single::<Sint32>::take(&mut self.e, alloc, field.value),
            6 => Single::<Sint64>::take(&mut self.f, alloc, field.value),
            7 => Single::<Boolean>::take(&mut self.g, alloc, field.value),
            8 => Single::<Bits32>::take(&mut self.h, alloc, field.value),
            9 => Single::<Bits64>::take(&mut self.i, alloc, field.value),
            10 => Single::<Signed32>::take(&mut self.j, alloc, field.value),
            11 => Single::<Signed64>::take(&mut self.k, alloc, field.value),
            12 => Single::<Bits32>::take(&mut self.l, alloc, field.value),
            13 => Single::<Bits64>::take(&mut self.m, alloc, field.value),
            14 => Single::<Int32>::take(&mut self.n, alloc, field.value),
            _ => Ok(()),
        }
    }

    #[tactic(auto, using(ttrpc_members::proofs::Groups::flat_measured))]
    fn length(&self) -> u64 {
        let len: u64 = 0;
        let len = len.saturating_add(Single::<Int32>::length(&self.a, FIGURES_A));
        let len = len.saturating_add(Single::<Int64>::length(&self.b, FIGURES_B));
        let len = len.saturating_add(Single::<Uint32>::length(&self.c, FIGURES_C));
        let len = len.saturating_add(Single::<Uint64>::length(&self.d, FIGURES_D));
        let len = len.saturating_add(Single::<Sint32>::length(&self.e, FIGURES_E));
        let len = len.saturating_add(Single::<Sint64>::length(&self.f, FIGURES_F));
        let len = len.saturating_add(Single::<Boolean>::length(&self.g, FIGURES_G));
        let len = len.saturating_add(Single::<Bits32>::length(&self.h, FIGURES_H));
        let len = len.saturating_add(Single::<Bits64>::length(&self.i, FIGURES_I));
        let len = len.saturating_add(Single::<Signed32>::length(&self.j, FIGURES_J));
        let len = len.saturating_add(Single::<Signed64>::length(&self.k, FIGURES_K));
        let len = len.saturating_add(Single::<Bits32>::length(&self.l, FIGURES_L));
        let len = len.saturating_add(Single::<Bits64>::length(&self.m, FIGURES_M));
        len.saturating_add(Single::<Int32>::length(&self.n, FIGURES_N))
    }

    #[tactic(auto, using(ttrpc_members::proofs::Groups::flat_written, ttrpc_members::proofs::Groups::flat_len))]
    fn write(&self, out: &mut Vec<u8>) -> Result<(), CodecError> {
        write_eight::<
            Single<Int32>,
            Single<Int64>,
            Single<Uint32>,
            Single<Uint64>,
            Single<Sint32>,
            Single<Sint64>,
            Single<Boolean>,
            Single<Bits32>,
        >(
            (&self.a, FIGURES_A),
            (&self.b, FIGURES_B),
            (&self.c, FIGURES_C),
            (&self.d, FIGURES_D),
            (&self.e, FIGURES_E),
            (&self.f, FIGURES_F),
            (&self.g, FIGURES_G),
            (&self.h, FIGURES_H),
            out,
        )?;
        write_four::<Single<Bits64>, Single<Signed32>, Single<Signed64>, Single<Bits32>>(
            (&self.i, FIGURES_I),
            (&self.j, FIGURES_J),
            (&self.k, FIGURES_K),
            (&self.l, FIGURES_L),
            out,
        )?;
        write_two::<Single<Bits64>, Single<Int32>>((&self.m, FIGURES_M), (&self.n, FIGURES_N), out)
    }

    fn lemma_is_value(&self) {
        Single::<Int32>::lemma_is_value(&self.a);
        Single::<Int64>::lemma_is_value(&self.b);
        Single::<Uint32>::lemma_is_value(&self.c);
        Single::<Uint64>::lemma_is_value(&self.d);
        Single::<Sint32>::lemma_is_value(&self.e);
        Single::<Sint64>::lemma_is_value(&self.f);
        Single::<Boolean>::lemma_is_value(&self.g);
        Single::<Bits32>::lemma_is_value(&self.h);
        Single::<Bits64>::lemma_is_value(&self.i);
        Single::<Signed32>::lemma_is_value(&self.j);
        Single::<Signed64>::lemma_is_value(&self.k);
        Single::<Bits32>::lemma_is_value(&self.l);
        Single::<Bits64>::lemma_is_value(&self.m);
        Single::<Int32>::lemma_is_value(&self.n);
    }

    ghost again = { figures.laws.again figures.valid };

    ghost fits = { figures.laws.fits figures.valid };
}

impl Named for Figures {
    ghost use Rattle.std.specs.Prelude.{codes};

    ghost full_name = { codes "test.kinds.Figures" };

    fn full_name() -> &'static str {
        "test.kinds.Figures"
    }
}

/// The message `test.kinds.Inner`.
#[derive(Drop)]
pub struct Inner {
    /// Field 1.
    pub name: Text,
    /// Field 2.
    pub data: Blob,
    /// Field 16.
    pub number: i32,
}

const INNER_NAME: FieldNumber = FieldNumber { value: 1 };

const INNER_DATA: FieldNumber = FieldNumber { value: 2 };

const INNER_NUMBER: FieldNumber = FieldNumber { value: 16 };

impl TryClone for Inner {
    fn try_clone(&self) -> Result<Inner, AllocError> {
        let name = Single::<Utf8>::try_clone(&self.name)?;
        let data = Single::<Bytes>::try_clone(&self.data)?;
        Ok(Inner {
            name,
            data,
            number: self.number,
        })
    }
}

impl WireMessage for Inner {
    ghost use Rattle.ttrpc_test_members.specs.Messages.{inner};

    ghost is_value = { inner.part.is_value };

    ghost empty = { inner.part.empty };

    ghost step = { inner.part.step };

    ghost fields = { inner.part.fields };

    fn new(alloc: Global) -> Inner {
        Inner {
            name: Single::<Utf8>::empty(alloc),
            data: Single::<Bytes>::empty(alloc),
            number: Single::<Sint32>::empty(alloc),
        }
    }

    fn put(&mut self, alloc: Global, field: Field<'_>) -> Result<(), CodecError> {
        match field.number.value {
            1 => Single::<Utf8>::take(&mut self.name, alloc, field.value),
            2 => Single::<Bytes>::take(&mut self.data, alloc, field.value),
            16 => Single::<Sint32>::take(&mut self.number, alloc, field.value),
            _ => Ok(()),
        }
    }

    #[tactic(auto, using(ttrpc_members::proofs::Groups::flat_measured))]
    fn length(&self) -> u64 {
        let len: u64 = 0;
        let len = len.saturating_add(Single::<Utf8>::length(&self.name, INNER_NAME));
        let len = len.saturating_add(Single::<Bytes>::length(&self.data, INNER_DATA));
        len.saturating_add(Single::<Sint32>::length(&self.number, INNER_NUMBER))
    }

    #[tactic(auto, using(ttrpc_members::proofs::Groups::flat_written, ttrpc_members::proofs::Groups::flat_len))]
    fn write(&self, out: &mut Vec<u8>) -> Result<(), CodecError> {
        Single::<Utf8>::write(&self.name, INNER_NAME, out)?;
        Single::<Bytes>::write(&self.data, INNER_DATA, out)?;
        Single::<Sint32>::write(&self.number, INNER_NUMBER, out)
    }

    fn lemma_is_value(&self) {
        Single::<Utf8>::lemma_is_value(&self.name);
        Single::<Bytes>::lemma_is_value(&self.data);
        Single::<Sint32>::lemma_is_value(&self.number);
    }

    ghost again = { inner.laws.again inner.valid };

    ghost fits = { inner.laws.fits inner.valid };
}

impl Named for Inner {
    ghost use Rattle.std.specs.Prelude.{codes};

    ghost full_name = { codes "test.kinds.Inner" };

    fn full_name() -> &'static str {
        "test.kinds.Inner"
    }
}

/// The message `test.kinds.Lists`.
#[derive(Drop)]
pub struct Lists {
    /// Field 1.
    pub ints: Sequence<i32>,
    /// Field 2.
    pub zigzags: Sequence<i64>,
    /// Field 3.
    pub doubles: Sequence<u64>,
    /// Field 4.
    pub flags: Sequence<bool>,
    /// Field 5.
    pub texts: Sequence<Text>,
    /// Field 6.
    pub blobs: Sequence<Blob>,
    /// Field 7.
    pub ways: Sequence<i32>,
    /// Field 8.
    pub inners: Sequence<Inner>,
    /// Field 9.
    pub fixeds: Sequence<u32>,
}

const LISTS_INTS: FieldNumber = FieldNumber { value: 1 };

const LISTS_ZIGZAGS: FieldNumber = FieldNumber { value: 2 };

const LISTS_DOUBLES: FieldNumber = FieldNumber { value: 3 };

const LISTS_FLAGS: FieldNumber = FieldNumber { value: 4 };

const LISTS_TEXTS: FieldNumber = FieldNumber { value: 5 };

const LISTS_BLOBS: FieldNumber = FieldNumber { value: 6 };

const LISTS_WAYS: FieldNumber = FieldNumber { value: 7 };

const LISTS_INNERS: FieldNumber = FieldNumber { value: 8 };

const LISTS_FIXEDS: FieldNumber = FieldNumber { value: 9 };

impl TryClone for Lists {
    fn try_clone(&self) -> Result<Lists, AllocError> {
        let ints = Packed::<Int32>::try_clone(&self.ints)?;
        let (zigzags, doubles, flags, texts, blobs, ways, inners, fixeds) = clone_eight::<
            Packed<Sint64>,
            Packed<Bits64>,
            Packed<Boolean>,
            Repeated<Utf8>,
            Repeated<Bytes>,
            Packed<Int32>,
            Repeated<Nested<Inner>>,
            Packed<Bits32>,
        >(
            &self.zigzags,
            &self.doubles,
            &self.flags,
            &self.texts,
            &self.blobs,
            &self.ways,
            &self.inners,
            &self.fixeds,
        )?;
        Ok(Lists {
            ints,
            zigzags,
            doubles,
            flags,
            texts,
            blobs,
            ways,
            inners,
            fixeds,
        })
    }
}

impl WireMessage for Lists {
    ghost use Rattle.ttrpc_test_members.specs.Messages.{lists};

    ghost is_value = { lists.part.is_value };

    ghost empty = { lists.part.empty };

    ghost step = { lists.part.step };

    ghost fields = { lists.part.fields };

    fn new(alloc: Global) -> Lists {
        Lists {
            ints: Packed::<Int32>::empty(alloc),
            zigzags: Packed::<Sint64>::empty(alloc),
            doubles: Packed::<Bits64>::empty(alloc),
            flags: Packed::<Boolean>::empty(alloc),
            texts: Repeated::<Utf8>::empty(alloc),
            blobs: Repeated::<Bytes>::empty(alloc),
            ways: Packed::<Int32>::empty(alloc),
            inners: Repeated::<Nested<Inner>>::empty(alloc),
            fixeds: Packed::<Bits32>::empty(alloc),
        }
    }

    fn put(&mut self, alloc: Global, field: Field<'_>) -> Result<(), CodecError> {
        match field.number.value {
            1 => Packed::<Int32>::take(&mut self.ints, alloc, field.value),
            2 => Packed::<Sint64>::take(&mut self.zigzags, alloc, field.value),
            3 => Packed::<Bits64>::take(&mut self.doubles, alloc, field.value),
            4 => Packed::<Boolean>::take(&mut self.flags, alloc, field.value),
            5 => Repeated::<Utf8>::take(&mut self.texts, alloc, field.value),
            6 => Repeated::<Bytes>::take(&mut self.blobs, alloc, field.value),
            7 => Packed::<Int32>::take(&mut self.ways, alloc, field.value),
            8 => Repeated::<Nested<Inner>>::take(&mut self.inners, alloc, field.value),
            9 => Packed::<Bits32>::take(&mut self.fixeds, alloc, field.value),
            _ => Ok(()),
        }
    }

    #[tactic(auto, using(ttrpc_members::proofs::Groups::flat_measured))]
    fn length(&self) -> u64 {
        let len: u64 = 0;
        let len = len.saturating_add(Packed::<Int32>::length(&self.ints, LISTS_INTS));
        let len = len.saturating_add(Packed::<Sint64>::length(&self.zigzags, LISTS_ZIGZAGS));
        let len = len.saturating_add(Packed::<Bits64>::length(&self.doubles, LISTS_DOUBLES));
        let len = len.saturating_add(Packed::<Boolean>::length(&self.flags, LISTS_FLAGS));
        let len = len.saturating_add(Repeated::<Utf8>::length(&self.texts, LISTS_TEXTS));
        let len = len.saturating_add(Repeated::<Bytes>::length(&self.blobs, LISTS_BLOBS));
        let len = len.saturating_add(Packed::<Int32>::length(&self.ways, LISTS_WAYS));
        let len = len.saturating_add(Repeated::<Nested<Inner>>::length(&self.inners, LISTS_INNERS));
        len.saturating_add(Packed::<Bits32>::length(&self.fixeds, LISTS_FIXEDS))
    }

    #[tactic(auto, using(ttrpc_members::proofs::Groups::flat_written, ttrpc_members::proofs::Groups::flat_len))]
    fn write(&self, out: &mut Vec<u8>) -> Result<(), CodecError> {
        write_eight::<
            Packed<Int32>,
            Packed<Sint64>,
            Packed<Bits64>,
            Packed<Boolean>,
            Repeated<Utf8>,
            Repeated<Bytes>,
            Packed<Int32>,
            Repeated<Nested<Inner>>,
        >(
            (&self.ints, LISTS_INTS),
            (&self.zigzags, LISTS_ZIGZAGS),
            (&self.doubles, LISTS_DOUBLES),
            (&self.flags, LISTS_FLAGS),
            (&self.texts, LISTS_TEXTS),
            (&self.blobs, LISTS_BLOBS),
            (&self.ways, LISTS_WAYS),
            (&self.inners, LISTS_INNERS),
            out,
        )?;
        Packed::<Bits32>::write(&self.fixeds, LISTS_FIXEDS, out)
    }

    fn lemma_is_value(&self) {
        Packed::<Int32>::lemma_is_value(&self.ints);
        Packed::<Sint64>::lemma_is_value(&self.zigzags);
        Packed::<Bits64>::lemma_is_value(&self.doubles);
        Packed::<Boolean>::lemma_is_value(&self.flags);
        Repeated::<Utf8>::lemma_is_value(&self.texts);
        Repeated::<Bytes>::lemma_is_value(&self.blobs);
        Packed::<Int32>::lemma_is_value(&self.ways);
        Repeated::<Nested<Inner>>::lemma_is_value(&self.inners);
        Packed::<Bits32>::lemma_is_value(&self.fixeds);
    }

    ghost again = { lists.laws.again lists.valid };

    ghost fits = { lists.laws.fits lists.valid };
}

impl Named for Lists {
    ghost use Rattle.std.specs.Prelude.{codes};

    ghost full_name = { codes "test.kinds.Lists" };

    fn full_name() -> &'static str {
        "test.kinds.Lists"
    }
}

/// The message `test.kinds.Options`.
#[derive(Drop)]
pub struct Options {
    /// Field 1.
    pub number: Option<i32>,
    /// Field 2.
    pub text: Option<Text>,
    /// Field 3.
    pub blob: Option<Blob>,
    /// Field 4.
    pub inner: Option<Inner>,
    /// Field 6.
    pub at: Option<Timestamp>,
    /// Field 536870911.
    pub flag: Option<bool>,
}

const OPTIONS_NUMBER: FieldNumber = FieldNumber { value: 1 };

const OPTIONS_TEXT: FieldNumber = FieldNumber { value: 2 };

const OPTIONS_BLOB: FieldNumber = FieldNumber { value: 3 };

const OPTIONS_INNER: FieldNumber = FieldNumber { value: 4 };

const OPTIONS_AT: FieldNumber = FieldNumber { value: 6 };

const OPTIONS_FLAG: FieldNumber = FieldNumber { value: 536870911 };

impl TryClone for Options {
    fn try_clone(&self) -> Result<Options, AllocError> {
        let (text, blob, inner, at) = clone_four::<
            Optional<Utf8>,
            Optional<Bytes>,
            Optional<Nested<Inner>>,
            Optional<Nested<Timestamp>>,
        >(&self.text, &self.blob, &self.inner, &self.at)?;
        Ok(Options {
            number: self.number,
            text,
            blob,
            inner,
            at,
            flag: self.flag,
        })
    }
}

impl WireMessage for Options {
    ghost use Rattle.ttrpc_test_members.specs.Messages.{options};

    ghost is_value = { options.part.is_value };

    ghost empty = { options.part.empty };

    ghost step = { options.part.step };

    ghost fields = { options.part.fields };

    fn new(alloc: Global) -> Options {
        Options {
            number: Optional::<Int32>::empty(alloc),
            text: Optional::<Utf8>::empty(alloc),
            blob: Optional::<Bytes>::empty(alloc),
            inner: Optional::<Nested<Inner>>::empty(alloc),
            at: Optional::<Nested<Timestamp>>::empty(alloc),
            flag: Optional::<Boolean>::empty(alloc),
        }
    }

    fn put(&mut self, alloc: Global, field: Field<'_>) -> Result<(), CodecError> {
        match field.number.value {
            1 => Optional::<Int32>::take(&mut self.number, alloc, field.value),
            2 => Optional::<Utf8>::take(&mut self.text, alloc, field.value),
            3 => Optional::<Bytes>::take(&mut self.blob, alloc, field.value),
            4 => Optional::<Nested<Inner>>::take(&mut self.inner, alloc, field.value),
            6 => Optional::<Nested<Timestamp>>::take(&mut self.at, alloc, field.value),
            536870911 => Optional::<Boolean>::take(&mut self.flag, alloc, field.value),
            _ => Ok(()),
        }
    }

    #[tactic(auto, using(ttrpc_members::proofs::Groups::flat_measured))]
    fn length(&self) -> u64 {
        let len: u64 = 0;
        let len = len.saturating_add(Optional::<Int32>::length(&self.number, OPTIONS_NUMBER));
        let len = len.saturating_add(Optional::<Utf8>::length(&self.text, OPTIONS_TEXT));
        let len = len.saturating_add(Optional::<Bytes>::length(&self.blob, OPTIONS_BLOB));
        let len = len.saturating_add(Optional::<Nested<Inner>>::length(&self.inner, OPTIONS_INNER));
        let len = len.saturating_add(Optional::<Nested<Timestamp>>::length(&self.at, OPTIONS_AT));
        len.saturating_add(Optional::<Boolean>::length(&self.flag, OPTIONS_FLAG))
    }

    #[tactic(auto, using(ttrpc_members::proofs::Groups::flat_written, ttrpc_members::proofs::Groups::flat_len))]
    fn write(&self, out: &mut Vec<u8>) -> Result<(), CodecError> {
        write_four::<Optional<Int32>, Optional<Utf8>, Optional<Bytes>, Optional<Nested<Inner>>>(
            (&self.number, OPTIONS_NUMBER),
            (&self.text, OPTIONS_TEXT),
            (&self.blob, OPTIONS_BLOB),
            (&self.inner, OPTIONS_INNER),
            out,
        )?;
        write_two::<Optional<Nested<Timestamp>>, Optional<Boolean>>(
            (&self.at, OPTIONS_AT),
            (&self.flag, OPTIONS_FLAG),
            out,
        )
    }

    fn lemma_is_value(&self) {
        Optional::<Int32>::lemma_is_value(&self.number);
        Optional::<Utf8>::lemma_is_value(&self.text);
        Optional::<Bytes>::lemma_is_value(&self.blob);
        Optional::<Nested<Inner>>::lemma_is_value(&self.inner);
        Optional::<Nested<Timestamp>>::lemma_is_value(&self.at);
        Optional::<Boolean>::lemma_is_value(&self.flag);
    }

    ghost again = { options.laws.again options.valid };

    ghost fits = { options.laws.fits options.valid };
}

impl Named for Options {
    ghost use Rattle.std.specs.Prelude.{codes};

    ghost full_name = { codes "test.kinds.Options" };

    fn full_name() -> &'static str {
        "test.kinds.Options"
    }
}

/// The message `test.kinds.Tables`.
#[derive(Drop)]
pub struct Tables {
    /// Field 1.
    pub labels: Map<Text, Text>,
    /// Field 2.
    pub inners: Map<i32, Inner>,
    /// Field 3.
    pub flags: Map<bool, Blob>,
    /// Field 4.
    pub ways: Map<u64, i32>,
    /// Field 5.
    pub floats: Map<i64, u32>,
}

const TABLES_LABELS: FieldNumber = FieldNumber { value: 1 };

const TABLES_INNERS: FieldNumber = FieldNumber { value: 2 };

const TABLES_FLAGS: FieldNumber = FieldNumber { value: 3 };

const TABLES_WAYS: FieldNumber = FieldNumber { value: 4 };

const TABLES_FLOATS: FieldNumber = FieldNumber { value: 5 };

impl TryClone for Tables {
    fn try_clone(&self) -> Result<Tables, AllocError> {
        let labels = MapOf::<Utf8, Utf8>::try_clone(&self.labels)?;
        let (inners, flags, ways, floats) = clone_four::<
            MapOf<Int32, Nested<Inner>>,
            MapOf<Boolean, Bytes>,
            MapOf<Bits64, Int32>,
            MapOf<Sint64, Bits32>,
        >(&self.inners, &self.flags, &self.ways, &self.floats)?;
        Ok(Tables {
            labels,
            inners,
            flags,
            ways,
            floats,
        })
    }
}

impl WireMessage for Tables {
    ghost use Rattle.ttrpc_test_members.specs.Messages.{tables};

    ghost is_value = { tables.part.is_value };

    ghost empty = { tables.part.empty };

    ghost step = { tables.part.step };

    ghost fields = { tables.part.fields };

    fn new(alloc: Global) -> Tables {
        Tables {
            labels: MapOf::<Utf8, Utf8>::empty(alloc),
            inners: MapOf::<Int32, Nested<Inner>>::empty(alloc),
            flags: MapOf::<Boolean, Bytes>::empty(alloc),
            ways: MapOf::<Bits64, Int32>::empty(alloc),
            floats: MapOf::<Sint64, Bits32>::empty(alloc),
        }
    }

    fn put(&mut self, alloc: Global, field: Field<'_>) -> Result<(), CodecError> {
        match field.number.value {
            1 => MapOf::<Utf8, Utf8>::take(&mut self.labels, alloc, field.value),
            2 => MapOf::<Int32, Nested<Inner>>::take(&mut self.inners, alloc, field.value),
            3 => MapOf::<Boolean, Bytes>::take(&mut self.flags, alloc, field.value),
            4 => MapOf::<Bits64, Int32>::take(&mut self.ways, alloc, field.value),
            5 => MapOf::<Sint64, Bits32>::take(&mut self.floats, alloc, field.value),
            _ => Ok(()),
        }
    }

    #[tactic(auto, using(ttrpc_members::proofs::Groups::flat_measured))]
    fn length(&self) -> u64 {
        let len: u64 = 0;
        let len = len.saturating_add(MapOf::<Utf8, Utf8>::length(&self.labels, TABLES_LABELS));
        let len = len.saturating_add(MapOf::<Int32, Nested<Inner>>::length(
            &self.inners,
            TABLES_INNERS,
        ));
        let len = len.saturating_add(MapOf::<Boolean, Bytes>::length(&self.flags, TABLES_FLAGS));
        let len = len.saturating_add(MapOf::<Bits64, Int32>::length(&self.ways, TABLES_WAYS));
        len.saturating_add(MapOf::<Sint64, Bits32>::length(&self.floats, TABLES_FLOATS))
    }

    #[tactic(auto, using(ttrpc_members::proofs::Groups::flat_written, ttrpc_members::proofs::Groups::flat_len))]
    fn write(&self, out: &mut Vec<u8>) -> Result<(), CodecError> {
        write_four::<
            MapOf<Utf8, Utf8>,
            MapOf<Int32, Nested<Inner>>,
            MapOf<Boolean, Bytes>,
            MapOf<Bits64, Int32>,
        >(
            (&self.labels, TABLES_LABELS),
            (&self.inners, TABLES_INNERS),
            (&self.flags, TABLES_FLAGS),
            (&self.ways, TABLES_WAYS),
            out,
        )?;
        MapOf::<Sint64, Bits32>::write(&self.floats, TABLES_FLOATS, out)
    }

    fn lemma_is_value(&self) {
        MapOf::<Utf8, Utf8>::lemma_is_value(&self.labels);
        MapOf::<Int32, Nested<Inner>>::lemma_is_value(&self.inners);
        MapOf::<Boolean, Bytes>::lemma_is_value(&self.flags);
        MapOf::<Bits64, Int32>::lemma_is_value(&self.ways);
        MapOf::<Sint64, Bits32>::lemma_is_value(&self.floats);
    }

    ghost again = { tables.laws.again tables.valid };

    ghost fits = { tables.laws.fits tables.valid };
}

impl Named for Tables {
    ghost use Rattle.std.specs.Prelude.{codes};

    ghost full_name = { codes "test.kinds.Tables" };

    fn full_name() -> &'static str {
        "test.kinds.Tables"
    }
}

/// One of number, text, inner, flag, weight, way, blob.
#[derive(Drop)]
pub enum ChoicesFigure {
    /// Field 1.
    Number(i32),
    /// Field 2.
    Text(Text),
    /// Field 3.
    Inner(Inner),
    /// Field 4.
    Flag(bool),
    /// Field 5.
    Weight(u64),
    /// Field 6.
    Way(i32),
    /// Field 7.
    Blob(Blob),
}

/// At most one of several.
#[derive(Drop)]
pub struct Choices {
    /// Field 1, 2, 3, 4, 5, 6, 7.
    pub figure: Option<ChoicesFigure>,
    /// Field 8.
    pub behind: Text,
}

const CHOICES_NUMBER: FieldNumber = FieldNumber { value: 1 };

const CHOICES_TEXT: FieldNumber = FieldNumber { value: 2 };

const CHOICES_INNER: FieldNumber = FieldNumber { value: 3 };

const CHOICES_FLAG: FieldNumber = FieldNumber { value: 4 };

const CHOICES_WEIGHT: FieldNumber = FieldNumber { value: 5 };

const CHOICES_WAY: FieldNumber = FieldNumber { value: 6 };

const CHOICES_BLOB: FieldNumber = FieldNumber { value: 7 };

const CHOICES_BEHIND: FieldNumber = FieldNumber { value: 8 };

impl ChoicesFigure {
    ghost use Rattle.ttrpc_wire.specs.Fold.{Gives};
    ghost use Rattle.ttrpc_wire.specs.Seen.{seen_value};
    ghost use Rattle.ttrpc_test_members.specs.Messages.{choices_figure};

    /// Takes the value of a field of number 1 in.
    #[tactic(auto, unfolding(ttrpc_members::specs::Choices::choice_take))]
    fn take_number(
        choice: &mut Option<ChoicesFigure>,
        alloc: Global,
        value: Value<'_>,
    ) -> Result<(), CodecError>
        ensures { Gives (λ _. choice.new) result (choices_figure.part.step choice.old (record { number = 1; value = seen_value value.entry })) }
    {
        if let Some(ChoicesFigure::Number(item)) = choice {
            Sint32::read(item, alloc, value)?;
            return Ok(());
        }
        let mut item = Sint32::first(alloc);
        if Sint32::read(&mut item, alloc, value)? {
            *choice = Some(ChoicesFigure::Number(item));
        }
        Ok(())
    }

    /// Takes the value of a field of number 2 in.
    #[tactic(auto, unfolding(ttrpc_members::specs::Choices::choice_take))]
    fn take_text(
        choice: &mut Option<ChoicesFigure>,
        alloc: Global,
        value: Value<'_>,
    ) -> Result<(), CodecError>
        ensures { Gives (λ _. choice.new) result (choices_figure.part.step choice.old (record { number = 2; value = seen_value value.entry })) }
    {
        if let Some(ChoicesFigure::Text(item)) = choice {
            Utf8::read(item, alloc, value)?;
            return Ok(());
        }
        let mut item = Utf8::first(alloc);
        if Utf8::read(&mut item, alloc, value)? {
            *choice = Some(ChoicesFigure::Text(item));
        }
        Ok(())
    }

    /// Takes the value of a field of number 3 in.
    #[tactic(auto, unfolding(ttrpc_members::specs::Choices::choice_take))]
    fn take_inner(
        choice: &mut Option<ChoicesFigure>,
        alloc: Global,
        value: Value<'_>,
    ) -> Result<(), CodecError>
        ensures { Gives (λ _. choice.new) result (choices_figure.part.step choice.old (record { number = 3; value = seen_value value.entry })) }
    {
        if let Some(ChoicesFigure::Inner(item)) = choice {
            Nested::<Inner>::read(item, alloc, value)?;
            return Ok(());
        }
        let mut item = Nested::<Inner>::first(alloc);
        if Nested::<Inner>::read(&mut item, alloc, value)? {
            *choice = Some(ChoicesFigure::Inner(item));
        }
        Ok(())
    }

    /// Takes the value of a field of number 4 in.
    #[tactic(auto, unfolding(ttrpc_members::specs::Choices::choice_take))]
    fn take_flag(
        choice: &mut Option<ChoicesFigure>,
        alloc: Global,
        value: Value<'_>,
    ) -> Result<(), CodecError>
        ensures { Gives (λ _. choice.new) result (choices_figure.part.step choice.old (record { number = 4; value = seen_value value.entry })) }
    {
        if let Some(ChoicesFigure::Flag(item)) = choice {
            Boolean::read(item, alloc, value)?;
            return Ok(());
        }
        let mut item = Boolean::first(alloc);
        if Boolean::read(&mut item, alloc, value)? {
            *choice = Some(ChoicesFigure::Flag(item));
        }
        Ok(())
    }

    /// Takes the value of a field of number 5 in.
    #[tactic(auto, unfolding(ttrpc_members::specs::Choices::choice_take))]
    fn take_weight(
        choice: &mut Option<ChoicesFigure>,
        alloc: Global,
        value: Value<'_>,
    ) -> Result<(), CodecError>
        ensures { Gives (λ _. choice.new) result (choices_figure.part.step choice.old (record { number = 5; value = seen_value value.entry })) }
    {
        if let Some(ChoicesFigure::Weight(item)) = choice {
            Bits64::read(item, alloc, value)?;
            return Ok(());
        }
        let mut item = Bits64::first(alloc);
        if Bits64::read(&mut item, alloc, value)? {
            *choice = Some(ChoicesFigure::Weight(item));
        }
        Ok(())
    }

    /// Takes the value of a field of number 6 in.
    #[tactic(auto, unfolding(ttrpc_members::specs::Choices::choice_take))]
    fn take_way(
        choice: &mut Option<ChoicesFigure>,
        alloc: Global,
        value: Value<'_>,
    ) -> Result<(), CodecError>
        ensures { Gives (λ _. choice.new) result (choices_figure.part.step choice.old (record { number = 6; value = seen_value value.entry })) }
    {
        if let Some(ChoicesFigure::Way(item)) = choice {
            Int32::read(item, alloc, value)?;
            return Ok(());
        }
        let mut item = Int32::first(alloc);
        if Int32::read(&mut item, alloc, value)? {
            *choice = Some(ChoicesFigure::Way(item));
        }
        Ok(())
    }

    /// Takes the value of a field of number 7 in.
    #[tactic(auto, unfolding(ttrpc_members::specs::Choices::choice_take))]
    fn take_blob(
        choice: &mut Option<ChoicesFigure>,
        alloc: Global,
        value: Value<'_>,
    ) -> Result<(), CodecError>
        ensures { Gives (λ _. choice.new) result (choices_figure.part.step choice.old (record { number = 7; value = seen_value value.entry })) }
    {
        if let Some(ChoicesFigure::Blob(item)) = choice {
            Bytes::read(item, alloc, value)?;
            return Ok(());
        }
        let mut item = Bytes::first(alloc);
        if Bytes::read(&mut item, alloc, value)? {
            *choice = Some(ChoicesFigure::Blob(item));
        }
        Ok(())
    }
}

impl Choice for ChoicesFigure {
    ghost use Rattle.ttrpc_test_members.specs.Messages.{choices_figure};

    ghost part = { choices_figure.part };

    fn put(
        choice: &mut Option<ChoicesFigure>,
        alloc: Global,
        field: Field<'_>,
    ) -> Result<(), CodecError> {
        match field.number.value {
            1 => ChoicesFigure::take_number(choice, alloc, field.value),
            2 => ChoicesFigure::take_text(choice, alloc, field.value),
            3 => ChoicesFigure::take_inner(choice, alloc, field.value),
            4 => ChoicesFigure::take_flag(choice, alloc, field.value),
            5 => ChoicesFigure::take_weight(choice, alloc, field.value),
            6 => ChoicesFigure::take_way(choice, alloc, field.value),
            7 => ChoicesFigure::take_blob(choice, alloc, field.value),
            _ => Ok(()),
        }
    }

    fn length(choice: &Option<ChoicesFigure>) -> u64 {
        match choice {
            None => 0,
            Some(ChoicesFigure::Number(item)) => item_len::<Sint32>(item, CHOICES_NUMBER),
            Some(ChoicesFigure::Text(item)) => item_len::<Utf8>(item, CHOICES_TEXT),
            Some(ChoicesFigure::Inner(item)) => item_len::<Nested<Inner>>(item, CHOICES_INNER),
            Some(ChoicesFigure::Flag(item)) => item_len::<Boolean>(item, CHOICES_FLAG),
            Some(ChoicesFigure::Weight(item)) => item_len::<Bits64>(item, CHOICES_WEIGHT),
            Some(ChoicesFigure::Way(item)) => item_len::<Int32>(item, CHOICES_WAY),
            Some(ChoicesFigure::Blob(item)) => item_len::<Bytes>(item, CHOICES_BLOB),
        }
    }

    fn write(choice: &Option<ChoicesFigure>, out: &mut Vec<u8>) -> Result<(), CodecError> {
        match choice {
            None => Ok(()),
            Some(ChoicesFigure::Number(item)) => put_item::<Sint32>(item, CHOICES_NUMBER, out),
            Some(ChoicesFigure::Text(item)) => put_item::<Utf8>(item, CHOICES_TEXT, out),
            Some(ChoicesFigure::Inner(item)) => put_item::<Nested<Inner>>(item, CHOICES_INNER, out),
            Some(ChoicesFigure::Flag(item)) => put_item::<Boolean>(item, CHOICES_FLAG, out),
            Some(ChoicesFigure::Weight(item)) => put_item::<Bits64>(item, CHOICES_WEIGHT, out),
            Some(ChoicesFigure::Way(item)) => put_item::<Int32>(item, CHOICES_WAY, out),
            Some(ChoicesFigure::Blob(item)) => put_item::<Bytes>(item, CHOICES_BLOB, out),
        }
    }

    fn try_clone(choice: &Option<ChoicesFigure>) -> Result<Option<ChoicesFigure>, AllocError> {
        Ok(match choice {
            None => None,
            Some(ChoicesFigure::Number(item)) => {
                Some(ChoicesFigure::Number(Sint32::try_clone(item)?))
            }
            Some(ChoicesFigure::Text(item)) => Some(ChoicesFigure::Text(Utf8::try_clone(item)?)),
            Some(ChoicesFigure::Inner(item)) => {
                Some(ChoicesFigure::Inner(Nested::<Inner>::try_clone(item)?))
            }
            Some(ChoicesFigure::Flag(item)) => Some(ChoicesFigure::Flag(Boolean::try_clone(item)?)),
            Some(ChoicesFigure::Weight(item)) => {
                Some(ChoicesFigure::Weight(Bits64::try_clone(item)?))
            }
            Some(ChoicesFigure::Way(item)) => Some(ChoicesFigure::Way(Int32::try_clone(item)?)),
            Some(ChoicesFigure::Blob(item)) => Some(ChoicesFigure::Blob(Bytes::try_clone(item)?)),
        })
    }

    fn lemma_is_value(choice: &Option<ChoicesFigure>) {
        match choice {
            None => {}
            Some(ChoicesFigure::Number(item)) => Sint32::lemma_is_value(item),
            Some(ChoicesFigure::Text(item)) => Utf8::lemma_is_value(item),
            Some(ChoicesFigure::Inner(item)) => Nested::<Inner>::lemma_is_value(item),
            Some(ChoicesFigure::Flag(item)) => Boolean::lemma_is_value(item),
            Some(ChoicesFigure::Weight(item)) => Bits64::lemma_is_value(item),
            Some(ChoicesFigure::Way(item)) => Int32::lemma_is_value(item),
            Some(ChoicesFigure::Blob(item)) => Bytes::lemma_is_value(item),
        }
    }
}

impl TryClone for Choices {
    fn try_clone(&self) -> Result<Choices, AllocError> {
        let figure = ChoicesFigure::try_clone(&self.figure)?;
        let behind = Single::<Utf8>::try_clone(&self.behind)?;
        Ok(Choices { figure, behind })
    }
}

impl WireMessage for Choices {
    ghost use Rattle.ttrpc_test_members.specs.Messages.{choices};

    ghost is_value = { choices.part.is_value };

    ghost empty = { choices.part.empty };

    ghost step = { choices.part.step };

    ghost fields = { choices.part.fields };

    fn new(alloc: Global) -> Choices {
        Choices {
            figure: None,
            behind: Single::<Utf8>::empty(alloc),
        }
    }

    fn put(&mut self, alloc: Global, field: Field<'_>) -> Result<(), CodecError> {
        match field.number.value {
            1 | 2 | 3 | 4 | 5 | 6 | 7 => ChoicesFigure::put(&mut self.figure, alloc, field),
            8 => Single::<Utf8>::take(&mut self.behind, alloc, field.value),
            _ => Ok(()),
        }
    }

    #[tactic(auto, using(ttrpc_members::proofs::Groups::flat_measured))]
    fn length(&self) -> u64 {
        let len: u64 = 0;
        let len = len.saturating_add(ChoicesFigure::length(&self.figure));
        len.saturating_add(Single::<Utf8>::length(&self.behind, CHOICES_BEHIND))
    }

    #[tactic(auto, using(ttrpc_members::proofs::Groups::flat_written, ttrpc_members::proofs::Groups::flat_len))]
    fn write(&self, out: &mut Vec<u8>) -> Result<(), CodecError> {
        ChoicesFigure::write(&self.figure, out)?;
        Single::<Utf8>::write(&self.behind, CHOICES_BEHIND, out)
    }

    fn lemma_is_value(&self) {
        ChoicesFigure::lemma_is_value(&self.figure);
        Single::<Utf8>::lemma_is_value(&self.behind);
    }

    ghost again = { choices.laws.again choices.valid };

    ghost fits = { choices.laws.fits choices.valid };
}

impl Named for Choices {
    ghost use Rattle.std.specs.Prelude.{codes};

    ghost full_name = { codes "test.kinds.Choices" };

    fn full_name() -> &'static str {
        "test.kinds.Choices"
    }
}

/// One of text, inner.
#[derive(Drop)]
pub enum LabelledKind {
    /// Field 1.
    Text(Text),
    /// Field 2.
    Inner(Inner),
}

/// At most one of several, before a map.
#[derive(Drop)]
pub struct Labelled {
    /// Field 1, 2.
    pub kind: Option<LabelledKind>,
    /// Field 3.
    pub labels: Map<Text, i32>,
}

const LABELLED_TEXT: FieldNumber = FieldNumber { value: 1 };

const LABELLED_INNER: FieldNumber = FieldNumber { value: 2 };

const LABELLED_LABELS: FieldNumber = FieldNumber { value: 3 };

impl LabelledKind {
    ghost use Rattle.ttrpc_wire.specs.Fold.{Gives};
    ghost use Rattle.ttrpc_wire.specs.Seen.{seen_value};
    ghost use Rattle.ttrpc_test_members.specs.Messages.{labelled_kind};

    /// Takes the value of a field of number 1 in.
    #[tactic(auto, unfolding(ttrpc_members::specs::Choices::choice_take))]
    fn take_text(
        choice: &mut Option<LabelledKind>,
        alloc: Global,
        value: Value<'_>,
    ) -> Result<(), CodecError>
        ensures { Gives (λ _. choice.new) result (labelled_kind.part.step choice.old (record { number = 1; value = seen_value value.entry })) }
    {
        if let Some(LabelledKind::Text(item)) = choice {
            Utf8::read(item, alloc, value)?;
            return Ok(());
        }
        let mut item = Utf8::first(alloc);
        if Utf8::read(&mut item, alloc, value)? {
            *choice = Some(LabelledKind::Text(item));
        }
        Ok(())
    }

    /// Takes the value of a field of number 2 in.
    #[tactic(auto, unfolding(ttrpc_members::specs::Choices::choice_take))]
    fn take_inner(
        choice: &mut Option<LabelledKind>,
        alloc: Global,
        value: Value<'_>,
    ) -> Result<(), CodecError>
        ensures { Gives (λ _. choice.new) result (labelled_kind.part.step choice.old (record { number = 2; value = seen_value value.entry })) }
    {
        if let Some(LabelledKind::Inner(item)) = choice {
            Nested::<Inner>::read(item, alloc, value)?;
            return Ok(());
        }
        let mut item = Nested::<Inner>::first(alloc);
        if Nested::<Inner>::read(&mut item, alloc, value)? {
            *choice = Some(LabelledKind::Inner(item));
        }
        Ok(())
    }
}

impl Choice for LabelledKind {
    ghost use Rattle.ttrpc_test_members.specs.Messages.{labelled_kind};

    ghost part = { labelled_kind.part };

    fn put(
        choice: &mut Option<LabelledKind>,
        alloc: Global,
        field: Field<'_>,
    ) -> Result<(), CodecError> {
        match field.number.value {
            1 => LabelledKind::take_text(choice, alloc, field.value),
            2 => LabelledKind::take_inner(choice, alloc, field.value),
            _ => Ok(()),
        }
    }

    fn length(choice: &Option<LabelledKind>) -> u64 {
        match choice {
            None => 0,
            Some(LabelledKind::Text(item)) => item_len::<Utf8>(item, LABELLED_TEXT),
            Some(LabelledKind::Inner(item)) => item_len::<Nested<Inner>>(item, LABELLED_INNER),
        }
    }

    fn write(choice: &Option<LabelledKind>, out: &mut Vec<u8>) -> Result<(), CodecError> {
        match choice {
            None => Ok(()),
            Some(LabelledKind::Text(item)) => put_item::<Utf8>(item, LABELLED_TEXT, out),
            Some(LabelledKind::Inner(item)) => put_item::<Nested<Inner>>(item, LABELLED_INNER, out),
        }
    }

    fn try_clone(choice: &Option<LabelledKind>) -> Result<Option<LabelledKind>, AllocError> {
        Ok(match choice {
            None => None,
            Some(LabelledKind::Text(item)) => Some(LabelledKind::Text(Utf8::try_clone(item)?)),
            Some(LabelledKind::Inner(item)) => {
                Some(LabelledKind::Inner(Nested::<Inner>::try_clone(item)?))
            }
        })
    }

    fn lemma_is_value(choice: &Option<LabelledKind>) {
        match choice {
            None => {}
            Some(LabelledKind::Text(item)) => Utf8::lemma_is_value(item),
            Some(LabelledKind::Inner(item)) => Nested::<Inner>::lemma_is_value(item),
        }
    }
}

impl TryClone for Labelled {
    fn try_clone(&self) -> Result<Labelled, AllocError> {
        let kind = LabelledKind::try_clone(&self.kind)?;
        let labels = MapOf::<Utf8, Int32>::try_clone(&self.labels)?;
        Ok(Labelled { kind, labels })
    }
}

impl WireMessage for Labelled {
    ghost use Rattle.ttrpc_test_members.specs.Messages.{labelled};

    ghost is_value = { labelled.part.is_value };

    ghost empty = { labelled.part.empty };

    ghost step = { labelled.part.step };

    ghost fields = { labelled.part.fields };

    fn new(alloc: Global) -> Labelled {
        Labelled {
            kind: None,
            labels: MapOf::<Utf8, Int32>::empty(alloc),
        }
    }

    fn put(&mut self, alloc: Global, field: Field<'_>) -> Result<(), CodecError> {
        match field.number.value {
            1 | 2 => LabelledKind::put(&mut self.kind, alloc, field),
            3 => MapOf::<Utf8, Int32>::take(&mut self.labels, alloc, field.value),
            _ => Ok(()),
        }
    }

    #[tactic(auto, using(ttrpc_members::proofs::Groups::flat_measured))]
    fn length(&self) -> u64 {
        let len: u64 = 0;
        let len = len.saturating_add(LabelledKind::length(&self.kind));
        len.saturating_add(MapOf::<Utf8, Int32>::length(&self.labels, LABELLED_LABELS))
    }

    #[tactic(auto, using(ttrpc_members::proofs::Groups::flat_written, ttrpc_members::proofs::Groups::flat_len))]
    fn write(&self, out: &mut Vec<u8>) -> Result<(), CodecError> {
        LabelledKind::write(&self.kind, out)?;
        MapOf::<Utf8, Int32>::write(&self.labels, LABELLED_LABELS, out)
    }

    fn lemma_is_value(&self) {
        LabelledKind::lemma_is_value(&self.kind);
        MapOf::<Utf8, Int32>::lemma_is_value(&self.labels);
    }

    ghost again = { labelled.laws.again labelled.valid };

    ghost fits = { labelled.laws.fits labelled.valid };
}

impl Named for Labelled {
    ghost use Rattle.std.specs.Prelude.{codes};

    ghost full_name = { codes "test.kinds.Labelled" };

    fn full_name() -> &'static str {
        "test.kinds.Labelled"
    }
}

/// Members of all kinds.
#[derive(Drop)]
pub struct All {
    /// Field 1.
    pub figures: Option<Figures>,
    /// Field 2.
    pub lists: Option<Lists>,
    /// Field 3.
    pub options: Option<Options>,
    /// Field 4.
    pub tables: Option<Tables>,
    /// Field 5.
    pub choices: Option<Choices>,
}

const ALL_FIGURES: FieldNumber = FieldNumber { value: 1 };

const ALL_LISTS: FieldNumber = FieldNumber { value: 2 };

const ALL_OPTIONS: FieldNumber = FieldNumber { value: 3 };

const ALL_TABLES: FieldNumber = FieldNumber { value: 4 };

const ALL_CHOICES: FieldNumber = FieldNumber { value: 5 };

impl TryClone for All {
    fn try_clone(&self) -> Result<All, AllocError> {
        let figures = Optional::<Nested<Figures>>::try_clone(&self.figures)?;
        let (lists, options, tables, choices) = clone_four::<
            Optional<Nested<Lists>>,
            Optional<Nested<Options>>,
            Optional<Nested<Tables>>,
            Optional<Nested<Choices>>,
        >(&self.lists, &self.options, &self.tables, &self.choices)?;
        Ok(All {
            figures,
            lists,
            options,
            tables,
            choices,
        })
    }
}

impl WireMessage for All {
    ghost use Rattle.ttrpc_test_members.specs.Messages.{all};

    ghost is_value = { all.part.is_value };

    ghost empty = { all.part.empty };

    ghost step = { all.part.step };

    ghost fields = { all.part.fields };

    fn new(alloc: Global) -> All {
        All {
            figures: Optional::<Nested<Figures>>::empty(alloc),
            lists: Optional::<Nested<Lists>>::empty(alloc),
            options: Optional::<Nested<Options>>::empty(alloc),
            tables: Optional::<Nested<Tables>>::empty(alloc),
            choices: Optional::<Nested<Choices>>::empty(alloc),
        }
    }

    fn put(&mut self, alloc: Global, field: Field<'_>) -> Result<(), CodecError> {
        match field.number.value {
            1 => Optional::<Nested<Figures>>::take(&mut self.figures, alloc, field.value),
            2 => Optional::<Nested<Lists>>::take(&mut self.lists, alloc, field.value),
            3 => Optional::<Nested<Options>>::take(&mut self.options, alloc, field.value),
            4 => Optional::<Nested<Tables>>::take(&mut self.tables, alloc, field.value),
            5 => Optional::<Nested<Choices>>::take(&mut self.choices, alloc, field.value),
            _ => Ok(()),
        }
    }

    #[tactic(auto, using(ttrpc_members::proofs::Groups::flat_measured))]
    fn length(&self) -> u64 {
        let len: u64 = 0;
        let len = len.saturating_add(Optional::<Nested<Figures>>::length(
            &self.figures,
            ALL_FIGURES,
        ));
        let len = len.saturating_add(Optional::<Nested<Lists>>::length(&self.lists, ALL_LISTS));
        let len = len.saturating_add(Optional::<Nested<Options>>::length(
            &self.options,
            ALL_OPTIONS,
        ));
        let len = len.saturating_add(Optional::<Nested<Tables>>::length(&self.tables, ALL_TABLES));
        len.saturating_add(Optional::<Nested<Choices>>::length(&self.choices, ALL_CHOICES))
    }

    #[tactic(auto, using(ttrpc_members::proofs::Groups::flat_written, ttrpc_members::proofs::Groups::flat_len))]
    fn write(&self, out: &mut Vec<u8>) -> Result<(), CodecError> {
        write_four::<
            Optional<Nested<Figures>>,
            Optional<Nested<Lists>>,
            Optional<Nested<Options>>,
            Optional<Nested<Tables>>,
        >(
            (&self.figures, ALL_FIGURES),
            (&self.lists, ALL_LISTS),
            (&self.options, ALL_OPTIONS),
            (&self.tables, ALL_TABLES),
            out,
        )?;
        Optional::<Nested<Choices>>::write(&self.choices, ALL_CHOICES, out)
    }

    fn lemma_is_value(&self) {
        Optional::<Nested<Figures>>::lemma_is_value(&self.figures);
        Optional::<Nested<Lists>>::lemma_is_value(&self.lists);
        Optional::<Nested<Options>>::lemma_is_value(&self.options);
        Optional::<Nested<Tables>>::lemma_is_value(&self.tables);
        Optional::<Nested<Choices>>::lemma_is_value(&self.choices);
    }

    ghost again = { all.laws.again all.valid };

    ghost fits = { all.laws.fits all.valid };
}

impl Named for All {
    ghost use Rattle.std.specs.Prelude.{codes};

    ghost full_name = { codes "test.kinds.All" };

    fn full_name() -> &'static str {
        "test.kinds.All"
    }
}

/// A message that contains itself.
#[derive(Drop)]
pub struct Tree {
    /// Field 1.
    pub name: Text,
    /// Field 2.
    pub children: Sequence<Enclosed<TreeRules>>,
    /// Field 3.
    pub best: Option<Enclosed<TreeRules>>,
    /// Field 4.
    pub named: Map<Text, Enclosed<TreeRules>>,
    /// Field 5.
    pub inner: Option<Inner>,
    /// Field 6.
    pub numbers: Sequence<i32>,
}

const TREE_NAME: FieldNumber = FieldNumber { value: 1 };

const TREE_CHILDREN: FieldNumber = FieldNumber { value: 2 };

const TREE_BEST: FieldNumber = FieldNumber { value: 3 };

const TREE_NAMED: FieldNumber = FieldNumber { value: 4 };

const TREE_INNER: FieldNumber = FieldNumber { value: 5 };

const TREE_NUMBERS: FieldNumber = FieldNumber { value: 6 };

impl TryClone for Tree {
    fn try_clone(&self) -> Result<Tree, AllocError> {
        let (name, children) = clone_two::<Single<Utf8>, Repeated<Enclosing<TreeRules>>>(
            &self.name,
            &self.children,
        )?;
        let (best, named, inner, numbers) = clone_four::<
            Optional<Enclosing<TreeRules>>,
            MapOf<Utf8, Enclosing<TreeRules>>,
            Optional<Nested<Inner>>,
            Packed<Sint32>,
        >(&self.best, &self.named, &self.inner, &self.numbers)?;
        Ok(Tree {
            name,
            children,
            best,
            named,
            inner,
            numbers,
        })
    }
}

impl WireMessage for Tree {
    ghost use Rattle.ttrpc_test_members.specs.Messages.{tree};

    ghost is_value = { tree.part.is_value };

    ghost empty = { tree.part.empty };

    ghost step = { tree.part.step };

    ghost fields = { tree.part.fields };

    fn new(alloc: Global) -> Tree {
        Tree {
            name: Single::<Utf8>::empty(alloc),
            children: Repeated::<Enclosing<TreeRules>>::empty(alloc),
            best: Optional::<Enclosing<TreeRules>>::empty(alloc),
            named: MapOf::<Utf8, Enclosing<TreeRules>>::empty(alloc),
            inner: Optional::<Nested<Inner>>::empty(alloc),
            numbers: Packed::<Sint32>::empty(alloc),
        }
    }

    fn put(&mut self, alloc: Global, field: Field<'_>) -> Result<(), CodecError> {
        match field.number.value {
            1 => Single::<Utf8>::take(&mut self.name, alloc, field.value),
            2 => Repeated::<Enclosing<TreeRules>>::take(&mut self.children, alloc, field.value),
            3 => Optional::<Enclosing<TreeRules>>::take(&mut self.best, alloc, field.value),
            4 => MapOf::<Utf8, Enclosing<TreeRules>>::take(&mut self.named, alloc, field.value),
            5 => Optional::<Nested<Inner>>::take(&mut self.inner, alloc, field.value),
            6 => Packed::<Sint32>::take(&mut self.numbers, alloc, field.value),
            _ => Ok(()),
        }
    }

    #[tactic(auto, using(ttrpc_members::proofs::Groups::flat_measured))]
    fn length(&self) -> u64 {
        let len: u64 = 0;
        let len = len.saturating_add(Single::<Utf8>::length(&self.name, TREE_NAME));
        let len = len.saturating_add(Repeated::<Enclosing<TreeRules>>::length(
            &self.children,
            TREE_CHILDREN,
        ));
        let len = len.saturating_add(Optional::<Enclosing<TreeRules>>::length(
            &self.best, TREE_BEST,
        ));
        let len = len.saturating_add(MapOf::<Utf8, Enclosing<TreeRules>>::length(
            &self.named,
            TREE_NAMED,
        ));
        let len = len.saturating_add(Optional::<Nested<Inner>>::length(&self.inner, TREE_INNER));
        len.saturating_add(Packed::<Sint32>::length(&self.numbers, TREE_NUMBERS))
    }

    #[tactic(auto, using(ttrpc_members::proofs::Groups::flat_written, ttrpc_members::proofs::Groups::flat_len))]
    fn write(&self, out: &mut Vec<u8>) -> Result<(), CodecError> {
        write_four::<
            Single<Utf8>,
            Repeated<Enclosing<TreeRules>>,
            Optional<Enclosing<TreeRules>>,
            MapOf<Utf8, Enclosing<TreeRules>>,
        >(
            (&self.name, TREE_NAME),
            (&self.children, TREE_CHILDREN),
            (&self.best, TREE_BEST),
            (&self.named, TREE_NAMED),
            out,
        )?;
        write_two::<Optional<Nested<Inner>>, Packed<Sint32>>(
            (&self.inner, TREE_INNER),
            (&self.numbers, TREE_NUMBERS),
            out,
        )
    }

    fn lemma_is_value(&self) {
        Single::<Utf8>::lemma_is_value(&self.name);
        Repeated::<Enclosing<TreeRules>>::lemma_is_value(&self.children);
        Optional::<Enclosing<TreeRules>>::lemma_is_value(&self.best);
        MapOf::<Utf8, Enclosing<TreeRules>>::lemma_is_value(&self.named);
        Optional::<Nested<Inner>>::lemma_is_value(&self.inner);
        Packed::<Sint32>::lemma_is_value(&self.numbers);
    }

    ghost again = { tree.laws.again tree.valid };

    ghost fits = { tree.laws.fits tree.valid };
}

impl Named for Tree {
    ghost use Rattle.std.specs.Prelude.{codes};

    ghost full_name = { codes "test.kinds.Tree" };

    fn full_name() -> &'static str {
        "test.kinds.Tree"
    }
}

/// Messages that contain one another.
#[derive(Drop)]
pub struct Sheet {
    /// Field 1.
    pub cells: Map<Text, Enclosed<CellRules>>,
}

const SHEET_CELLS: FieldNumber = FieldNumber { value: 1 };

impl TryClone for Sheet {
    fn try_clone(&self) -> Result<Sheet, AllocError> {
        let cells = MapOf::<Utf8, Enclosing<CellRules>>::try_clone(&self.cells)?;
        Ok(Sheet { cells })
    }
}

impl WireMessage for Sheet {
    ghost use Rattle.ttrpc_test_members.specs.Messages.{sheet};

    ghost is_value = { sheet.part.is_value };

    ghost empty = { sheet.part.empty };

    ghost step = { sheet.part.step };

    ghost fields = { sheet.part.fields };

    fn new(alloc: Global) -> Sheet {
        Sheet {
            cells: MapOf::<Utf8, Enclosing<CellRules>>::empty(alloc),
        }
    }

    fn put(&mut self, alloc: Global, field: Field<'_>) -> Result<(), CodecError> {
        match field.number.value {
            1 => MapOf::<Utf8, Enclosing<CellRules>>::take(&mut self.cells, alloc, field.value),
            _ => Ok(()),
        }
    }

    #[tactic(auto, using(ttrpc_members::proofs::Groups::flat_measured))]
    fn length(&self) -> u64 {
        let len: u64 = 0;
        len.saturating_add(MapOf::<Utf8, Enclosing<CellRules>>::length(&self.cells, SHEET_CELLS))
    }

    #[tactic(auto, using(ttrpc_members::proofs::Groups::flat_written, ttrpc_members::proofs::Groups::flat_len))]
    fn write(&self, out: &mut Vec<u8>) -> Result<(), CodecError> {
        MapOf::<Utf8, Enclosing<CellRules>>::write(&self.cells, SHEET_CELLS, out)
    }

    fn lemma_is_value(&self) {
        MapOf::<Utf8, Enclosing<CellRules>>::lemma_is_value(&self.cells);
    }

    ghost again = { sheet.laws.again sheet.valid };

    ghost fits = { sheet.laws.fits sheet.valid };
}

impl Named for Sheet {
    ghost use Rattle.std.specs.Prelude.{codes};

    ghost full_name = { codes "test.kinds.Sheet" };

    fn full_name() -> &'static str {
        "test.kinds.Sheet"
    }
}

/// One of number, text, sheet, row.
#[derive(Drop)]
pub enum CellKind {
    /// Field 1.
    Number(u64),
    /// Field 2.
    Text(Text),
    /// Field 3.
    Sheet(Enclosed<SheetRules>),
    /// Field 4.
    Row(Enclosed<RowRules>),
}

/// The message `test.kinds.Cell`.
#[derive(Drop)]
pub struct Cell {
    /// Field 1, 2, 3, 4.
    pub kind: Option<CellKind>,
}

const CELL_NUMBER: FieldNumber = FieldNumber { value: 1 };

const CELL_TEXT: FieldNumber = FieldNumber { value: 2 };

const CELL_SHEET: FieldNumber = FieldNumber { value: 3 };

const CELL_ROW: FieldNumber = FieldNumber { value: 4 };

impl CellKind {
    ghost use Rattle.ttrpc_wire.specs.Fold.{Gives};
    ghost use Rattle.ttrpc_wire.specs.Seen.{seen_value};
    ghost use Rattle.ttrpc_test_members.specs.Messages.{cell_kind};

    /// Takes the value of a field of number 1 in.
    #[tactic(auto, unfolding(ttrpc_members::specs::Choices::choice_take))]
    fn take_number(
        choice: &mut Option<CellKind>,
        alloc: Global,
        value: Value<'_>,
    ) -> Result<(), CodecError>
        ensures { Gives (λ _. choice.new) result (cell_kind.part.step choice.old (record { number = 1; value = seen_value value.entry })) }
    {
        if let Some(CellKind::Number(item)) = choice {
            Bits64::read(item, alloc, value)?;
            return Ok(());
        }
        let mut item = Bits64::first(alloc);
        if Bits64::read(&mut item, alloc, value)? {
            *choice = Some(CellKind::Number(item));
        }
        Ok(())
    }

    /// Takes the value of a field of number 2 in.
    #[tactic(auto, unfolding(ttrpc_members::specs::Choices::choice_take))]
    fn take_text(
        choice: &mut Option<CellKind>,
        alloc: Global,
        value: Value<'_>,
    ) -> Result<(), CodecError>
        ensures { Gives (λ _. choice.new) result (cell_kind.part.step choice.old (record { number = 2; value = seen_value value.entry })) }
    {
        if let Some(CellKind::Text(item)) = choice {
            Utf8::read(item, alloc, value)?;
            return Ok(());
        }
        let mut item = Utf8::first(alloc);
        if Utf8::read(&mut item, alloc, value)? {
            *choice = Some(CellKind::Text(item));
        }
        Ok(())
    }

    /// Takes the value of a field of number 3 in.
    #[tactic(auto, unfolding(ttrpc_members::specs::Choices::choice_take))]
    fn take_sheet(
        choice: &mut Option<CellKind>,
        alloc: Global,
        value: Value<'_>,
    ) -> Result<(), CodecError>
        ensures { Gives (λ _. choice.new) result (cell_kind.part.step choice.old (record { number = 3; value = seen_value value.entry })) }
    {
        if let Some(CellKind::Sheet(item)) = choice {
            Enclosing::<SheetRules>::read(item, alloc, value)?;
            return Ok(());
        }
        let mut item = Enclosing::<SheetRules>::first(alloc);
        if Enclosing::<SheetRules>::read(&mut item, alloc, value)? {
            *choice = Some(CellKind::Sheet(item));
        }
        Ok(())
    }

    /// Takes the value of a field of number 4 in.
    #[tactic(auto, unfolding(ttrpc_members::specs::Choices::choice_take))]
    fn take_row(
        choice: &mut Option<CellKind>,
        alloc: Global,
        value: Value<'_>,
    ) -> Result<(), CodecError>
        ensures { Gives (λ _. choice.new) result (cell_kind.part.step choice.old (record { number = 4; value = seen_value value.entry })) }
    {
        if let Some(CellKind::Row(item)) = choice {
            Enclosing::<RowRules>::read(item, alloc, value)?;
            return Ok(());
        }
        let mut item = Enclosing::<RowRules>::first(alloc);
        if Enclosing::<RowRules>::read(&mut item, alloc, value)? {
            *choice = Some(CellKind::Row(item));
        }
        Ok(())
    }
}

impl Choice for CellKind {
    ghost use Rattle.ttrpc_test_members.specs.Messages.{cell_kind};

    ghost part = { cell_kind.part };

    fn put(
        choice: &mut Option<CellKind>,
        alloc: Global,
        field: Field<'_>,
    ) -> Result<(), CodecError> {
        match field.number.value {
            1 => CellKind::take_number(choice, alloc, field.value),
            2 => CellKind::take_text(choice, alloc, field.value),
            3 => CellKind::take_sheet(choice, alloc, field.value),
            4 => CellKind::take_row(choice, alloc, field.value),
            _ => Ok(()),
        }
    }

    fn length(choice: &Option<CellKind>) -> u64 {
        match choice {
            None => 0,
            Some(CellKind::Number(item)) => item_len::<Bits64>(item, CELL_NUMBER),
            Some(CellKind::Text(item)) => item_len::<Utf8>(item, CELL_TEXT),
            Some(CellKind::Sheet(item)) => item_len::<Enclosing<SheetRules>>(item, CELL_SHEET),
            Some(CellKind::Row(item)) => item_len::<Enclosing<RowRules>>(item, CELL_ROW),
        }
    }

    fn write(choice: &Option<CellKind>, out: &mut Vec<u8>) -> Result<(), CodecError> {
        match choice {
            None => Ok(()),
            Some(CellKind::Number(item)) => put_item::<Bits64>(item, CELL_NUMBER, out),
            Some(CellKind::Text(item)) => put_item::<Utf8>(item, CELL_TEXT, out),
            Some(CellKind::Sheet(item)) => put_item::<Enclosing<SheetRules>>(item, CELL_SHEET, out),
            Some(CellKind::Row(item)) => put_item::<Enclosing<RowRules>>(item, CELL_ROW, out),
        }
    }

    fn try_clone(choice: &Option<CellKind>) -> Result<Option<CellKind>, AllocError> {
        Ok(match choice {
            None => None,
            Some(CellKind::Number(item)) => Some(CellKind::Number(Bits64::try_clone(item)?)),
            Some(CellKind::Text(item)) => Some(CellKind::Text(Utf8::try_clone(item)?)),
            Some(CellKind::Sheet(item)) => {
                Some(CellKind::Sheet(Enclosing::<SheetRules>::try_clone(item)?))
            }
            Some(CellKind::Row(item)) => {
                Some(CellKind::Row(Enclosing::<RowRules>::try_clone(item)?))
            }
        })
    }

    fn lemma_is_value(choice: &Option<CellKind>) {
        match choice {
            None => {}
            Some(CellKind::Number(item)) => Bits64::lemma_is_value(item),
            Some(CellKind::Text(item)) => Utf8::lemma_is_value(item),
            Some(CellKind::Sheet(item)) => Enclosing::<SheetRules>::lemma_is_value(item),
            Some(CellKind::Row(item)) => Enclosing::<RowRules>::lemma_is_value(item),
        }
    }
}

impl TryClone for Cell {
    fn try_clone(&self) -> Result<Cell, AllocError> {
        let kind = CellKind::try_clone(&self.kind)?;
        Ok(Cell { kind })
    }
}

impl WireMessage for Cell {
    ghost use Rattle.ttrpc_test_members.specs.Messages.{cell};

    ghost is_value = { cell.part.is_value };

    ghost empty = { cell.part.empty };

    ghost step = { cell.part.step };

    ghost fields = { cell.part.fields };

    fn new(alloc: Global) -> Cell {
        Cell { kind: None }
    }

    fn put(&mut self, alloc: Global, field: Field<'_>) -> Result<(), CodecError> {
        match field.number.value {
            1 | 2 | 3 | 4 => CellKind::put(&mut self.kind, alloc, field),
            _ => Ok(()),
        }
    }

    #[tactic(auto, using(ttrpc_members::proofs::Groups::flat_measured))]
    fn length(&self) -> u64 {
        let len: u64 = 0;
        len.saturating_add(CellKind::length(&self.kind))
    }

    #[tactic(auto, using(ttrpc_members::proofs::Groups::flat_written, ttrpc_members::proofs::Groups::flat_len))]
    fn write(&self, out: &mut Vec<u8>) -> Result<(), CodecError> {
        CellKind::write(&self.kind, out)
    }

    fn lemma_is_value(&self) {
        CellKind::lemma_is_value(&self.kind);
    }

    ghost again = { cell.laws.again cell.valid };

    ghost fits = { cell.laws.fits cell.valid };
}

impl Named for Cell {
    ghost use Rattle.std.specs.Prelude.{codes};

    ghost full_name = { codes "test.kinds.Cell" };

    fn full_name() -> &'static str {
        "test.kinds.Cell"
    }
}

/// The message `test.kinds.Row`.
#[derive(Drop)]
pub struct Row {
    /// Field 1.
    pub cells: Sequence<Enclosed<CellRules>>,
}

const ROW_CELLS: FieldNumber = FieldNumber { value: 1 };

impl TryClone for Row {
    fn try_clone(&self) -> Result<Row, AllocError> {
        let cells = Repeated::<Enclosing<CellRules>>::try_clone(&self.cells)?;
        Ok(Row { cells })
    }
}

impl WireMessage for Row {
    ghost use Rattle.ttrpc_test_members.specs.Messages.{row};

    ghost is_value = { row.part.is_value };

    ghost empty = { row.part.empty };

    ghost step = { row.part.step };

    ghost fields = { row.part.fields };

    fn new(alloc: Global) -> Row {
        Row {
            cells: Repeated::<Enclosing<CellRules>>::empty(alloc),
        }
    }

    fn put(&mut self, alloc: Global, field: Field<'_>) -> Result<(), CodecError> {
        match field.number.value {
            1 => Repeated::<Enclosing<CellRules>>::take(&mut self.cells, alloc, field.value),
            _ => Ok(()),
        }
    }

    #[tactic(auto, using(ttrpc_members::proofs::Groups::flat_measured))]
    fn length(&self) -> u64 {
        let len: u64 = 0;
        len.saturating_add(Repeated::<Enclosing<CellRules>>::length(&self.cells, ROW_CELLS))
    }

    #[tactic(auto, using(ttrpc_members::proofs::Groups::flat_written, ttrpc_members::proofs::Groups::flat_len))]
    fn write(&self, out: &mut Vec<u8>) -> Result<(), CodecError> {
        Repeated::<Enclosing<CellRules>>::write(&self.cells, ROW_CELLS, out)
    }

    fn lemma_is_value(&self) {
        Repeated::<Enclosing<CellRules>>::lemma_is_value(&self.cells);
    }

    ghost again = { row.laws.again row.valid };

    ghost fits = { row.laws.fits row.valid };
}

impl Named for Row {
    ghost use Rattle.std.specs.Prelude.{codes};

    ghost full_name = { codes "test.kinds.Row" };

    fn full_name() -> &'static str {
        "test.kinds.Row"
    }
}

/// What has to hold of the bytes of messages that may contain themselves, and of all that may be in them, by the place of a message's first rule.
const RULES: &[Rule] = &[
    Rule {
        message: 0,
        number: 1,
        content: Content::Text,
    },
    Rule {
        message: 0,
        number: 2,
        content: Content::Message(0),
    },
    Rule {
        message: 0,
        number: 3,
        content: Content::Message(0),
    },
    Rule {
        message: 0,
        number: 4,
        content: Content::Message(12),
    },
    Rule {
        message: 0,
        number: 5,
        content: Content::Message(6),
    },
    Rule {
        message: 0,
        number: 6,
        content: Content::Numbers(WireType::Varint),
    },
    Rule {
        message: 6,
        number: 1,
        content: Content::Text,
    },
    Rule {
        message: 7,
        number: 1,
        content: Content::Message(14),
    },
    Rule {
        message: 8,
        number: 2,
        content: Content::Text,
    },
    Rule {
        message: 8,
        number: 3,
        content: Content::Message(7),
    },
    Rule {
        message: 8,
        number: 4,
        content: Content::Message(11),
    },
    Rule {
        message: 11,
        number: 1,
        content: Content::Message(8),
    },
    Rule {
        message: 12,
        number: 1,
        content: Content::Text,
    },
    Rule {
        message: 12,
        number: 2,
        content: Content::Message(0),
    },
    Rule {
        message: 14,
        number: 1,
        content: Content::Text,
    },
    Rule {
        message: 14,
        number: 2,
        content: Content::Message(8),
    },
];

/// Stands for `Tree` where it is in another message, and kept as its bytes.
pub struct TreeRules {}

impl Recursive for TreeRules {
    ghost use Rattle.ttrpc_test_members.specs.Messages.{all_rules};

    ghost rules = { all_rules };

    ghost message = { 0 };

    fn rules() -> &'static [Rule] {
        RULES
    }

    fn message() -> u32 {
        0
    }
}

impl Enclosable for Tree {
    ghost use Rattle.ttrpc_test_members.specs.Messages.{all_rules, tree, tree_wants};
    ghost use Rattle.ttrpc_members.proofs.Proved.{reads_deep, reads_within};

    type Rules = TreeRules;

    ghost reads = { reads_within tree all_rules 0 tree_wants };

    ghost deep = { reads_deep tree all_rules 0 tree_wants };
}

/// Stands for `Sheet` where it is in another message, and kept as its bytes.
pub struct SheetRules {}

impl Recursive for SheetRules {
    ghost use Rattle.ttrpc_test_members.specs.Messages.{all_rules};

    ghost rules = { all_rules };

    ghost message = { 7 };

    fn rules() -> &'static [Rule] {
        RULES
    }

    fn message() -> u32 {
        7
    }
}

impl Enclosable for Sheet {
    ghost use Rattle.ttrpc_test_members.specs.Messages.{all_rules, sheet, sheet_wants};
    ghost use Rattle.ttrpc_members.proofs.Proved.{reads_deep, reads_within};

    type Rules = SheetRules;

    ghost reads = { reads_within sheet all_rules 7 sheet_wants };

    ghost deep = { reads_deep sheet all_rules 7 sheet_wants };
}

/// Stands for `Cell` where it is in another message, and kept as its bytes.
pub struct CellRules {}

impl Recursive for CellRules {
    ghost use Rattle.ttrpc_test_members.specs.Messages.{all_rules};

    ghost rules = { all_rules };

    ghost message = { 8 };

    fn rules() -> &'static [Rule] {
        RULES
    }

    fn message() -> u32 {
        8
    }
}

impl Enclosable for Cell {
    ghost use Rattle.ttrpc_test_members.specs.Messages.{all_rules, cell, cell_wants};
    ghost use Rattle.ttrpc_members.proofs.Proved.{reads_deep, reads_within};

    type Rules = CellRules;

    ghost reads = { reads_within cell all_rules 8 cell_wants };

    ghost deep = { reads_deep cell all_rules 8 cell_wants };
}

/// Stands for `Row` where it is in another message, and kept as its bytes.
pub struct RowRules {}

impl Recursive for RowRules {
    ghost use Rattle.ttrpc_test_members.specs.Messages.{all_rules};

    ghost rules = { all_rules };

    ghost message = { 11 };

    fn rules() -> &'static [Rule] {
        RULES
    }

    fn message() -> u32 {
        11
    }
}

impl Enclosable for Row {
    ghost use Rattle.ttrpc_test_members.specs.Messages.{all_rules, row, row_wants};
    ghost use Rattle.ttrpc_members.proofs.Proved.{reads_deep, reads_within};

    type Rules = RowRules;

    ghost reads = { reads_within row all_rules 11 row_wants };

    ghost deep = { reads_deep row all_rules 11 row_wants };
}
