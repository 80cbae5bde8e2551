// Numbers of directories and of transactions.
use std::alloc::{AllocError, AllocFailed};
use std::marker::Model;
use thiserror::Error;

/// Memory ran out. Nothing else is ever meant by it.
#[derive(Clone, Copy, Debug, PartialEq, Eq, Error)]
#[error("no memory")]
pub struct NoMemory;

impl From<AllocError> for NoMemory {
    fn from(_: AllocError) -> NoMemory {
        NoMemory
    }
}

impl<T: Drop> From<AllocFailed<T>> for NoMemory {
    fn from(_: AllocFailed<T>) -> NoMemory {
        NoMemory
    }
}

/// What tells that memory ran out. An error with a variant for it is made of any of them, by one `From`.
pub trait OutOfMemory {}

impl OutOfMemory for NoMemory {}

impl OutOfMemory for AllocError {}

impl<T: Drop> OutOfMemory for AllocFailed<T> {}

/// A name directory, by its place among those that are listed, from 0 on.
#[derive(Clone, Copy, Debug, PartialEq, Eq)]
pub struct DirNo(pub u8);

/// A transaction id: 0 before the first transaction, and at most 2^63 - 1, since Hadoop's `txid` is a signed `long`.
#[derive(Clone, Copy, Debug, PartialEq, Eq)]
pub struct Txid(pub u64);

impl Model for Txid {
    ghost use Rattle.std.specs.Prelude.{ℕ, ◌<◌, ◌^◌};

    ghost Value = { ℕ };

    ghost view = { λ id. id.0 };

    ghost invariant = { λ id. id.0 < 2 ^ 63 };

    ghost inverse = { λ n. record { 0 = n } };
}

/// The id of a segment's first record, at least 1: transactions are numbered from there.
#[derive(Clone, Copy, Debug, PartialEq, Eq)]
pub struct FirstTxid(pub Txid);

impl Model for FirstTxid {
    ghost use Rattle.std.specs.Prelude.{ℕ, ◌<◌};

    ghost Value = { ℕ };

    ghost view = { λ id. id.0 };

    ghost invariant = { λ id. 0 < id.0 };

    ghost inverse = { λ n. record { 0 = n } };
}

/// The first and the last id of a finalized segment, which holds each id between them.
#[derive(Clone, Copy, Debug, PartialEq, Eq)]
pub struct Span {
    /// The id of its first record, at least 1.
    pub first: Txid,
    /// The id of its last record, which isn't below the first.
    pub last: Txid,
}

impl Model for Span {
    ghost use Rattle.std.specs.Prelude.{ℕ, ◌<◌, ◌≤◌};

    ghost Value = { ℕ × ℕ };

    ghost view = { λ span. (span.first, span.last) };

    ghost invariant = { λ span. (0 < span.first) × (span.first ≤ span.last) };

    ghost inverse = { λ ids. record { first = ids.0; last = ids.1 } };
}
