// A transaction with its place in the journal.
ghost use Rattle.std.specs.Prelude.{◌≡◌, ◌↔◌, ℕ, ◌+◌, ◌≤◌, ◌++◌, List, length, take, drop, Some, None, IfOk, IfSome, OnErr, vec_len, vec_capacity};
ghost use Rattle.nn_record.specs.declared.transaction.Record.{Record};
ghost use Rattle.nn_base.specs.Limits.{most_record};
ghost use Rattle.nn_record.specs.Ops.{IsOp};
ghost use Rattle.nn_record.specs.Spelling.{spelling, IsRecord, Begins, BeginsWithFrame, NoneBeginsAnother};

use crate::Op;
use crate::reading::first_record;
use crate::records::put_record;
use nn_base::{NoMemory, Txid};
use std::alloc::Global;

/// One transaction of the edit log.
#[derive(Drop)]
pub struct Record {
    /// Its id, at least 1: each record of a journal has the id after that of the record before it.
    pub id: Txid,
    /// What it does.
    pub op: Op,
}

impl Record {
    /// Appends the record's bytes. It takes no memory: the caller has made room for the longest that a record may be.
    pub fn put(&self, out: &mut Vec<u8>)
        requires id { 1 ≤ self.now.id }
        requires op { IsOp self.now.op }
        requires room { vec_len out.old + most_record ≤ vec_capacity out.old }
        ensures text { out.new.items ≡ out.old.items ++ spelling self.now }
        ensures record { IsRecord self.now }
        ensures capacity { vec_capacity out.old ≤ vec_capacity out.new }
    {
        put_record(self.id, &self.op, out);
    }

    /// Appends the bytes of the record that has this id and does this, as `put` does.
    pub fn put_op(id: Txid, op: &Op, out: &mut Vec<u8>)
        requires id { 1 ≤ id }
        requires op { IsOp op.now }
        requires room { vec_len out.old + most_record ≤ vec_capacity out.old }
        ensures text { out.new.items ≡ out.old.items ++ spelling (record { id = id; op = op.now }) }
        ensures record { IsRecord (record { id = id; op = op.now }) }
        ensures capacity { vec_capacity out.old ≤ vec_capacity out.new }
    {
        put_record(id, op, out);
    }

    /// The record at the front of the bytes, and how many bytes it has. There is none where the bytes end early, where
    /// the checksum isn't that of the bytes before it, where no opcode of ours stands or a field is out of its range,
    /// and where the body is longer or shorter than its fields.
    pub fn get(alloc: Global, bytes: &[u8]) -> Result<Option<(Record, usize)>, NoMemory>
        ensures some { IfOk result (λ found. IfSome found (λ at. Begins bytes.now at.0 (drop at.1 bytes.now))) }
        ensures len { IfOk result (λ found. IfSome found (λ at. (at.1 ≡ length (spelling at.0)) × (at.1 ≤ length bytes.now))) }

        // It is what a front of the bytes spells, and None exactly where that spells no record.
        ensures exact { IfOk result (λ found. (r : Record) (n : ℕ) → (found ≡ Some (r, n)) ↔ (IsRecord r × (n ≤ length bytes.now) × (take n bytes.now ≡ spelling r))) }
        ensures none { IfOk result (λ found. (found ≡ None) ↔ ((r : Record) (rest : List ℕ) → ¬ Begins bytes.now r rest)) }

        // What was put is got again, whatever follows.
        ensures again { IfOk result (λ found. (r : Record) (rest : List ℕ) → Begins bytes.now r rest → found ≡ Some (r, length (spelling r))) }
        ensures apart { NoneBeginsAnother }

        // Memory is asked for only once a whole frame was seen: no length of a damaged record reserves any.
        ensures memory { OnErr result (BeginsWithFrame bytes.now) }
    {
        first_record(alloc, bytes)
    }
}
