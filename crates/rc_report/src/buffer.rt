//! The part of a line that is in hand.
ghost use Rattle.std.specs.Prelude.{◌≡◌, ◌≤◌, ◌+◌, ◌-◌, ◌++◌, ◌↔◌, [], IfOk, IsTrue, length, take, drop};

use std::alloc::{AllocError, Global};
use std::marker::Model;

/// How many bytes are handed over at once.
const PIECE: usize = 512;

/// The bytes of a line that are not handed over yet, at most 512. The room for them is taken when it is made.
#[derive(Drop)]
pub struct Buffer {
    bytes: Vec<u8>,
}

impl Model for Buffer {
    ghost use Rattle.std.specs.Prelude.{ℕ, List, ◌≤◌, vec_len, vec_capacity};

    ghost Value = { List ℕ };

    ghost view = { λ b. b.bytes.items };

    ghost invariant = { λ b. (vec_len b.bytes ≤ 512) × (512 ≤ vec_capacity b.bytes) };
}

impl Buffer {
    /// Nothing in hand, and room for 512 bytes. It errs only for want of memory.
    pub fn new(alloc: Global) -> Result<Buffer, AllocError>
        ensures { IfOk result (λ b. b ≡ []) }
    {
        let bytes = Vec::with_capacity(alloc, PIECE)?;
        Ok(Buffer { bytes })
    }

    /// Whether nothing is in hand.
    pub(crate) fn is_empty(&self) -> bool
        ensures { IsTrue result ↔ (self.now ≡ []) }
    {
        self.bytes.is_empty()
    }

    /// The bytes in hand.
    pub(crate) fn as_slice(&self) -> &[u8]
        ensures { result.now ≡ self.now }
    {
        self.bytes.as_slice()
    }

    /// Drops what is in hand.
    pub(crate) fn clear(&mut self)
        ensures { self.new ≡ [] }
    {
        self.bytes.clear();
    }

    /// Whether there is room for so many bytes more.
    pub(crate) fn has_room(&self, count: usize) -> bool
        ensures { IsTrue result ↔ (length self.now + count ≤ 512) }
    {
        count <= PIECE - self.bytes.len()
    }

    /// Takes all of the bytes.
    pub(crate) fn push(&mut self, bytes: &[u8])
        requires { length self.old + length bytes.now ≤ 512 }
        ensures { self.new ≡ self.old ++ bytes.now }
    {
        self.bytes.extend_from_slice(bytes).unwrap();
    }

    /// Takes as many of the bytes as there is room for, and gives the others.
    pub(crate) fn fill<'a>(&mut self, bytes: &'a [u8]) -> &'a [u8]
        ensures taken { self.new ≡ self.old ++ take (512 - length self.old) bytes.now }
        ensures rest { result.now ≡ drop (512 - length self.old) bytes.now }
    {
        let room = (PIECE - self.bytes.len()).min(bytes.len());
        let (front, rest) = bytes.split_at(room);
        self.bytes.extend_from_slice(front).unwrap();
        rest
    }
}
