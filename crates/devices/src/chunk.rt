//! A buffer that collects bytes, so that they are written in large pieces.

ghost use Rattle.std.specs.Prelude.{◌≡◌, ◌+◌, ◌≤◌, ◌++◌, ℕ, List, [], false, length, take, IfOk, OnOk, OnErr};
ghost use Rattle.devices.specs.Output.{buffered_text, SendsText, SendsSoFar};
ghost use Rattle.devices.specs.Watched.{device_of, has_failed};

use crate::buffered::Buffered;
use crate::fault::EngineFault;
use crate::output::send;
use crate::watched::Watched;
use std::alloc::{AllocError, Global};
use std::io::Write;
use std::marker::Model;

/// The maximum number of bytes that a chunk holds.
pub const CHUNK_LEN: usize = 1 << 16;

/// A buffer of at most `CHUNK_LEN` bytes that wait to be written. Contracts see it as the list of
/// these bytes.
#[derive(Drop)]
pub struct Chunk {
    bytes: Vec<u8>,
    filled: usize,
}

impl Model for Chunk {
    ghost use Rattle.std.specs.Prelude.{◌≡◌, ◌≤◌, ℕ, List, length, take};
    ghost use Rattle.devices.specs.declared.chunk.TheConstants.{CHUNK_LEN};

    ghost Value = { List ℕ };

    ghost view = { λ chunk. take chunk.filled chunk.bytes.items };

    ghost invariant = { λ chunk. (length chunk.bytes.items ≡ CHUNK_LEN) × (chunk.filled ≤ CHUNK_LEN) };
}

/// A text that is stored over bytes by a function of its own, which keeps its place in a variable.
pub trait ToBytes {
    /// The text.
    ghost text: { Self → List ℕ };

    /// A bound on the length of the text.
    ghost most: { Self → ℕ };

    /// The number of bytes from the start on that can change.
    ghost room: { Self → ℕ };

    /// Stores the text from index `start` on. Returns the index of its end.
    fn store(&self, bytes: &mut [u8], start: usize) -> usize
        requires { start + room self.now ≤ length bytes.old }
        ensures end { (start ≤ result) × (result ≤ length bytes.old) }
        ensures few { result ≤ start + most self.now }
        ensures text { take result bytes.new ≡ take start bytes.old ++ text self.now };
}

impl Chunk {
    /// Allocates an empty chunk.
    pub fn new(alloc: Global) -> Result<Chunk, AllocError>
        ensures { IfOk result (λ chunk. chunk ≡ []) }
    {
        let bytes = vec![in alloc; 0; CHUNK_LEN]?;
        Ok(Chunk { bytes, filled: 0 })
    }

    /// Appends all bytes of `text`.
    pub fn push(&mut self, text: &[u8])
        requires { length self.old + length text.now ≤ CHUNK_LEN }
        ensures { self.new ≡ self.old ++ text.now }
    {
        self.push_prefix(text, text.len());
    }

    /// Appends the first `len` bytes of `text`. There must be space for all bytes of `text`, so that
    /// a short text in a buffer of fixed length can be copied whole.
    pub fn push_prefix(&mut self, text: &[u8], len: usize)
        requires len { len ≤ length text.now }
        requires room { length self.old + length text.now ≤ CHUNK_LEN }
        ensures { self.new ≡ self.old ++ take len text.now }
    {
        write_at(&mut self.bytes, self.filled, text);
        self.filled += len;
    }

    /// Appends a text. There must be space for all bytes that can change.
    #[inline(always)]
    pub fn push_stored<T: ToBytes>(&mut self, text: &T)
        requires { length self.old + T.room text.now ≤ CHUNK_LEN }
        ensures text { self.new ≡ self.old ++ T.text text.now }
        ensures few { length self.new ≤ length self.old + T.most text.now }
    {
        let bytes: &mut [u8] = &mut self.bytes;
        self.filled = text.store(bytes, self.filled);
    }

    /// Writes the contents and empties the chunk.
    ///
    /// Fails with `Write` exactly if a write failed or took no byte; a prefix of the contents was
    /// then written, and the chunk is unchanged.
    pub fn send<W: Write>(&mut self, writer: &mut Watched<W>) -> Result<(), EngineFault>
        requires { has_failed writer.old ≡ false }
        ensures sent { SendsText self.old (W.contents (device_of writer.old)) (W.contents (device_of writer.new))
            (has_failed writer.new) result }
        ensures empty { OnOk result (self.new ≡ []) }
        ensures kept { OnErr result (self.new ≡ self.old) }
    {
        let filled = self.filled;
        send(writer, &self.bytes[..filled])?;
        self.filled = 0;
        Ok(())
    }

    /// Makes space for `room` more bytes: if there is less, writes the contents and empties the
    /// chunk, as `send` does, with the same fault.
    pub fn make_room<W: Write>(
        &mut self,
        room: usize,
        writer: &mut Watched<W>,
    ) -> Result<(), EngineFault>
        requires short { room ≤ CHUNK_LEN }
        requires working { has_failed writer.old ≡ false }
        ensures sent { SendsSoFar self.old self.new (W.contents (device_of writer.old))
            (W.contents (device_of writer.new)) (has_failed writer.new) result }
        ensures room { OnOk result (length self.new + room ≤ CHUNK_LEN) }
        ensures kept { OnErr result (self.new ≡ self.old) }
    {
        if CHUNK_LEN - self.filled < room {
            self.send(writer)?;
        }
        Ok(())
    }
}

/// Copies a text over the bytes from index `start` on.
pub fn write_at(bytes: &mut [u8], start: usize, text: &[u8])
    requires room { start + length text.now ≤ length bytes.old }
    ensures len { length bytes.new ≡ length bytes.old }
    ensures fronts { (n : ℕ) → n ≤ length text.now
        → take (start + n) bytes.new ≡ take start bytes.old ++ take n text.now }
{
    bytes[start..start + text.len()].copy_from_slice(text);
}

/// Copies the buffer of a text over the bytes from index `start` on. Returns the index of the end of
/// the text.
#[inline(always)]
pub fn write_buffered(bytes: &mut [u8], start: usize, text: Buffered<'_>) -> usize
    requires room { start + length text.buffer.now ≤ length bytes.old }
    ensures end { result ≡ start + text.entry.len }
    ensures len { length bytes.new ≡ length bytes.old }
    ensures text { take result bytes.new ≡ take start bytes.old ++ buffered_text text.entry }
{
    write_at(bytes, start, text.buffer);
    start + text.len
}
