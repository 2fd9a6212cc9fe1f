//! The bytes that were read and not yet taken, in a buffer of a fixed size, and where the first line among them ends.
//! The buffer is made once, and stands on the heap: a line may be longer than a stack has room.

ghost use Rattle.std.specs.Prelude.{◌≡◌, ℕ, ◌+◌, ◌-◌, ◌<◌, ◌≤◌, ◌==◌, List, [], ◌++◌, length, take, drop, slice_range, position, None, IfOk, OnOk, OnErr, true, false};
ghost use Rattle.std.specs.Io.KnownBytes.{Consumes, IsAtEnd, Keeps};

use crate::{Input, Source};
use memchr::memchr;
use std::alloc::{AllocError, Global};
use std::io;
use std::marker::Model;

/// A buffer of `N` bytes, as the bytes that it holds.
#[derive(Drop)]
pub struct LineBuffer<const N: usize> {
    bytes: Vec<u8>,
    start: usize,
    /// No line feed stands from `start` to here.
    searched: usize,
    end: usize,
}

impl<const N: usize> Model for LineBuffer<N> {
    ghost use Rattle.std.specs.Prelude.{◌≡◌, ℕ, ◌≤◌, ◌==◌, false, List, slice_range, vec_len, All};

    ghost Value = { List ℕ };

    ghost view = { λ b. slice_range b.bytes.items b.start b.end };

    ghost invariant = { λ b. (b.start ≤ b.searched) × (b.searched ≤ b.end) × (b.end ≤ N) × (vec_len b.bytes ≡ N)
        × All (λ x. (x == 10) ≡ false) (slice_range b.bytes.items b.start b.searched) };
}

/// The index of the first line feed.
fn line_feed_in(bytes: &[u8]) -> Option<usize>
    ensures { result ≡ position (λ b. b == 10) bytes.now }
{
    memchr(b'\n', bytes)
}

/// Copies the bytes from start to end to the front.
fn move_to_front(bytes: &mut [u8], start: usize, end: usize)
    requires ordered { start ≤ end }
    requires within { end ≤ length bytes.old }
    ensures { take (end - start) bytes.new ≡ slice_range bytes.old start end }
{
    if start > 0 {
        bytes.copy_within(start..end, 0);
    }
}

impl<const N: usize> LineBuffer<N> {
    /// The empty buffer.
    pub fn new(alloc: Global) -> Result<Self, AllocError>
        ensures { IfOk result (λ buffer. buffer ≡ []) }
    {
        Ok(LineBuffer {
            bytes: vec![in alloc; 0u8; N]?,
            start: 0,
            searched: 0,
            end: 0,
        })
    }

    /// The bytes that it holds.
    pub fn as_slice(&self) -> &[u8]
        ensures { result.now ≡ self.now }
    {
        &self.bytes.as_slice()[self.start..self.end]
    }

    /// Forgets the first bytes.
    pub fn skip(&mut self, count: usize)
        requires { count ≤ length self.old }
        ensures { self.new ≡ drop count self.old }
    {
        self.start += count;
        self.searched = self.start;
    }

    /// The index of the first line feed.
    pub fn line_feed_at(&self) -> Option<usize>
        ensures { result ≡ position (λ b. b == 10) self.now }
    {
        let index = line_feed_in(&self.bytes.as_slice()[self.searched..self.end])?;
        Some(self.searched - self.start + index)
    }

    /// Reads more bytes behind those that it holds, among which no line feed is, and says whether there were any.
    pub fn read_more<R: Source>(&mut self, input: &mut Input<R>) -> io::Result<bool>
        requires room { length self.old < N }
        requires whole { position (λ b. b == 10) self.old ≡ None }
        ensures ok { IfOk result (λ any. (more : List ℕ) × (self.new ≡ self.old ++ more)
            × Consumes input.old.remaining input.new.remaining more
            × (any ≡ true → 0 < length more)
            × (any ≡ false → (more ≡ []) × IsAtEnd input.new.remaining)) }
        ensures within { OnOk result (length self.new ≤ N) }
        ensures calm { OnOk result (input.new.failed ≡ input.old.failed) }
        ensures err { OnErr result (input.new.failed ≡ true) }
        ensures left { OnErr result (Keeps input.old.remaining input.new.remaining) }
    {
        let held = self.end - self.start;
        let bytes = self.bytes.as_mut_slice();
        move_to_front(bytes, self.start, self.end);
        self.start = 0;
        self.searched = held;
        self.end = held;
        let count = input.read(&mut bytes[held..])?;
        self.end = held + count;
        Ok(count > 0)
    }
}
