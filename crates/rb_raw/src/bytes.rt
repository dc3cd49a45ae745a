//! Bytes that are never initialised.

ghost use Rattle.std.specs.Prelude.{◌≡◌, ℕ, ◌+◌, ◌^◌, ◌<◌, ◌≤◌, IfOk, IsOk, IsSome, None, Some, Ok, length, replicate, slice_set};
ghost use Rattle.rb_bytes.specs.Memory.{byte_at, read_le, write_le};

use crate::written::Written;
use core::slots::{Lease, Slots, release, reserve};
use std::alloc::{AllocError, Global};
use std::marker::Model;

/// Places for bytes, each written or not. Contracts see by address the byte that was written there;
/// code keeps nothing of it.
pub struct RawBytes {
    places: Slots<u8>,
    lease: Lease<u8, Global>,
    alloc: Global,
    written: Written,
}

impl Model for RawBytes {
    ghost use Rattle.std.specs.Prelude.{ℕ, List, Option};

    ghost Value = { List (Option ℕ) };

    ghost use Rattle.rb_raw.specs.inner.Held.{bytes_of, IsHeld};

    ghost view = { bytes_of };

    ghost invariant = { IsHeld };
}

impl Drop for RawBytes {
    fn drop(self) {
        let RawBytes {
            places,
            lease,
            alloc,
            written: _,
        } = self;
        release(&alloc, places, lease);
    }
}

impl RawBytes {
    /// As many places as there are marks, by one allocation that is not initialised.
    ///
    /// # Errors
    ///
    /// Want of memory.
    pub fn new(alloc: Global, marks: &[u8]) -> Result<RawBytes, AllocError>
        ensures { IfOk result (λ bytes. bytes ≡ replicate (length marks.now) None) }
    {
        let (places, lease) = unsafe { reserve(&alloc, marks)? };
        let written = Written::nothing(marks.len());
        Ok(RawBytes {
            places,
            lease,
            alloc,
            written,
        })
    }

    /// Writes one byte at its address, over what was written there before.
    pub fn write(&mut self, at: usize, byte: u8)
        requires { at < length self.old }
        ensures { self.new ≡ slice_set self.old at (Some byte) }
    {
        self.places.put(at, byte);
        self.written.note(at, byte);
    }

    /// Reads the byte at an address. Nothing tests it, so the caller knows that one was written.
    pub fn read(&self, at: usize) -> u8
        requires { IsSome (byte_at self.now at) }
        ensures { byte_at self.now at ≡ Some result }
    {
        *self.places.get(at)
    }

    /// Writes the `count` low bytes of a word from `at` on, the lowest first; those above its eight
    /// are 0.
    pub fn write_word(&mut self, at: u64, count: u64, word: u64)
        requires within { at + count ≤ length self.old }
        requires small { at + count < 2 ^ 64 }
        ensures { self.new ≡ write_le self.old count at word }
    {
        let mut rest = word;
        for i in 0..count {
            self.write((at + i) as usize, (rest % 256) as u8);
            rest /= 256;
        }
    }

    /// The number in at most 8 bytes from `at` on, the lowest first. Nothing tests them, so the
    /// caller knows that all were written.
    pub fn read_word(&self, at: u64, count: u64) -> u64
        requires within { at + count ≤ length self.now }
        requires small { at + count < 2 ^ 64 }
        requires few { count ≤ 8 }
        requires written { IsOk (read_le self.now count at) }
        ensures { Ok result ≡ read_le self.now count at }
    {
        let mut word = 0;
        for i in 0..count {
            word += u64::from(self.read((at + i) as usize)) << (8 * i);
        }
        word
    }
}
