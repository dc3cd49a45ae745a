//! The words of a command line, each a list of bytes.

ghost use Rattle.std.specs.Prelude.{◌≡◌, ◌≤◌, ◌↔◌, ℕ, List, [], ◌∷◌, ◌++◌, length, slice_get, IsNone, OnOk, OnErr};
ghost use Rattle.std.specs.Option.{option_copied};

use crate::seq::{Name, Seq};
use std::alloc::{AllocError, Global};
use std::marker::Model;

/// A list of words, without the program's own name.
#[derive(Drop)]
pub struct Words {
    // Where the memory of further words comes from.
    alloc: Global,
    // The words, in order.
    words: Seq<Name>,
}

impl Model for Words {
    ghost use Rattle.std.specs.Prelude.{ℕ, List};

    ghost Value = { List (List ℕ) };

    ghost view = { λ w. w.words };
}

impl Words {
    /// No words, which take no memory.
    pub fn new(alloc: Global) -> Words
        ensures { result ≡ [] }
    {
        Words {
            alloc,
            words: Seq::new(alloc),
        }
    }

    /// Adds one word at the end.
    ///
    /// # Errors
    ///
    /// Want of memory; the words stay as they are.
    pub fn push(&mut self, word: &[u8]) -> Result<(), AllocError>
        ensures ok { OnOk result (self.new ≡ self.old ++ word.now ∷ []) }
        ensures err { OnErr result (self.new ≡ self.old) }
    {
        let bytes = Vec::from_slice(self.alloc, word)?;
        self.words.push(Seq::from_vec(bytes))
    }

    /// How many words there are.
    pub fn len(&self) -> usize
        ensures { result ≡ length self.now }
    {
        self.words.len()
    }

    /// The word at index `i`, from 0; `None` where there is none.
    pub fn get(&self, i: usize) -> Option<&[u8]>
        ensures value { option_copied result ≡ slice_get self.now i }
        ensures absent { IsNone result ↔ (length self.now ≤ i) }
    {
        match self.words.get(i) {
            None => None,
            Some(word) => Some(word.as_slice()),
        }
    }

    /// The words, in order.
    pub fn as_slice(&self) -> &[Name]
        ensures { result.now ≡ self.now }
    {
        self.words.as_slice()
    }
}
