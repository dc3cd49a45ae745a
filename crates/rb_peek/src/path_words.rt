//! Words of an image, by where they are kept.
//!
//! A word of a block is known by the block's address, its base, and its byte there; a root word, at
//! base 0, by its number.

ghost use Rattle.std.specs.Prelude.{◌≡◌, ℕ, IfOk, OnOk};
ghost use Rattle.rb_peek.specs.inner.Checking.{has_word, is_kept_at, with_word};

use indexmap::IndexSet;
use rb_image::kept::Kept;
use std::alloc::{AllocError, Global};
use std::marker::Model;

/// Where a word is kept: in the block that begins at `base`, from byte `place` on, or, where the base is 0, in the root
/// word with the number `place`.
#[derive(Clone, Copy, PartialEq, Eq, Hash)]
pub struct WordAt {
    pub base: u64,
    pub place: u64,
}

/// Words of an image, each once.
#[derive(Drop)]
pub struct PathWords {
    places: IndexSet<WordAt>,
}

impl Model for PathWords {
    ghost use Rattle.std.specs.Prelude.{List};
    ghost use Rattle.rb_peek.specs.declared.path_words.WordAt.{WordAt};

    ghost Value = { List WordAt };

    ghost view = { λ w. w.places.keys };
}

impl PathWords {
    // Adds the place where a word is kept, or where the bits of one are.
    fn add(&mut self, word: Kept) -> Result<(), AllocError>
        ensures { OnOk result ((base place : ℕ) → has_word self.new base place ≡ with_word self.old word base place) }
    {
        self.places.insert(WordAt {
            base: word.base,
            place: word.place,
        })?;
        Ok(())
    }

    /// The places at which these words are kept.
    pub(crate) fn of(alloc: Global, words: &[Kept]) -> Result<Self, AllocError>
        ensures { IfOk result (λ found. (base place : ℕ)
            → has_word found base place ≡ is_kept_at words.now base place) }
    {
        let mut found = PathWords {
            places: IndexSet::new(alloc),
        };
        for word in words {
            found.add(*word)?;
        }
        Ok(found)
    }

    /// Whether one of the words is kept where this word is, or bits of one.
    pub(crate) fn has(&self, word: Kept) -> bool
        ensures { result ≡ has_word self.now word.base word.place }
    {
        self.places.contains(&WordAt {
            base: word.base,
            place: word.place,
        })
    }
}
