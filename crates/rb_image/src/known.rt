//! Places that were found sound.
//!
//! A place is a type's number and the words at which a value of it is to stand. It is sound if
//! neither it nor any place below it has a fault. Two places are the same where type, words, and
//! where the words are kept, are.

ghost use Rattle.std.specs.Prelude.{◌≡◌, [], OnOk};
ghost use Rattle.rb_image.specs.Parts.{at_of};
ghost use Rattle.rb_image.specs.inner.Knowing.{is_among, with_place};

use crate::kept::Place;
use indexmap::IndexSet;
use std::alloc::{AllocError, Global};
use std::marker::Model;

/// Places that were found sound, each once.
#[derive(Drop)]
pub struct Known {
    places: IndexSet<Place>,
}

impl Model for Known {
    ghost use Rattle.std.specs.Prelude.{List, map};
    ghost use Rattle.rb_image.specs.Parts.{At, at_of};

    ghost Value = { List At };

    ghost view = { λ k. map at_of k.places.keys };
}

impl Known {
    /// No places: nothing was found sound yet.
    pub fn new(alloc: Global) -> Self
        ensures { result ≡ [] }
    {
        Known {
            places: IndexSet::new(alloc),
        }
    }

    /// Whether the place is one of those that were found sound.
    pub fn has(&self, place: &Place) -> bool
        ensures { result ≡ is_among self.now (at_of place.now) }
    {
        self.places.contains(place)
    }

    /// Adds a place that was found sound, if it is not there yet.
    ///
    /// # Errors
    ///
    /// Want of memory.
    pub fn add(&mut self, place: Place) -> Result<(), AllocError>
        ensures { OnOk result (self.new ≡ with_place self.old (at_of place)) }
    {
        self.places.insert(place)?;
        Ok(())
    }
}
