//! Laws of ranges and slices over all words, each the contract of a function that does nothing. A
//! range is some bits of a word side by side; slices say in which ranges of a word a number's bits
//! stand.

ghost use Rattle.rb_bits.specs.Laws.{AreTaken, ArePut, GathersBack};

/// What is taken from a range has at most as many bits as the range, and the lowest bits of a word
/// that has no others are the word. A range of a range is a range, and two side by side are one. A
/// range taken with the zeros below it, and a word masked by a range, are the range's number times
/// a power of two.
pub fn ranges_are_taken()
    ensures { AreTaken }
{}

/// What is put into a range, and has no more bits than it, is taken from it again, and ranges that
/// share no bit with it stay.
pub fn ranges_are_put()
    ensures { ArePut }
{}

/// What was scattered over slices that share no bit is gathered from them again, as far as they
/// name its bits.
pub fn slices_gather_back()
    ensures { GathersBack }
{}
