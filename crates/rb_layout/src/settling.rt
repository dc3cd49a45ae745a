//! Which goals hold. A goal asks whether a root word of a data type never has a number in a range
//! of its bits, and an entry is a goal with a mark, that it is known to hold. A goal holds by one
//! step from the marked ones where its type has a leaf, and each leaf has the root word and bars
//! the number there by a constant bit, by a pointer, or by a marked goal. Passes over the entries
//! mark those whose goals hold so, until a pass marks none. A goal that would rest on itself alone
//! is never marked.

ghost use Rattle.std.specs.Prelude.{◌≡◌, length, slice_get, Some};
ghost use Rattle.rb_layout.specs.inner.Barring.{IsAsked, AreAsked};
ghost use Rattle.rb_layout.specs.inner.Settling.{turns, after_look, after_looks, changes, AreSettled};

use crate::barring::goal_barred;
use crate::goals::{Entry, Goals};
use crate::layout::Layout;
use rb_core::types::DataDecl;

// Whether a look marks this entry: it is not marked, and its goal holds by one step from the marked
// ones.
fn turns(types: &[DataDecl], layouts: &[Layout], entries: &Goals, entry: Entry) -> bool
    requires { IsAsked entry.goal.literal }
    ensures { result ≡ turns types.now layouts.now entries.now (Some entry) }
{
    if entry.barred {
        return false;
    }
    goal_barred(types, layouts, &entry.goal, entries)
}

// Looks at entry `i`: marks it where it is not marked and its goal holds by one step from the
// marked ones, and tells whether it did. Where there is no such entry nothing is marked.
fn look(types: &[DataDecl], layouts: &[Layout], entries: &mut Goals, i: usize) -> bool
    requires { AreAsked entries.old }
    ensures result { result ≡ turns types.now layouts.now entries.old (slice_get entries.old i) }
    ensures new { entries.new ≡ after_look types.now layouts.now i entries.old }
{
    let entry = match entries.get(i) {
        None => return false,
        Some(entry) => entry,
    };
    if !turns(types, layouts, entries, entry) {
        return false;
    }
    entries.mark(i);
    true
}

// Looks at each entry, from the last to the first, and tells whether it marked one.
fn pass(types: &[DataDecl], layouts: &[Layout], entries: &mut Goals) -> bool
    requires { AreAsked entries.old }
    ensures result { result ≡ changes types.now layouts.now (length entries.old) entries.old }
    ensures new { entries.new ≡ after_looks types.now layouts.now (length entries.old) entries.old }
{
    let mut changed = false;
    for i in (0..entries.len()).rev() {
        if look(types, layouts, entries, i) {
            changed = true;
        }
    }
    changed
}

/// Marks the goals that hold, by passes until one marks none. A goal that would rest on itself
/// alone stays unmarked.
pub(crate) fn settle(types: &[DataDecl], layouts: &[Layout], entries: &mut Goals)
    requires { AreAsked entries.old }
    ensures { AreSettled types.now layouts.now entries.old entries.new }
{
    while pass(types, layouts, entries) {}
}
