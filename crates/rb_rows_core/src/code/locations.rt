//! Code that reads the bits at locations: the slot that has them, and how many instructions stand in the body then.
//! Both were counted by hand, by the form in which the code is made, which no contract fixes. Bits of a slot are taken;
//! an address whose bits begin at the bit of its alignment is masked, by a number and an `and`, any other is taken,
//! unless it is all of its word, and multiplied, by a number and a `mul`; a word of a block is loaded, and nothing is
//! taken of it where the location has all its bits.

use rb_core::layout_decl::{Loc, Step};
use rb_core::seq::Seq;
use rb_fetch::fetch::fetch_loc;
use rb_target::body::Body;
use std::alloc::{AllocError, Global};
use std::test::Fail;

// The location of `l` bits from bit `o` on of a word, or of what the steps reach through the pointer there.
fn location(alloc: Global, word: u64, o: u64, l: u64, steps: &[Step]) -> Result<Loc, AllocError> {
    let steps = Seq::from_vec(Vec::from_slice(alloc, steps)?);
    Ok(Loc { word, o, l, steps })
}

// The slot in which bits at a location come to stand, of words in the slots 0 and 1, and the instructions so far.
fn fetch_code(alloc: Global, body: &mut Body, loc: &Loc) -> Result<(usize, usize), AllocError> {
    let slot = fetch_loc(alloc, body, &[0, 1], loc)?;
    Ok((slot, body.len()))
}

#[test]
fn locations_are_read(rt: HostRuntime) -> Result<(), Fail> {
    let mut body = Body::new(rt.alloc(), 2);
    // take
    let near = location(rt.alloc(), 1, 3, 5, &[])?;
    assert!(rt; fetch_code(rt.alloc(), &mut body, &near)? == (2, 1));
    // const, and, load
    let whole = Step {
        align: 8,
        byte: 0,
        width: 64,
        o: 0,
        l: 64,
    };
    let masked = location(rt.alloc(), 0, 3, 61, &[whole])?;
    assert!(rt; fetch_code(rt.alloc(), &mut body, &masked)? == (5, 4));
    // const, mul, load, take
    let part = Step {
        align: 8,
        byte: 2,
        width: 8,
        o: 1,
        l: 3,
    };
    let multiplied = location(rt.alloc(), 1, 0, 64, &[part])?;
    assert!(rt; fetch_code(rt.alloc(), &mut body, &multiplied)? == (9, 8));
    // take, const, mul, load
    let taken = location(rt.alloc(), 0, 4, 60, &[whole])?;
    assert!(rt; fetch_code(rt.alloc(), &mut body, &taken)? == (13, 12));
    Ok(())
}
