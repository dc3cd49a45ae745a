//! The branch word of RISC-V taken apart and put together, as its base instruction set lays it out: the
//! word is `beq x1, x2, +8`. Then each call at the word's ends, computed by hand.

ghost use Rattle.rb_bits.specs.Words.{IsRange};
ghost use Rattle.rb_bits.specs.Slices.{AreSlices};

use rb_bits::little_endian::{load_le, store_le};
use rb_bits::slices::{Slice, gather, scatter};
use rb_bits::words::{mask, put, take};

// The offset of a branch, in halves: its bits stand at 8 to 11, 25 to 30, 7 and 31.
fn branch() -> [Slice; 4]
    ensures { AreSlices result }
{
    [
        Slice { o: 8, a: 0, l: 4 },
        Slice { o: 25, a: 4, l: 6 },
        Slice { o: 7, a: 10, l: 1 },
        Slice { o: 31, a: 11, l: 1 },
    ]
}

// A range alone: `l` bits from bit `o` on of a word are those from bit `a` on of a number.
fn one(o: u32, a: u32, l: u32) -> [Slice; 1]
    requires word { IsRange o l }
    requires number { IsRange a l }
    ensures { AreSlices result }
{
    [Slice { o, a, l }]
}

#[test]
fn takes_a_branch_apart(rt: HostRuntime) {
    let word = 0x208463;
    let found = [
        take(word, 0, 7),
        take(word, 12, 3),
        take(word, 15, 5),
        take(word, 20, 5),
        gather(word, &branch()),
        load_le(&[0x63, 0x84, 0x20, 0x00]),
    ];
    assert_eq!(rt; found, [99, 0, 1, 2, 4, word]);
}

#[test]
fn puts_a_branch_together(rt: HostRuntime) {
    let fields = put(put(put(put(0, 0, 7, 99), 12, 3, 0), 15, 5, 1), 20, 5, 2);
    let found = [
        scatter(fields, &branch(), 4),
        scatter(0x208463, &branch(), 0xfff),
        gather(0xfe208fe3, &branch()),
    ];
    assert_eq!(rt; found, [0x208463, 0xfe208fe3, 0xfff]);
}

const ENDS: u64 = 0x8000_0000_0000_0001;

// o, l, the mask, what stands there in `ENDS`, and all ones with that range cleared
const RANGES: &[(u32, u32, u64, u64, u64)] = &[
    (0, 1, 1, 1, 0xffff_ffff_ffff_fffe),
    (63, 1, 0x8000_0000_0000_0000, 1, 0x7fff_ffff_ffff_ffff),
    (0, 63, 0x7fff_ffff_ffff_ffff, 1, 0x8000_0000_0000_0000),
    (1, 63, 0xffff_ffff_ffff_fffe, 0x4000_0000_0000_0000, 1),
    (0, 64, 0xffff_ffff_ffff_ffff, ENDS, 0),
];

// What each call says of a range, in the order of `wanted` below.
fn range_answers(o: u32, l: u32, part: u64, cleared: u64) -> [u64; 8]
    requires { IsRange o l }
{
    [
        mask(o, l),
        take(ENDS, o, l),
        put(u64::MAX, o, l, 0),
        put(cleared, o, l, take(ENDS, o, l)),
        gather(ENDS, &one(o, 0, l)),
        gather(part, &one(0, o, l)),
        scatter(u64::MAX, &one(o, 0, l), 0),
        scatter(0, &one(0, o, l), ENDS),
    ]
}

#[test]
fn ends_of_a_word(rt: HostRuntime) {
    for &(o, l, ones, part, cleared) in RANGES {
        assert!(rt; 1 <= l && l <= 64 && o <= 64 - l);
        let kept = ENDS & ones;
        let wanted = [
            ones,
            part,
            cleared,
            cleared | kept,
            part,
            kept,
            cleared,
            part,
        ];
        assert!(rt;
            range_answers(o, l, part, cleared) == wanted,
            "{l} bits from {o}"
        );
    }
}

#[test]
fn bytes_of_each_count(rt: HostRuntime) {
    let found = [
        load_le(&[0x80]),
        load_le(&[1, 0x80]),
        load_le(&[1, 2, 3, 0x84]),
        load_le(&[1, 2, 3, 4, 5, 6, 7, 0x88]),
    ];
    assert_eq!(rt; found, [0x80, 0x8001, 0x8403_0201, 0x8807_0605_0403_0201]);
}

#[test]
fn numbers_in_bytes_of_each_count(rt: HostRuntime) {
    let (mut one, mut two, mut four, mut eight) = ([0; 1], [0; 2], [0; 4], [0; 8]);
    store_le(&mut one, 0xff);
    store_le(&mut two, 0x8001);
    store_le(&mut four, 0x208463);
    store_le(&mut eight, 0x8807_0605_0403_0201);
    assert!(rt; one == [0xff] && two == [1, 0x80]);
    assert!(rt; four == [0x63, 0x84, 0x20, 0x00] && eight == [1, 2, 3, 4, 5, 6, 7, 0x88]);
}
