//! The examples, each with its words, its file and what it is to answer: words of real formats, as those of RISC-V and
//! IPv4, and values that follow from an example's own numbers, as examples/README.md says. Written by examples/make
//! from the folder examples/.

use rb_rows_calls::rows::{ImageRow, expect_held};
use rb_rows_calls::surprise::Surprise;

// Words (`E` is the file, `I` the image), file, image (none where no image is read), and answer: the status, then
// lines, each ended by `;`. A table has at most four examples, since what a table costs to prove grows faster than it,
// and is named for its first.
const FROM_ASSEMBLED: [ImageRow; 4] = [
    // assembled
    (
        "image E 1 64 Branch(0,1,2,4)",
        "// a RISC-V branch: its kind, its two registers, and its offset in halves, which is scattered over the word\ntype Instr = Branch(u3, u5, u5, u12);\n\nlayout Instr <32> = Branch(_, _, _, _) : {\n  word 32 {\n    [0:7] = 99,\n    [7:1] .3[10:1],\n    [8:4] .3[0:4],\n    [12:3] .0,\n    [15:5] .1,\n    [20:5] .2,\n    [25:6] .3[4:6],\n    [31:1] .3[11:1]\n  }\n};\n\nfun main(i: Instr): Instr = i;\n",
        "",
        "0 root 0x208463;",
    ),
    // back
    (
        "exec E t 1 64",
        "fun id 1 1 1\nreturn 0\nend\nfun t 0 0 0\njump 0\nreturn\nend\n",
        "",
        "14 ribbit: code 22: function 1, instruction 0;",
    ),
    // block
    (
        "exec E sum 4 88 3",
        "fun sum 1 1 4\nswitch 0 1 0 8\nplace 1 8 8\nstore 1 0 64 0\nconst 2 1\nalu sub 64 2 0 2\ncall 0 2 of 2\nload 3 1 0 64\nalu add 64 0 2 3\nreturn 0\nend\n",
        "",
        "0 6;",
    ),
    // blocktag
    (
        "image E 1 74 Large(70000)",
        "// a number in a block of its own, in two bytes or in eight; the first byte of the block says which\ntype Item = Small(u16) | Large(u64);\n\nlayout Item <64> = split 0[0:64] -> 8 @0:16[0:8] {\n  0 => Small(_) : {\n    word 64 { [0:64] -> 8 { word 16 { [0:8] = 0 }, word 16 { [0:16] .0 } } }\n  }\n  1 => Large(_) : {\n    word 64 { [0:64] -> 8 { word 16 { [0:8] = 1 }, word 64 { [0:64] .0 } } }\n  }\n};\n\nfun main(i: Item): u64 = match i { Small(n) => to u64(n), Large(n) => n };\n",
        "",
        "0 root 0x11170;block 64 10 01007011010000000000;",
    ),
];

#[test]
fn from_assembled(rt: HostRuntime) -> Result<(), Surprise> {
    expect_held(rt.alloc(), &FROM_ASSEMBLED)
}

const FROM_CYCLE: [ImageRow; 4] = [
    // cycle
    (
        "value E I",
        "// a list whose tag is the lowest bit of a pointer\ntype List = Nil | Cons(u64, List);\n\nlayout List <64> = split 0[0:1] {\n  1 => Nil : { word 64 { [0:1] = 1 } }\n  0 => Cons(_, _) : { word 64 { [0:1] = 0, [3:61] -> 8 { word 64 { [0:64] .0 }, inline .1 } } }\n};\n\nfun main(list: List): List = list;\n",
        "root 0x50\nblock 64 16 02000000000000005000000000000000\nblock 80 16 01000000000000004000000000000000\n",
        "16 ribbit: image 44: base 64, address 80;",
    ),
    // derived
    (
        "image E 1 128 Pixel(Full(1,2,3),Pixel(Gray(9),End))",
        "// a row of pixels: how a colour stands in its bits, and a row in its blocks, is left to the compiler\ntype Rgb = Gray(u8) | Full(u5, u6, u5);\ntype Row = End | Pixel(Rgb, Row);\n\nlayout Rgb = packed;\nlayout Row = boxed;\n\nfun main(row: Row): Row = match row {\n  Pixel(Full(r, g, b), rest) => Pixel(Full(b, g, r), rest),\n  other => other\n};\n",
        "",
        "0 root 0xc01;block 64 16 12000000000000000000000000000000;block 80 16 83300000000000000108000000000000;block 96 16 87100000000000000108000000000000;",
    ),
    // dostime
    (
        "image E 1 64 Stamp(44,2,29,13,45,29)",
        "// the time of a file on a FAT disk: two words of 16 bits, first the time, whose seconds are counted in twos, then the date,\n// whose years are counted from 1980\ntype Stamp = Stamp(u7, u4, u5, u5, u6, u5); // years, month, day, hour, minute, seconds / 2\n\nlayout Stamp <16, 16> = Stamp(_, _, _, _, _, _) : {\n  word 16 { [0:5] .5, [5:6] .4, [11:5] .3 },\n  word 16 { [0:5] .2, [5:4] .1, [9:7] .0 }\n};\n\nfun main(s: Stamp): Stamp = s;\n",
        "",
        "0 root 0x6dbd 0x585d;",
    ),
    // farbranch
    (
        "image E 2 64 0 1 2 5000",
        "// a RISC-V branch whose goal is too far for its twelve bits, as an assembler writes it: the opposite branch over a jump\ntype Instr = Branch(u3, u5, u5, u12) | Jump(u5, u20);\ntype Two = Two(Instr, Instr);\n\n// the opcode, in the lowest seven bits, says which format the others have\nlayout Instr <32> = split 0[0:7] {\n  99 => Branch(_, _, _, _) : {\n    word 32 {\n      [0:7] = 99, [7:1] .3[10:1], [8:4] .3[0:4], [12:3] .0, [15:5] .1, [20:5] .2, [25:6] .3[4:6], [31:1] .3[11:1]\n    }\n  }\n  111 => Jump(_, _) : {\n    word 32 { [0:7] = 111, [7:5] .0, [12:8] .1[11:8], [20:1] .1[10:1], [21:10] .1[0:10], [31:1] .1[19:1] }\n  }\n};\n\nlayout Two <32, 32> = Two(_, _) : { inline .0, inline .1 };\n\n// kinds of branches come in pairs whose numbers differ in the lowest bit: 0 is equal and 1 is unequal. Offsets are in\n// halves: the branch goes 8 bytes on, and the jump stands 4 bytes nearer to the goal\nfun far(kind: u3, left: u5, right: u5, halves: u20): Two =\n  Two(Branch(xor(kind, 1), left, right, 4), Jump(0, sub(halves, 2)));\n\nfun main(kind: u3, left: u5, right: u5, halves: u20): Two = far(kind, left, right, halves);\n",
        "",
        "0 root 0x209463 0x70c0206f;",
    ),
];

#[test]
fn from_cycle(rt: HostRuntime) -> Result<(), Surprise> {
    expect_held(rt.alloc(), &FROM_CYCLE)
}

const FROM_FATPOINTER: [ImageRow; 4] = [
    // fatpointer
    (
        "image E 2 80 Rectangle(3,4)",
        "// a fat pointer of two words: the first says what the second points to, so the blocks need no tag. Go's interfaces are\n// such words, and in the other order Rust's `dyn`; small numbers stand here for the addresses of their tables\ntype Shape = None | Circle(u32) | Rectangle(u32, u32);\n\nlayout Shape <64, 64> = split 0[0:64] {\n  0 => None : { word 64 { [0:64] = 0 }, word 64 { [0:64] = 0 } }\n  1 => Circle(_) : { word 64 { [0:64] = 1 }, word 64 { [0:3] = 0, [3:61] -> 8 { inline .0 } } }\n  2 => Rectangle(_, _) : { word 64 { [0:64] = 2 }, word 64 { [0:3] = 0, [3:61] -> 8 { inline .0, inline .1 } } }\n};\n\n// on its side: what was wide is high\nfun turn(s: Shape): Shape = match s { Rectangle(w, h) => Rectangle(h, w), _ => s };\n\nfun main(s: Shape): Shape = turn(s);\n",
        "",
        "0 root 0x2 0x48;block 64 8 0300000004000000;block 72 8 0400000003000000;",
    ),
    // forms
    (
        "layout E",
        "// every form of a layout\ntype Kind = Small | Large;\ntype Pair = Pair(u16, u32);\ntype Packet = Empty | Packet(Kind, Pair, u12, u64, Pair, Kind);\n\nlayout Kind <1> = split 0[0:1] {\n  0 => Small : { word 1 { [0:1] = 0 } }\n  else => Large : { word 1 { [0:1] = 1 } }\n};\n\nlayout Pair <16, 32> = Pair(_, _) : { inline .0, word 32 { [0:32] .1 } };\n\nlayout Packet <32, 64> = split 0[0:2] {\n  0 => Empty : { word 32 { [0:2] = 0 }, word 64 { } }\n  else => split 1[3:61] -> 8 @0:8[0:8] {\n    7 => Packet(Small, _, _, _, _, _) : {\n      word 32 { [0:2] = 3, [2:4] .2[8:4], [6:1] .5, [8:8] .2[0:8], [16:16] .1 word 0 },\n      word 64 { [3:61] -> 8 { word 8 { [0:8] = 7 }, word 32 { [0:32] .1 word 1 }, word 64 { [0:64] .3 }, inline .4 } }\n    }\n    9 => Packet(Large, _, _, _, _, _) : {\n      word 32 { [0:2] = 1, [2:1] .5, [4:12] .2, [16:16] .1 word 0 },\n      word 64 { [3:61] -> 8 { word 8 { [0:8] = 9 }, word 32 { [0:32] .1 word 1 }, word 64 { [0:64] .3 }, inline .4 } }\n    }\n  }\n};\n\nfun main(): u8 = 0;\n",
        "",
        "0 type Kind;leaf Small;when 0[0:1] = 0;word 0: 1 bits;  0:1 = 0;leaf Large;when 0[0:1] not 0;word 0: 1 bits;  0:1 = 1;type Pair;leaf Pair(_, _);word 0: 16 bits;  0:16 field .0 bits 0:16;word 1: 32 bits;  0:32 field .1 bits 0:32;type Packet;leaf Empty;when 0[0:2] = 0;word 0: 32 bits;  0:2 = 0;  2:30 free;word 1: 64 bits;  0:64 free;leaf Packet(Small, _, _, _, _, _);when 0[0:2] not 0;when 1[3:61] -> 8 @0:8[0:8] = 7;word 0: 32 bits;  0:2 = 3;  2:4 field .2 bits 8:4;  6:1 field .5 word 0;  7:1 free;  8:8 field .2 bits 0:8;  16:16 field .1 word 0;word 1: 64 bits;  0:3 free;  3:61 pointer to block 0;block 0: 19 bytes, align 8;word 0 at byte 0: 8 bits;  0:8 = 7;word 1 at byte 1: 32 bits;  0:32 field .1 word 1;word 2 at byte 5: 64 bits;  0:64 field .3 bits 0:64;word 3 at byte 13: 16 bits;  0:16 field .4 word 0;word 4 at byte 15: 32 bits;  0:32 field .4 word 1;leaf Packet(Large, _, _, _, _, _);when 0[0:2] not 0;when 1[3:61] -> 8 @0:8[0:8] = 9;word 0: 32 bits;  0:2 = 1;  2:1 field .5 word 0;  3:1 free;  4:12 field .2 bits 0:12;  16:16 field .1 word 0;word 1: 64 bits;  0:3 free;  3:61 pointer to block 0;block 0: 19 bytes, align 8;word 0 at byte 0: 8 bits;  0:8 = 9;word 1 at byte 1: 32 bits;  0:32 field .1 word 1;word 2 at byte 5: 64 bits;  0:64 field .3 bits 0:64;word 3 at byte 13: 16 bits;  0:16 field .4 word 0;word 4 at byte 15: 32 bits;  0:32 field .4 word 1;",
    ),
    // guide
    (
        "run E 100 1000 Node(Black,Leaf,5,Node(Red,Leaf,7,Leaf)) 7",
        "type Color = Red | Black;\ntype Tree = Leaf | Node(Color, Tree, u64, Tree);\n\nlayout Color <1> = split 0[0:1] {\n  0 => Red : { word 1 { [0:1] = 0 } }\n  1 => Black : { word 1 { [0:1] = 1 } }\n};\n\nlayout Tree <64> = split 0[0:64] {\n  0 => Leaf : { word 64 { [0:64] = 0 } }\n  else => Node(_, _, _, _) : {\n    word 64 {\n      [0:1] .0,\n      [3:61] -> 8 { word 64 { [0:64] .2 }, inline .1, inline .3 }\n    }\n  }\n};\n\nfun has(t: Tree, x: u64): u1 = match t {\n  Leaf => 0,\n  Node(_, l, y, r) => match lt(x, y) {\n    1 => has(l, x),\n    0 => match lt(y, x) { 1 => has(r, x), 0 => 1 }\n  }\n};\n\nfun node(c: Color, x: u64): Tree = Node(c, Leaf, x, Leaf);\n\nfun main(t: Tree, x: u64): u1 = has(t, x);\n",
        "",
        "0 1;",
    ),
    // ipv4
    (
        "image E 1 68 Packet(Header(5,46,1,115))",
        "// the first four bytes of an IPv4 packet, in a block. They are sent highest byte first and loaded lowest byte first, so the\n// length of 16 bits stands in two pieces\ntype Header = Header(u4, u6, u2, u16); // header's length in words, service, congestion, packet's length in bytes\ntype Packet = Packet(Header);\n\nlayout Header <32> = Header(_, _, _, _) : {\n  word 32 {\n    [0:4] .0, [4:4] = 4,             // byte 0: header's length, version\n    [8:2] .2, [10:6] .1,             // byte 1: congestion, service\n    [16:8] .3[8:8], [24:8] .3[0:8]   // bytes 2 and 3: the length, high byte first\n  }\n};\n\nlayout Packet <64> = Packet(_) : { word 64 { [0:64] -> 1 { inline .0 } } };\n\nfun main(p: Packet): Packet = p;\n",
        "",
        "0 root 0x40;block 64 4 45b90073;",
    ),
];

#[test]
fn from_fatpointer(rt: HostRuntime) -> Result<(), Surprise> {
    expect_held(rt.alloc(), &FROM_FATPOINTER)
}

const FROM_LIST: [ImageRow; 4] = [
    // list
    (
        "run E 4 96 Cons(1,Cons(2,Nil))",
        "type List = Nil | Cons(u64, List);\nlayout List <64> = split 0[0:1] {\n    1 => Nil : { word 64 { [0:1] = 1 } }\n    0 => Cons(_, _) : { word 64 { [0:1] = 0, [3:61] -> 8 { word 64 { [0:64] .0 }, inline .1 } } }\n};\nfun sum(l: List): u64 = match l { Nil => 0, Cons(x, r) => add(x, sum(r)) };\nfun main(l: List): u64 = sum(l);\n",
        "",
        "0 3;",
    ),
    // missed
    (
        "check E",
        "type Color = Red | Black;\nfun main(c: Color): u8 = match c { Red => 1 };\n",
        "",
        "2 ribbit: match at byte 51 misses Black;",
    ),
    // niche
    (
        "image E 1 72 Known(Some(Cell(5)))",
        "// an option of a pointer in the pointer's own word, as Rust's `Option<Box<T>>`: no block has the address 0, so 0 says that\n// there is none. An option of that option fits too: a pointer ends in three zeros, so the word 1 is free\ntype Cell = Cell(u64);\ntype Option = None | Some(Cell);\ntype Twice = Unknown | Known(Option);\n\nlayout Cell <64> = Cell(_) : { word 64 { [0:3] = 0, [3:61] -> 8 { inline .0 } } };\n\nlayout Option <64> = split 0[0:64] {\n  0 => None : { word 64 { [0:64] = 0 } }\n  else => Some(_) : { word 64 { [0:64] .0 } }\n};\n\nlayout Twice <64> = split 0[0:64] {\n  1 => Unknown : { word 64 { [0:64] = 1 } }\n  else => Known(_) : { word 64 { [0:64] .0 } }\n};\n\nfun main(t: Twice): Twice = t;\n",
        "",
        "0 root 0x40;block 64 8 0500000000000000;",
    ),
    // ocaml
    (
        "image E 1 112 Pair(Number(8),Number(0))",
        "// a value of OCaml: a word that ends in 1 is a number of 63 bits, any other the address of a block. A block begins with a\n// header: the tag, two bits of the collector, and the size in words. (OCaml's addresses lead to the word behind the header)\ntype Value = Number(u63) | Pair(Value, Value);\n\nlayout Value <64> = split 0[0:1] {\n  1 => Number(_) : { word 64 { [0:1] = 1, [1:63] .0 } }\n  0 => Pair(_, _) : {\n    word 64 {\n      [0:3] = 0,\n      [3:61] -> 8 { word 64 { [0:8] = 0, [8:2] = 0, [10:54] = 2 }, inline .0, inline .1 }\n    }\n  }\n};\n\n// the list [7; ...]: the empty list is the number 0\nfun main(rest: Value): Value = Pair(Number(7), rest);\n",
        "",
        "0 root 0x58;block 64 24 000800000000000011000000000000000100000000000000;block 88 24 00080000000000000f000000000000004000000000000000;",
    ),
];

#[test]
fn from_list(rt: HostRuntime) -> Result<(), Surprise> {
    expect_held(rt.alloc(), &FROM_LIST)
}

const FROM_PART: [ImageRow; 4] = [
    // part
    (
        "peek E I .1.2",
        "// sets of numbers as red-black trees, whose nodes keep their colour in the lowest bit of the pointer to them\ntype Color = Red | Black;\ntype Tree = Leaf | Node(Color, Tree, u64, Tree);\n\nlayout Color <1> = split 0[0:1] {\n  0 => Red : { word 1 { [0:1] = 0 } }\n  1 => Black : { word 1 { [0:1] = 1 } }\n};\n\nlayout Tree <64> = split 0[0:64] {\n  0 => Leaf : { word 64 { [0:64] = 0 } }\n  else => Node(_, _, _, _) : {\n    word 64 {\n      [0:1] .0,\n      [3:61] -> 8 { word 64 { [0:64] .2 }, inline .1, inline .3 }\n    }\n  }\n};\n\nfun balance(t: Tree): Tree = match t {\n  Node(Black, Node(Red, Node(Red, a, x, b), y, c), z, d) => Node(Red, Node(Black, a, x, b), y, Node(Black, c, z, d)),\n  Node(Black, Node(Red, a, x, Node(Red, b, y, c)), z, d) => Node(Red, Node(Black, a, x, b), y, Node(Black, c, z, d)),\n  Node(Black, a, x, Node(Red, Node(Red, b, y, c), z, d)) => Node(Red, Node(Black, a, x, b), y, Node(Black, c, z, d)),\n  Node(Black, a, x, Node(Red, b, y, Node(Red, c, z, d))) => Node(Red, Node(Black, a, x, b), y, Node(Black, c, z, d)),\n  _ => t\n};\n\nfun put(t: Tree, x: u64): Tree = match t {\n  Leaf => Node(Red, Leaf, x, Leaf),\n  Node(c, l, y, r) => match lt(x, y) {\n    1 => balance(Node(c, put(l, x), y, r)),\n    0 => match lt(y, x) { 1 => balance(Node(c, l, y, put(r, x))), 0 => t }\n  }\n};\n\nfun blacken(t: Tree): Tree = match t { Leaf => Leaf, Node(_, l, x, r) => Node(Black, l, x, r) };\n\nfun main(t: Tree, x: u64): Tree = blacken(put(t, x));\n",
        "root 0x101\nblock 64 24 070000000000000000000000000000000000000000000000\nblock 88 24 050000000000000000000000000000004000000000000000\nblock 112 24 090000000000000000000000000000000000000000000000\nblock 136 24 070000000000000000000000000000007000000000000000\nblock 160 24 050000000000000000000000000000008800000000000000\nblock 184 24 050000000000000000000000000000000000000000000000\nblock 208 24 090000000000000000000000000000000000000000000000\nblock 232 24 0700000000000000b900000000000000d100000000000000\nblock 256 24 0700000000000000b900000000000000d900000000000000\n",
        "0 5;",
    ),
    // pick
    (
        "exec E pick 1 64 5",
        "fun pick 1 1 1\nswitch 0 - 3 1\nreturn 0\nend\n",
        "",
        "12 ribbit: trap 32: word 5;",
    ),
    // readback
    (
        "value E I",
        "// sets of numbers as red-black trees, whose nodes keep their colour in the lowest bit of the pointer to them\ntype Color = Red | Black;\ntype Tree = Leaf | Node(Color, Tree, u64, Tree);\n\nlayout Color <1> = split 0[0:1] {\n  0 => Red : { word 1 { [0:1] = 0 } }\n  1 => Black : { word 1 { [0:1] = 1 } }\n};\n\nlayout Tree <64> = split 0[0:64] {\n  0 => Leaf : { word 64 { [0:64] = 0 } }\n  else => Node(_, _, _, _) : {\n    word 64 {\n      [0:1] .0,\n      [3:61] -> 8 { word 64 { [0:64] .2 }, inline .1, inline .3 }\n    }\n  }\n};\n\nfun balance(t: Tree): Tree = match t {\n  Node(Black, Node(Red, Node(Red, a, x, b), y, c), z, d) => Node(Red, Node(Black, a, x, b), y, Node(Black, c, z, d)),\n  Node(Black, Node(Red, a, x, Node(Red, b, y, c)), z, d) => Node(Red, Node(Black, a, x, b), y, Node(Black, c, z, d)),\n  Node(Black, a, x, Node(Red, Node(Red, b, y, c), z, d)) => Node(Red, Node(Black, a, x, b), y, Node(Black, c, z, d)),\n  Node(Black, a, x, Node(Red, b, y, Node(Red, c, z, d))) => Node(Red, Node(Black, a, x, b), y, Node(Black, c, z, d)),\n  _ => t\n};\n\nfun put(t: Tree, x: u64): Tree = match t {\n  Leaf => Node(Red, Leaf, x, Leaf),\n  Node(c, l, y, r) => match lt(x, y) {\n    1 => balance(Node(c, put(l, x), y, r)),\n    0 => match lt(y, x) { 1 => balance(Node(c, l, y, put(r, x))), 0 => t }\n  }\n};\n\nfun blacken(t: Tree): Tree = match t { Leaf => Leaf, Node(_, l, x, r) => Node(Black, l, x, r) };\n\nfun main(t: Tree, x: u64): Tree = blacken(put(t, x));\n",
        "root 0x101\nblock 64 24 070000000000000000000000000000000000000000000000\nblock 88 24 050000000000000000000000000000004000000000000000\nblock 112 24 090000000000000000000000000000000000000000000000\nblock 136 24 070000000000000000000000000000007000000000000000\nblock 160 24 050000000000000000000000000000008800000000000000\nblock 184 24 050000000000000000000000000000000000000000000000\nblock 208 24 090000000000000000000000000000000000000000000000\nblock 232 24 0700000000000000b900000000000000d100000000000000\nblock 256 24 0700000000000000b900000000000000d100000000000000\n",
        "0 Node(Black, Node(Black, Leaf, 5, Leaf), 7, Node(Black, Leaf, 9, Leaf));",
    ),
    // redblack
    (
        "run E 100 10000 Node(Black,Leaf,5,Node(Red,Leaf,7,Leaf)) 9",
        "// sets of numbers as red-black trees, whose nodes keep their colour in the lowest bit of the pointer to them\ntype Color = Red | Black;\ntype Tree = Leaf | Node(Color, Tree, u64, Tree);\n\nlayout Color <1> = split 0[0:1] {\n  0 => Red : { word 1 { [0:1] = 0 } }\n  1 => Black : { word 1 { [0:1] = 1 } }\n};\n\nlayout Tree <64> = split 0[0:64] {\n  0 => Leaf : { word 64 { [0:64] = 0 } }\n  else => Node(_, _, _, _) : {\n    word 64 {\n      [0:1] .0,\n      [3:61] -> 8 { word 64 { [0:64] .2 }, inline .1, inline .3 }\n    }\n  }\n};\n\nfun balance(t: Tree): Tree = match t {\n  Node(Black, Node(Red, Node(Red, a, x, b), y, c), z, d) => Node(Red, Node(Black, a, x, b), y, Node(Black, c, z, d)),\n  Node(Black, Node(Red, a, x, Node(Red, b, y, c)), z, d) => Node(Red, Node(Black, a, x, b), y, Node(Black, c, z, d)),\n  Node(Black, a, x, Node(Red, Node(Red, b, y, c), z, d)) => Node(Red, Node(Black, a, x, b), y, Node(Black, c, z, d)),\n  Node(Black, a, x, Node(Red, b, y, Node(Red, c, z, d))) => Node(Red, Node(Black, a, x, b), y, Node(Black, c, z, d)),\n  _ => t\n};\n\nfun put(t: Tree, x: u64): Tree = match t {\n  Leaf => Node(Red, Leaf, x, Leaf),\n  Node(c, l, y, r) => match lt(x, y) {\n    1 => balance(Node(c, put(l, x), y, r)),\n    0 => match lt(y, x) { 1 => balance(Node(c, l, y, put(r, x))), 0 => t }\n  }\n};\n\nfun blacken(t: Tree): Tree = match t { Leaf => Leaf, Node(_, l, x, r) => Node(Black, l, x, r) };\n\nfun main(t: Tree, x: u64): Tree = blacken(put(t, x));\n",
        "",
        "0 Node(Black, Node(Black, Leaf, 5, Leaf), 7, Node(Black, Leaf, 9, Leaf));",
    ),
];

#[test]
fn from_part(rt: HostRuntime) -> Result<(), Surprise> {
    expect_held(rt.alloc(), &FROM_PART)
}

const FROM_RISCVB: [ImageRow; 4] = [
    // riscvb
    (
        "run E 2 64 Branch(0,0,0,4094)",
        "// RISC-V's conditional branches: the offset, in halves, is scattered over the word\ntype Branch = Branch(u3, u5, u5, u12);\n\nlayout Branch <32> = Branch(_, _, _, _) : {\n  word 32 {\n    [0:7] = 99,\n    [7:1] .3[10:1],\n    [8:4] .3[0:4],\n    [12:3] .0,\n    [15:5] .1,\n    [20:5] .2,\n    [25:6] .3[4:6],\n    [31:1] .3[11:1]\n  }\n};\n\n// modulo 8192, so 8188 is 4 bytes back\nfun offset(b: Branch): u13 = match b { Branch(_, _, _, halves) => mul(to u13(halves), 2) };\n\nfun equal(left: u5, right: u5, halves: u12): Branch = Branch(0, left, right, halves);\n\nfun main(b: Branch): u13 = offset(b);\n",
        "",
        "0 8188;",
    ),
    // riscvi
    (
        "image E 1 64 Load(10,2,8)",
        "// RISC-V's I format, here the load of a word: `lw rd, offset(base)`. The offset's twelve bits stand in one piece\ntype Load = Load(u5, u5, u12); // rd, base, offset\n\nlayout Load <32> = Load(_, _, _) : {\n  word 32 {\n    [0:7] = 3,     // opcode LOAD\n    [7:5] .0,      // rd\n    [12:3] = 2,    // funct3: a word\n    [15:5] .1,     // base\n    [20:12] .2     // offset\n  }\n};\n\nfun main(l: Load): Load = l;\n",
        "",
        "0 root 0x812503;",
    ),
    // riscvj
    (
        "image E 1 64 Jump(1,3073)",
        "// RISC-V's J format: `jal rd, offset`. The offset, in halves, stands in four pieces\ntype Jump = Jump(u5, u20); // rd, halves\n\nlayout Jump <32> = Jump(_, _) : {\n  word 32 {\n    [0:7] = 111,        // opcode JAL\n    [7:5] .0,           // rd\n    [12:8] .1[11:8],    // bits 12 to 19 of the offset in bytes\n    [20:1] .1[10:1],    // bit 11\n    [21:10] .1[0:10],   // bits 1 to 10\n    [31:1] .1[19:1]     // bit 20, the sign\n  }\n};\n\nfun main(j: Jump): Jump = j;\n",
        "",
        "0 root 0x3010ef;",
    ),
    // riscvs
    (
        "image E 1 64 Store(5,2,4092)",
        "// RISC-V's S format, here the store of a word: `sw source, offset(base)`. The offset stands in two pieces, round the\n// registers, which so keep the places that they have in other formats\ntype Store = Store(u5, u5, u12); // source, base, offset\n\nlayout Store <32> = Store(_, _, _) : {\n  word 32 {\n    [0:7] = 35,        // opcode STORE\n    [7:5] .2[0:5],     // offset, bits 0 to 4\n    [12:3] = 2,        // funct3: a word\n    [15:5] .1,         // base\n    [20:5] .0,         // source\n    [25:7] .2[5:7]     // offset, bits 5 to 11\n  }\n};\n\nfun main(s: Store): Store = s;\n",
        "",
        "0 root 0xfe512e23;",
    ),
];

#[test]
fn from_riscvb(rt: HostRuntime) -> Result<(), Surprise> {
    expect_held(rt.alloc(), &FROM_RISCVB)
}

const FROM_SEMICOLON: [ImageRow; 4] = [
    // semicolon
    (
        "check E",
        "fun f(x: u8): u8 = x\nfun main(x: u8): u8 = f(x);\n",
        "",
        "1 ribbit: syntax at byte 21;",
    ),
    // shadow
    (
        "check E",
        "fun main(x: u8): u8 = match x { _ => 5, 0 => 6 };\n",
        "",
        "0 note: clause 1 of the match at byte 22 is never reached;ok;",
    ),
    // slipped
    (
        "exec E node 1 128 7",
        "fun node 1 3 4\nplace 1 24 8\nstore 1 0 64 0\nconst 2 0\nstore 1 8 64 2\nstore 1 16 64 2\nconst 2 1\nput 1 2 0 1\ntake 3 1 0 1\ntake 2 1 3 61\nconst 0 8\nalu mul 64 2 2 0\nload 0 1 0 64\nreturn 1 3 0\nend\n",
        "",
        "12 ribbit: trap 30: base 65, offset 0;",
    ),
    // slippedbit
    (
        "check E",
        "// sets of numbers as red-black trees, whose nodes keep their colour in the lowest bit of the pointer to them\ntype Color = Red | Black;\ntype Tree = Leaf | Node(Color, Tree, u64, Tree);\n\nlayout Color <1> = split 0[0:1] {\n  0 => Red : { word 1 { [0:1] = 0 } }\n  1 => Black : { word 1 { [0:1] = 1 } }\n};\n\nlayout Tree <64> = split 0[0:64] {\n  0 => Leaf : { word 64 { [0:64] = 0 } }\n  else => Node(_, _, _, _) : {\n    word 64 {\n      [3:1] .0,\n      [3:61] -> 8 { word 64 { [0:64] .2 }, inline .1, inline .3 }\n    }\n  }\n};\n\nfun balance(t: Tree): Tree = match t {\n  Node(Black, Node(Red, Node(Red, a, x, b), y, c), z, d) => Node(Red, Node(Black, a, x, b), y, Node(Black, c, z, d)),\n  Node(Black, Node(Red, a, x, Node(Red, b, y, c)), z, d) => Node(Red, Node(Black, a, x, b), y, Node(Black, c, z, d)),\n  Node(Black, a, x, Node(Red, Node(Red, b, y, c), z, d)) => Node(Red, Node(Black, a, x, b), y, Node(Black, c, z, d)),\n  Node(Black, a, x, Node(Red, b, y, Node(Red, c, z, d))) => Node(Red, Node(Black, a, x, b), y, Node(Black, c, z, d)),\n  _ => t\n};\n\nfun put(t: Tree, x: u64): Tree = match t {\n  Leaf => Node(Red, Leaf, x, Leaf),\n  Node(c, l, y, r) => match lt(x, y) {\n    1 => balance(Node(c, put(l, x), y, r)),\n    0 => match lt(y, x) { 1 => balance(Node(c, l, y, put(r, x))), 0 => t }\n  }\n};\n\nfun blacken(t: Tree): Tree = match t { Leaf => Leaf, Node(_, l, x, r) => Node(Black, l, x, r) };\n\nfun main(t: Tree, x: u64): Tree = blacken(put(t, x));\n",
        "",
        "3 ribbit: layout of Tree: A3: leaf Node(_, _, _, _): item 0: parts [3:1] and [3:61] overlap;",
    ),
];

#[test]
fn from_semicolon(rt: HostRuntime) -> Result<(), Surprise> {
    expect_held(rt.alloc(), &FROM_SEMICOLON)
}

const FROM_STOLEN: [ImageRow; 4] = [
    // stolen
    (
        "exec E node 1 128 7",
        "fun node 1 3 4\nplace 1 24 8\nstore 1 0 64 0\nconst 2 0\nstore 1 8 64 2\nstore 1 16 64 2\nconst 2 1\nput 1 2 0 1\ntake 3 1 0 1\ntake 2 1 3 61\nconst 0 8\nalu mul 64 2 2 0\nload 0 2 0 64\nreturn 1 3 0\nend\n",
        "",
        "0 65 1 7;",
    ),
    // sum
    (
        "exec E sum 101 64 100",
        "fun sum 1 1 2\nswitch 0 1 0 5\nconst 1 1\nalu sub 64 1 0 1\ncall 0 1 of 1\nalu add 64 0 0 1\nreturn 0\nend\n",
        "",
        "0 5050;",
    ),
    // tag
    (
        "exec E t 1 1024",
        "fun t 0 1 2\nconst 1 1\nplace 0 16 8\nalu add 64 0 0 1\nload 1 0 0 64\nreturn 1\nend\n",
        "",
        "12 ribbit: trap 30: base 65, offset 0;",
    ),
    // tagged
    (
        "image E 4 96 Pair(Number(1),Pair(Number(2),Empty))",
        "// values of Scheme with the tags of Chez Scheme, the lowest three bits of a word: 0 is a number of 61 bits, 1 the address\n// of a pair, and 6 a constant without a block, of which the empty list is 38\ntype Object = Number(u61) | Pair(Object, Object) | Empty;\n\nlayout Object <64> = split 0[0:3] {\n  0 => Number(_) : { word 64 { [0:3] = 0, [3:61] .0 } }\n  1 => Pair(_, _) : { word 64 { [0:3] = 1, [3:61] -> 8 { inline .0, inline .1 } } }\n  6 => Empty : { word 64 { [0:64] = 38 } }\n};\n\nfun sum(list: Object): u61 = match list {\n  Pair(Number(n), rest) => add(n, sum(rest)),\n  Pair(_, rest) => sum(rest),\n  _ => 0\n};\n\nfun main(list: Object): Object = Number(sum(list));\n",
        "",
        "0 root 0x18;block 64 16 10000000000000002600000000000000;block 80 16 08000000000000004100000000000000;",
    ),
];

#[test]
fn from_stolen(rt: HostRuntime) -> Result<(), Surprise> {
    expect_held(rt.alloc(), &FROM_STOLEN)
}

const FROM_UNTAG: [ImageRow; 1] = [
    // untag
    (
        "run E 1 64 4101",
        "// the address without its three stolen bits\nfun main(tagged: u64): u64 = xor(tagged, to u64(to u3(tagged)));\n",
        "",
        "0 4096;",
    ),
];

#[test]
fn from_untag(rt: HostRuntime) -> Result<(), Surprise> {
    expect_held(rt.alloc(), &FROM_UNTAG)
}
