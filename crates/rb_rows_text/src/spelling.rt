//! Trees are spelled as the texts that they were written for: each tree and its text were written
//! side by side, by hand.

use crate::same::are_same;
use rb_core::boxed::Boxed;
use rb_core::seq::Seq;
use rb_syntax::lex::lex;
use rb_syntax::spell::spell_file;
use rb_syntax::tree::{
    ArmTree, Auto, ConTree, ExprTree, FileTree, FunTree, ItemTree, LayItem, LayoutTree, Loc,
    NameTree, Op, ParamTree, PartDecl, PartKind, PatTree, SplitTree, Step, TyTree, TypeTree,
};
use std::alloc::{AllocError, Global};
use std::test::Fail;

// A name with these letters, which stands at a token.
fn name(alloc: Global, at: u32, text: &[u8]) -> Result<NameTree, AllocError> {
    Ok(NameTree {
        at,
        text: Seq::from_vec(Vec::from_slice(alloc, text)?),
    })
}

// A list of these items.
fn seq<T: Drop, const N: usize>(alloc: Global, items: [T; N]) -> Result<Seq<T>, AllocError> {
    Ok(Seq::from_vec(Vec::from_array(alloc, items)?))
}

// Whether the tree has the tokens of the text.
fn is_spelled(alloc: Global, tree: &FileTree, text: &[u8]) -> Result<bool, Fail> {
    let tokens = spell_file(alloc, tree)?;
    let placed = lex(alloc, text)?;
    Ok(are_same(tokens.as_slice(), placed.as_slice()))
}

// A parameter of type `u8` with this name, which stands at a token.
fn param(alloc: Global, at: u32, text: &[u8]) -> Result<ParamTree, AllocError> {
    Ok(ParamTree {
        at,
        var: name(alloc, at, text)?,
        ty: TyTree::Int(8),
    })
}

// `mul(y, 3)`
fn product(alloc: Global) -> Result<ExprTree, AllocError> {
    let y = Boxed::new(alloc, ExprTree::Var(20, name(alloc, 20, b"y")?))?;
    let three = Boxed::new(alloc, ExprTree::Num(22, 3))?;
    Ok(ExprTree::Binary(18, Op::Mul, y, three))
}

// `add(x, mul(y, 3))`
fn sum(alloc: Global) -> Result<ExprTree, AllocError> {
    let x = Boxed::new(alloc, ExprTree::Var(16, name(alloc, 16, b"x")?))?;
    let product = Boxed::new(alloc, product(alloc)?)?;
    Ok(ExprTree::Binary(14, Op::Add, x, product))
}

// `x: u8, y: u8`
fn params(alloc: Global) -> Result<Seq<ParamTree>, AllocError> {
    let x = param(alloc, 3, b"x")?;
    let y = param(alloc, 7, b"y")?;
    seq(alloc, [x, y])
}

// `fun main(x: u8, y: u8): u8 = add(x, mul(y, 3));`
fn linear(alloc: Global) -> Result<FileTree, AllocError> {
    let fun = FunTree {
        name: name(alloc, 1, b"main")?,
        params: params(alloc)?,
        result: TyTree::Int(8),
        body: sum(alloc)?,
    };
    Ok(FileTree {
        items: seq(alloc, [ItemTree::Funs(fun)])?,
    })
}

#[test]
fn a_function(rt: HostRuntime) -> Result<(), Fail> {
    let file = linear(rt.alloc())?;
    assert!(rt; spell_file(rt.alloc(), &file)?.len() == 26);
    let text = b"fun main(x: u8, y: u8): u8 = add(x, mul(y, 3));";
    assert!(rt; is_spelled(rt.alloc(), &file, text)?);
    Ok(())
}

// A path of these field numbers.
fn path(alloc: Global, fields: &[u32]) -> Result<Seq<u32>, AllocError> {
    Ok(Seq::from_vec(Vec::from_slice(alloc, fields)?))
}

// A block with the words of a field.
fn pointer(alloc: Global) -> Result<PartKind, AllocError> {
    let item = LayItem::Inline(path(alloc, &[1])?);
    Ok(PartKind::Pointer(4, seq(alloc, [item])?))
}

// A word with a part of each kind.
fn word(alloc: Global) -> Result<LayItem, AllocError> {
    let mut parts = Seq::new(alloc);
    parts.push(part(0, 7, PartKind::Const(9)))?;
    parts.push(part(7, 1, PartKind::Slice(path(alloc, &[3])?, 10, 1)))?;
    parts.push(part(8, 4, PartKind::Whole(path(alloc, &[0, 1])?)))?;
    parts.push(part(12, 3, PartKind::Word(path(alloc, &[2])?, 1)))?;
    parts.push(part(15, 5, pointer(alloc)?))?;
    Ok(LayItem::Word(32, parts))
}

// A part of `l` bits from bit `o` on.
fn part(o: u64, l: u64, kind: PartKind) -> PartDecl {
    PartDecl { o, l, kind }
}

// `0[0:32] -> 4 @0:8[0:8]`
fn loc(alloc: Global) -> Result<Loc, AllocError> {
    let step = Step {
        align: 4,
        byte: 0,
        width: 8,
        o: 0,
        l: 8,
    };
    Ok(Loc {
        word: 0,
        o: 0,
        l: 32,
        steps: seq(alloc, [step])?,
    })
}

// The arm `0 => A(_)`, whose leaf is the word with a part of each kind.
fn arm(alloc: Global) -> Result<ArmTree, AllocError> {
    let wild = seq(alloc, [PatTree::Wild(0)])?;
    let prov = PatTree::Con(0, name(alloc, 0, b"A")?, wild);
    let word = word(alloc)?;
    Ok(ArmTree {
        literal: 0,
        under: SplitTree::Leaf(0, prov, seq(alloc, [word])?),
    })
}

// `B : { word 8 { } }`
fn other(alloc: Global) -> Result<SplitTree, AllocError> {
    let prov = PatTree::Con(0, name(alloc, 0, b"B")?, Seq::new(alloc));
    let empty = LayItem::Word(8, Seq::new(alloc));
    Ok(SplitTree::Leaf(0, prov, seq(alloc, [empty])?))
}

// The split at the location, with the arm and an else.
fn split(alloc: Global) -> Result<SplitTree, AllocError> {
    let other = Boxed::new(alloc, other(alloc)?)?;
    let arm = arm(alloc)?;
    let arms = seq(alloc, [arm])?;
    Ok(SplitTree::Split(loc(alloc)?, arms, Some(other)))
}

// The layout of `T`, of one word.
fn layout(alloc: Global) -> Result<LayoutTree, AllocError> {
    Ok(LayoutTree {
        at: 0,
        ty: name(alloc, 0, b"T")?,
        shape: seq(alloc, [32])?,
        tree: split(alloc)?,
    })
}

// `A(T, u64)`
fn first_con(alloc: Global) -> Result<ConTree, AllocError> {
    let ty = TyTree::Named(name(alloc, 0, b"T")?);
    let fields = seq(alloc, [ty, TyTree::Int(64)])?;
    Ok(ConTree {
        name: name(alloc, 0, b"A")?,
        fields,
    })
}

// `type T = A(T, u64) | B;`
fn type_tree(alloc: Global) -> Result<TypeTree, AllocError> {
    let first = first_con(alloc)?;
    let second = ConTree {
        name: name(alloc, 0, b"B")?,
        fields: Seq::new(alloc),
    };
    let cons = seq(alloc, [first, second])?;
    Ok(TypeTree {
        name: name(alloc, 0, b"T")?,
        cons,
    })
}

// The type, its layout, and a layout that is left to the compiler.
fn items(alloc: Global) -> Result<Seq<ItemTree>, AllocError> {
    let mut items = Seq::new(alloc);
    items.push(ItemTree::Types(type_tree(alloc)?))?;
    items.push(ItemTree::Layouts(layout(alloc)?))?;
    items.push(ItemTree::Derived(name(alloc, 0, b"T")?, Auto::Packed))?;
    Ok(items)
}

#[test]
fn types_and_layouts(rt: HostRuntime) -> Result<(), Fail> {
    let file = FileTree {
        items: items(rt.alloc())?,
    };
    let text =
        b"type T = A(T, u64) | B; layout T <32> = split 0[0:32] -> 4 @0:8[0:8] { 0 => A(_) : { word 32 { [0:7] = 9, [7:1] .3[10:1], [8:4] .0.1, [12:3] .2 word 1, [15:5] -> 4 { inline .1 } } } else => B : { word 8 { } } }; layout T = packed;";
    assert!(rt; is_spelled(rt.alloc(), &file, text)?);
    Ok(())
}
