//! Code texts, and the bytes at which others stop. The texts were written by hand from the table of
//! instructions, with the numbers at their bounds and one beyond; the bytes were counted by hand.

use rb_target::code::CodeFun;
use rb_target::fault::CodeFault;
use rb_target::instr::Instr;
use rb_target::read::read_code;
use rb_target::spell::spell_code;
use std::alloc::Global;
use std::test::Fail;

// The byte at which these bytes stop being a code text, or None where all of them are one. Bytes that
// spell code which is not valid give None too.
fn stop(alloc: Global, text: &[u8]) -> Result<Option<usize>, CodeFault> {
    match read_code(alloc, text) {
        Ok(_) => Ok(None),
        Err(CodeFault::CodeSyntax(at)) => Ok(Some(at)),
        Err(CodeFault::Memory) => Err(CodeFault::Memory),
        Err(_) => Ok(None),
    }
}

// Whether a text is spelled back as it stands.
fn returns(alloc: Global, text: &[u8]) -> Result<bool, CodeFault> {
    let code = read_code(alloc, text)?;
    Ok(spell_code(alloc, &code)?.as_slice() == text)
}

const TEXTS: &[&[u8]] = &[
    b"",
    b"fun t 0 0 0\ncall 0 of\nreturn\nend\n",
    b"fun t 0 1 2\nconst 1 1\nplace 0 16 8\nalu add 64 0 0 1\nload 1 0 0 64\nreturn 1\nend\n",
    b"fun t 0 1 2\nplace 0 16 8\nload 1 0 8 64\nreturn 1\nend\n",
    b"fun t 1 1 1\nswitch 0 - 3 1\nreturn 0\nend\n",
    b"fun a 1 1 2\ntake 1 0 63 1\nput 1 0 0 64\nstore 0 511 8 1\ncopy 1 0\njump 5\ncall 1 0 of 1\nswitch 0 7 18446744073709551615 8\nreturn 1\nreturn 0\nend\nfun bC_9 1 1 1\nreturn 0\nend\n",
];

#[test]
fn spells_back(rt: HostRuntime) -> Result<(), Fail> {
    for &text in TEXTS {
        assert!(rt; returns(rt.alloc(), text)?, "{text:?}");
    }
    Ok(())
}

// A bound is kept, and one more is refused at the byte where no number goes on.
const STOPS: &[(&[u8], Option<usize>)] = &[
    (b"fun t 0 0 0\nreturn\nen", Some(21)),
    (b"fun t 0 0 1\nalu add 65 0 0 0", Some(21)),
    (b"fun t 0 0 1\nalu add 64 0 0 0", Some(28)),
    (b"fun t 0 0 1\nalu add 0", Some(20)),
    (b"fun t 0 0 1\nalu ads", Some(18)),
    (b"fun t 0 0 1\ntake 0 0 64", Some(22)),
    (b"fun t 0 0 1\ntake 0 0 63 2", Some(24)),
    (b"fun t 0 0 1\ntake 0 0 0 64", Some(25)),
    (b"fun t 0 0 1\ntake 0 0 0 65", Some(24)),
    (b"fun t 0 0 1\nput 0 0 0 0", Some(22)),
    (b"fun t 0 0 1\nload 0 0 512", Some(23)),
    (b"fun t 0 0 1\nload 0 0 511 24", Some(25)),
    (b"fun t 0 0 1\nload 0 0 511 16\n", Some(28)),
    (b"fun t 0 0 1\nstore 0 512", Some(22)),
    (b"fun t 0 0 1\nstore 0 511 3\n", Some(25)),
    (b"fun t 0 0 1\nplace 0 513", Some(22)),
    (b"fun t 0 0 1\nplace 0 512 64\n", Some(27)),
    (b"fun t 0 0 1\nplace 0 512 65", Some(25)),
    (b"fun t 0 0 1\nplace 0 0", Some(20)),
    (b"fun t 0 0 01", Some(11)),
    (b"fun t 0 0 18446744073709551616", Some(29)),
    (b"fun t 0 0 18446744073709551615", Some(30)),
    (b"fun T", Some(4)),
    (b"fun t\n", Some(5)),
    (b"fun  t", Some(4)),
    (b"fun t 0 0 0 ", Some(11)),
    (b"fun t 0 0 0\nreturn \n", Some(19)),
    (b"fun t 0 0 0\ncall 0\n", Some(18)),
    (b"fun t 0 0 0\ncall 0 of of", Some(22)),
    (b"fun t 0 0 0\nswitch 0 - 3\n", Some(24)),
    (b"fun t 0 0 0\njumb", Some(15)),
    (b"fun t 0 0 0\nreturn\nend", Some(22)),
    (b"fun t 0 0 0\njump 0\nreturn\nend\n", None),
];

#[test]
fn stops(rt: HostRuntime) -> Result<(), Fail> {
    for &(text, at) in STOPS {
        assert!(rt; stop(rt.alloc(), text)? == at, "{text:?}");
    }
    Ok(())
}

// Whether a function is `t`, takes and gives nothing, and calls itself before it returns.
fn is_endless(fun: &CodeFun) -> bool {
    fun.name.as_slice() == b"t".as_slice()
        && (fun.params, fun.results, fun.slots, fun.body.len()) == (0, 0, 0, 2)
        && matches!(
            fun.body.get(0),
            Some(Instr::Call(0, dests, froms)) if dests.is_empty() && froms.is_empty()
        )
        && matches!(fun.body.get(1), Some(Instr::Return(froms)) if froms.is_empty())
}

#[test]
fn reads_what_stands_there(rt: HostRuntime) -> Result<(), Fail> {
    let code = read_code(rt.alloc(), b"fun t 0 0 0\ncall 0 of\nreturn\nend\n")?;
    assert!(rt; matches!(code.funs(), [fun] if is_endless(fun)));
    Ok(())
}
