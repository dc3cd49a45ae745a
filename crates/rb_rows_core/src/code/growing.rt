//! A body that grows: the slots that it gives, and a target that is set. The slots were counted by hand.

use rb_core::seq::Seq;
use rb_target::body::{Body, Hole};
use rb_target::instr::{Instr, SwitchArm};
use std::test::Fail;

#[test]
fn grows(rt: HostRuntime) -> Result<(), Fail> {
    let mut body = Body::new(rt.alloc(), 2);
    assert!(rt; (body.fresh()?, body.fresh()?) == (2, 3));
    let arms = [
        SwitchArm {
            number: 7,
            target: 1,
        },
        SwitchArm {
            number: 8,
            target: 1,
        },
    ];
    let arms = Seq::from_vec(Vec::from_slice(rt.alloc(), &arms)?);
    body.push(Instr::Switch(0, Some(1), arms))?;
    assert!(rt; body.len() == 1);
    let hole = Hole {
        pc: 0,
        arm: Some(1),
        leaf: 0,
    };
    body.patch(&hole, 5);
    Ok(())
}
