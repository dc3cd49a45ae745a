//! Keys of nodes: lists of numbers that tell nodes apart.
//!
//! A node of a decision graph is a clause, or a test of what stands at a position, a list of field
//! numbers. A test has an arm for each of some heads, which are numbers or constructors, and may
//! have a branch for all other values. Each function that adds numbers adds them at the end of
//! `key`. Every error is want of memory.

ghost use Rattle.std.specs.Prelude.{◌≡◌, ◌++◌, IfOk, OnOk};
ghost use Rattle.std.specs.List.{flat_map};
ghost use Rattle.rb_decide.specs.inner.Sharing.{head_key, arm_key, other_key, node_key};

use crate::decision_graph::{GraphArm, GraphNode};
use rb_matrix::matrix::Head;
use std::alloc::{AllocError, Global};

// Adds the three numbers that tell a head.
fn push_head(key: &mut Vec<u64>, head: Head) -> Result<(), AllocError>
    ensures { OnOk result (key.new.items ≡ key.old.items ++ head_key head) }
{
    match head {
        Head::Num(number) => {
            key.push(0)?;
            key.push(number)?;
            key.push(0)?;
        }
        Head::Con(con) => {
            key.push(1)?;
            key.push(con.ty as u64)?;
            key.push(con.con as u64)?;
        }
    }
    Ok(())
}

// Adds the numbers of the fields on the way to a position.
fn push_position(key: &mut Vec<u64>, position: &[u32]) -> Result<(), AllocError>
    ensures { OnOk result (key.new.items ≡ key.old.items ++ position.now) }
{
    for field in position {
        key.push(*field as u64)?;
    }
    Ok(())
}

// Adds the heads of arms, each with the number of the node below it.
fn push_arms(key: &mut Vec<u64>, arms: &[GraphArm]) -> Result<(), AllocError>
    ensures { OnOk result (key.new.items ≡ key.old.items ++ flat_map arm_key arms.now) }
{
    for arm in arms {
        push_head(key, arm.head)?;
        key.push(arm.under as u64)?;
    }
    Ok(())
}

// Adds 0 where a test has no branch for values that no arm takes, else 1 and the number of its
// node.
fn push_other(key: &mut Vec<u64>, other: Option<u32>) -> Result<(), AllocError>
    ensures { OnOk result (key.new.items ≡ key.old.items ++ other_key other) }
{
    match other {
        None => key.push(0)?,
        Some(number) => {
            key.push(1)?;
            key.push(number as u64)?;
        }
    }
    Ok(())
}

/// A node's key. Other nodes have other keys.
///
/// # Errors
///
/// Want of memory.
pub fn key_of(alloc: Global, node: &GraphNode) -> Result<Vec<u64>, AllocError>
    ensures { IfOk result (λ key. key.items ≡ node_key node.now) }
{
    let mut key = Vec::new(alloc);
    match node {
        GraphNode::Clause(clause) => {
            key.push(0)?;
            key.push(*clause as u64)?;
        }
        GraphNode::Test(position, arms, other) => {
            key.push(1)?;
            key.push(position.len() as u64)?;
            push_position(&mut key, position.as_slice())?;
            push_other(&mut key, *other)?;
            push_arms(&mut key, arms.as_slice())?;
        }
    }
    Ok(key)
}
