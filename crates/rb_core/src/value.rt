//! Values, which are trees, and how they are taken apart without recursion.

ghost use Rattle.std.specs.Prelude.{◌≡◌, ◌+◌, ◌<◌, ◌≤◌, IfSome, map, sum};

use crate::seq::Seq;

/// A value: a number, or a construction by the constructor with this number in its type, with its
/// subvalues in the order of the constructor's fields.
///
/// Values have no depth limit, so nothing here recurses on one.
pub enum Value {
    Num(u64),
    Con(u32, Seq<Value>),
}

// Takes the value apart node by node, with no memory of its own and no recursion, by reversing
// pointers (Schorr and Waite): the lists that are open are linked through their own first places.
impl Drop for Value {
    fn drop(self) {
        let Some((mut value, mut list)) = self.into_first() else {
            return;
        };
        while let Some((next, rest)) = value.take_apart(list) {
            value = next;
            list = rest;
        }
    }
}

#[tactic(auto, using(crate::proofs::ValueLemmas::total_rules))]
impl Value {
    ghost use Rattle.rb_core.specs.Values.{node_count};

    // The subvalues of a construction; None for a number.
    fn into_list(self) -> Option<Seq<Value>>
        ensures { IfSome result (λ values. node_count self ≡ 1 + sum (map node_count values)) }
    {
        match self {
            Value::Num(_) => None,
            Value::Con(_, values) => Some(values),
        }
    }

    // The first subvalue, and the list of all with a number in its place; None for a number and for
    // a construction without subvalues.
    fn into_first(self) -> Option<(Value, Seq<Value>)>
        ensures { IfSome result (λ r. node_count r.0 + sum (map node_count r.1) ≤ node_count self) }
    {
        match self {
            Value::Num(_) => None,
            Value::Con(_, mut values) => {
                if values.is_empty() {
                    values.destroy_empty();
                    return None;
                }
                let first = values.replace(0, Value::Num(0));
                Some((first, values))
            }
        }
    }

    // The next value to take apart, and the list that is open then: the first subvalue, in whose
    // place a link to the list that was open is left; else the last value of that list. None where
    // nothing is left to take apart.
    fn take_apart(self, list: Seq<Value>) -> Option<(Value, Seq<Value>)>
        ensures total { IfSome result (λ r. node_count r.0 + sum (map node_count r.1)
            ≤ node_count self + sum (map node_count list)) }
        ensures falls { IfSome result (λ r. node_count r.0 + sum (map node_count r.1)
            ≡ node_count self + sum (map node_count list) → node_count r.0 < node_count self) }
    {
        match self {
            Value::Num(_) => Value::last_of(list),
            Value::Con(_, mut values) => {
                if values.is_empty() {
                    values.destroy_empty();
                    return Value::last_of(list);
                }
                let first = values.replace(0, Value::Con(0, list));
                Some((first, values))
            }
        }
    }

    // The last value of a list that is open, and that list without it. The first place of a list
    // holds the link to the list that was open before, which is the next to be open where the list
    // has no other value left, or a number where there is none; then the answer is None.
    fn last_of(list: Seq<Value>) -> Option<(Value, Seq<Value>)>
        ensures { IfSome result (λ r. node_count r.0 + sum (map node_count r.1) ≤ sum (map node_count list)) }
    {
        let mut rest = list;
        while let Some(value) = rest.pop() {
            if !rest.is_empty() {
                return Some((value, rest));
            }
            rest.destroy_empty();
            rest = value.into_list()?;
        }
        rest.destroy_empty();
        None
    }
}
