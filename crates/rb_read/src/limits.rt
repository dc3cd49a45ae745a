//! The counts of a file that have a limit.
//!
//! An item of a file is a type, a layout or a function. A layout's shape lists the widths of its
//! words; a derived layout has none. Where a first count over its limit is asked for, None says
//! that there is no such count.

ghost use Rattle.std.specs.Prelude.{◌≡◌, ◌∷◌, ◌≤◌, [], map, length, find};
ghost use Rattle.std.specs.List.{flat_map};
ghost use Rattle.rb_read.specs.declared.fault.Quantity.TheVariants as quantity;
ghost use Rattle.rb_read.specs.Limits as limits;

use crate::fault::Quantity;
use rb_core::limits::{
    MOST_CONSTRUCTORS, MOST_FIELDS, MOST_FILE_BYTES, MOST_FUNCTIONS, MOST_PARAMETERS, MOST_TYPES,
    MOST_WORDS,
};
use rb_syntax::tree::{ConTree, FileTree, ItemTree, TypeTree};

/// How many there are of something that has a limit.
#[derive(Clone, Copy, PartialEq, Eq)]
pub struct Count {
    pub quantity: Quantity,
    pub count: u64,
}

/// The greatest number of a quantity that is allowed.
pub fn greatest(quantity: Quantity) -> u64
    ensures { result ≡ limits.limit_of quantity }
{
    match quantity {
        Quantity::FileBytes => MOST_FILE_BYTES as u64,
        Quantity::Types => MOST_TYPES as u64,
        Quantity::Functions => MOST_FUNCTIONS as u64,
        Quantity::Constructors => MOST_CONSTRUCTORS as u64,
        Quantity::Fields => MOST_FIELDS as u64,
        Quantity::Parameters => MOST_PARAMETERS as u64,
        Quantity::ShapeWords => MOST_WORDS as u64,
    }
}

// The count of a quantity, if it is over its limit, which itself is allowed.
fn over(quantity: Quantity, count: usize) -> Option<Count>
    ensures { result ≡ find limits.is_over (limits.count_of quantity count ∷ []) }
{
    let count = count as u64;
    if greatest(quantity) < count {
        Some(Count { quantity, count })
    } else {
        None
    }
}

// The first count of a constructor's fields that is over its limit.
fn fields_over(cons: &[ConTree]) -> Option<Count>
    ensures { result ≡ find limits.is_over (map limits.field_count cons.now) }
{
    for con in cons {
        if let Some(count) = over(Quantity::Fields, con.fields.len()) {
            return Some(count);
        }
    }
    None
}

// The first count of a type that is over its limit: its constructors, then the fields of each.
fn type_over(ty: &TypeTree) -> Option<Count>
    ensures { result ≡ find limits.is_over (limits.type_counts ty.now) }
{
    if let Some(count) = over(Quantity::Constructors, ty.cons.len()) {
        return Some(count);
    }
    fields_over(ty.cons.as_slice())
}

// The first count of one item that is over its limit; a derived layout has none.
fn item_over(item: &ItemTree) -> Option<Count>
    ensures { result ≡ find limits.is_over (limits.item_counts item.now) }
{
    match item {
        ItemTree::Types(ty) => type_over(ty),
        ItemTree::Layouts(layout) => over(Quantity::ShapeWords, layout.shape.len()),
        ItemTree::Funs(fun) => over(Quantity::Parameters, fun.params.len()),
        ItemTree::Derived(_, _) => None,
    }
}

// The first count within an item that is over its limit, item by item; how many types or functions
// the items are isn't looked at here.
fn items_over(items: &[ItemTree]) -> Option<Count>
    ensures { result ≡ find limits.is_over (flat_map limits.item_counts items.now) }
{
    for item in items {
        if let Some(count) = item_over(item) {
            return Some(count);
        }
    }
    None
}

// Whether the item is a type, as a number.
// It is 1 or 0, so that the types of a file are counted by adding it up.
fn type_of(item: &ItemTree) -> usize
    ensures number { result ≡ length (limits.types_in (item.now ∷ [])) }
    ensures one { result ≤ 1 }
{
    match item {
        ItemTree::Types(_) => 1,
        ItemTree::Layouts(_) | ItemTree::Funs(_) | ItemTree::Derived(_, _) => 0,
    }
}

// Whether the item is a function, as a number.
// It is 1 or 0, so that the functions of a file are counted by adding it up.
fn function_of(item: &ItemTree) -> usize
    ensures number { result ≡ length (limits.functions_in (item.now ∷ [])) }
    ensures one { result ≤ 1 }
{
    match item {
        ItemTree::Funs(_) => 1,
        ItemTree::Types(_) | ItemTree::Layouts(_) | ItemTree::Derived(_, _) => 0,
    }
}

// The number of types among the items.
fn types_in(items: &[ItemTree]) -> usize
    ensures { result ≡ length (limits.types_in items.now) }
{
    let mut count = 0usize;
    for item in items {
        count += type_of(item);
    }
    count
}

// The number of functions among the items.
fn functions_in(items: &[ItemTree]) -> usize
    ensures { result ≡ length (limits.functions_in items.now) }
{
    let mut count = 0usize;
    for item in items {
        count += function_of(item);
    }
    count
}

/// The first count that is over its limit: first of the types, then of the functions, and then
/// item by item.
pub(crate) fn first_over(file: &FileTree) -> Option<Count>
    ensures { result ≡ limits.first_over file.now }
{
    let items = file.items.as_slice();
    if let Some(count) = over(Quantity::Types, types_in(items)) {
        return Some(count);
    }
    if let Some(count) = over(Quantity::Functions, functions_in(items)) {
        return Some(count);
    }
    items_over(items)
}
