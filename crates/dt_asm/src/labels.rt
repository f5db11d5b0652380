// Labels: where they stand, and whether each can be used.
ghost use Rattle.std.specs.Prelude.{◌≡◌, ◌<◌, ◌≤◌, ◌+◌, ◌^◌, ℕ, IfSome};
ghost use Rattle.std.specs.List.{list_any};
ghost use Rattle.dt_asm.specs.Item.{total_size, label_offset, is_label, distance, item_size};
ghost use Rattle.dt_asm.specs.Refusal.{is_lost, is_set_in, is_set_twice, is_out_of_reach, any_out_of_reach};

use crate::item::Item;
use crate::shapes::{is_b_immediate, is_j_immediate};

/// Whether an item uses a label that none of the items sets.
pub fn any_lost(items: &[Item]) -> bool
    requires { total_size items.now < 2 ^ 63 }
    ensures { result ≡ list_any (is_lost items.now) items.now }
{
    items.iter().any(|item| is_lost(items, item))
}

/// Whether two items set one label.
pub fn is_set_twice(items: &[Item]) -> bool
    requires { total_size items.now < 2 ^ 63 }
    ensures { result ≡ is_set_twice items.now }
{
    let mut rest = items;
    while let [item, after @ ..] = rest {
        if is_set(after, item) {
            return true;
        }
        rest = after;
    }
    false
}

/// Whether the label of an item lies outside the range of its form: -4,096 to 4,094 bytes from a branch, -1,048,576 to
/// 1,048,574 from a jump, and an even number of them.
pub fn any_out_of_reach(items: &[Item]) -> bool
    requires { total_size items.now < 2 ^ 63 }
    ensures { result ≡ any_out_of_reach items.now 0 items.now }
{
    let mut at = 0;
    for item in items {
        if is_out_of_reach(items, at, item) {
            return true;
        }
        at += item.size();
    }
    false
}

/// The bytes from an offset in the code to that of a label; a label that is not set is taken to stand at 0.
pub fn distance(items: &[Item], at: u64, label: u32) -> i64
    requires small { total_size items.now < 2 ^ 63 }
    requires inside { at < 2 ^ 63 }
    ensures { result ≡ distance items.now at label }
{
    let offset = label_offset(items, label).unwrap_or(0);
    offset.cast_signed() - at.cast_signed()
}

// Whether the item uses a label that is not set.
fn is_lost(items: &[Item], item: &Item) -> bool
    requires { total_size items.now < 2 ^ 63 }
    ensures { result ≡ is_lost items.now item.now }
{
    match item {
        Item::Branch { label, .. } | Item::Jump(label) => label_offset(items, *label).is_none(),
        _ => false,
    }
}

// Whether the item sets a label that one of these sets.
fn is_set(items: &[Item], item: &Item) -> bool
    requires { total_size items.now < 2 ^ 63 }
    ensures { result ≡ is_set_in items.now item.now }
{
    match item {
        Item::Label(label) => label_offset(items, *label).is_some(),
        _ => false,
    }
}

// Whether the item's label lies outside the range of its form.
fn is_out_of_reach(items: &[Item], at: u64, item: &Item) -> bool
    requires small { total_size items.now < 2 ^ 63 }
    requires inside { at < 2 ^ 63 }
    ensures { result ≡ is_out_of_reach items.now at item.now }
{
    match item {
        Item::Branch { label, .. } => !is_b_immediate(distance(items, at, *label)),
        Item::Jump(label) => !is_j_immediate(distance(items, at, *label)),
        _ => false,
    }
}

// Where a label is set, counted in bytes from the first item on.
fn label_offset(items: &[Item], name: u32) -> Option<u64>
    requires { total_size items.now < 2 ^ 63 }
    ensures offset { result ≡ label_offset items.now name }
    ensures within { IfSome result (λ at. at ≤ total_size items.now) }
{
    let mut at = 0;
    for item in items {
        if is_label(item, name) {
            return Some(at);
        }
        at += item.size();
    }
    None
}

// Whether the item sets this label.
fn is_label(item: &Item, name: u32) -> bool
    ensures { result ≡ is_label name item.now }
{
    match item {
        Item::Label(label) => *label == name,
        _ => false,
    }
}
