//! A list of slots, each of which holds a value in a box of its own or is empty.
ghost use Rattle.std.specs.Prelude.{◌≡◌, ◌<◌, ◌≤◌, ◌-◌, ◌∷◌, [], ◌++◌, ◌^◌, ℕ, None, Some, suc, length, set, slice_get, replicate, OnOk, option_and_then, option_map, vec_len, vec_capacity};
ghost use Rattle.std.specs.Option.{option_copied};
ghost use Rattle.engine_parts.specs.Slots.{value_in, values_in};

use std::alloc::{AllocError, Global};
use std::marker::Model;

/// An empty slot takes two words (16 bytes), as a full one does beside its box.
#[derive(Drop)]
pub struct Slots<T> {
    list: Vec<Option<Box<T>>>,
}

impl<T> Model for Slots<T> {
    ghost use Rattle.std.specs.Prelude.{◌-◌, vec_len, vec_capacity};
    ghost use Rattle.engine_parts.specs.Slots.{SlotTable, table_code, values_in};

    ghost Value = { SlotTable T };

    ghost coded = { table_code T.code };

    ghost view = { λ s. record { items = values_in s.list.items; spare = vec_capacity s.list - vec_len s.list } };
}

impl<T: Drop> Slots<T> {
    /// No slots.
    pub fn make(alloc: Global) -> Slots<T>
        ensures { result.items ≡ [] }
    {
        Slots {
            list: Vec::new(alloc),
        }
    }

    /// How many slots there are.
    pub fn len(&self) -> usize
        ensures len { result ≡ length self.now.items }
        ensures small { result < 2 ^ 63 }
    {
        self.list.len()
    }

    /// What the slot at that place holds, if there is one and it holds something.
    pub fn get(&self, at: usize) -> Option<&T>
        ensures { option_copied result ≡ option_and_then (λ slot. slot) (slice_get self.now.items at) }
    {
        match self.list.get(at) {
            Some(Some(held)) => Some(held),
            Some(None) => None,
            None => None,
        }
    }

    /// What the slot at that place holds is taken out.
    pub fn take(&mut self, at: usize) -> Option<Box<T>>
        requires { at < length self.old.items }
        ensures taken { slice_get self.old.items at ≡ Some (value_in result) }
        ensures rest { self.new.items ≡ set self.old.items at None }
        ensures spare { self.new.spare ≡ self.old.spare }
    {
        take_at(&mut self.list, at)
    }

    /// A value is put into the slot at that place.
    pub fn put(&mut self, at: usize, value: Box<T>)
        requires { at < length self.old.items }
        ensures items { self.new.items ≡ set self.old.items at (Some value.value) }
        ensures spare { self.new.spare ≡ self.old.spare }
    {
        put_at(&mut self.list, at, Some(value));
    }

    /// The slot at that place is emptied, if there is one.
    pub fn drop_at(&mut self, at: usize)
        ensures items { at < length self.old.items → self.new.items ≡ set self.old.items at None }
        ensures beyond { length self.old.items ≤ at → self.new.items ≡ self.old.items }
        ensures spare { self.new.spare ≡ self.old.spare }
    {
        if at < self.list.len() {
            put_at(&mut self.list, at, None);
        }
    }

    /// Takes room for so many more slots.
    pub fn reserve(&mut self, more: usize) -> Result<(), AllocError>
        ensures items { self.new.items ≡ self.old.items }
        ensures spare { OnOk result (more ≤ self.new.spare) }
    {
        self.list.reserve(more)
    }

    /// One more slot, for which there is room, with a value.
    pub fn push(&mut self, value: Box<T>)
        requires { 0 < self.old.spare }
        ensures items { self.new.items ≡ self.old.items ++ Some value.value ∷ [] }
        ensures spare { self.old.spare ≡ suc self.new.spare }
    {
        self.list.push_reserved(Some(value));
    }
}

/// What stands at a place of the list is taken out.
fn take_at<T>(list: &mut Vec<Option<Box<T>>>, at: usize) -> Option<Box<T>>
    requires { at < length list.old.items }
    ensures taken { slice_get list.old.items at ≡ Some result }
    ensures rest { list.new.items ≡ set list.old.items at None }
    ensures len { vec_len list.new ≡ vec_len list.old }
    ensures capacity { vec_capacity list.new ≡ vec_capacity list.old }
{
    std::mem::replace(&mut list[at], None)
}

/// What stands at a place of the list gives way to another.
fn put_at<T: Drop>(list: &mut Vec<Option<Box<T>>>, at: usize, value: Option<Box<T>>)
    requires { at < length list.old.items }
    ensures items { list.new.items ≡ set list.old.items at value }
    ensures len { vec_len list.new ≡ vec_len list.old }
    ensures capacity { vec_capacity list.new ≡ vec_capacity list.old }
{
    list[at] = value;
}
