// SPDX-License-Identifier: GPL-2.0-only
//! What a tenant does with one object by its birth group and key.

ghost use Rattle.std.specs.Prelude.{◌≡◌, option_copied};
ghost use Rattle.shr_model.specs.Items.{drop_kind_of};
ghost use Rattle.shr_list.specs.Answers.{ListLookGives, ListDropGives, ListPinGives};

use crate::answers::{DropAnswer, LookAnswer, PinAnswer};
use crate::list::List;
use shr_base::journals::{DropKind, Entry};
use shr_base::objects::Object;
use shr_base::places::Serial;
use shr_base::text::Text;

// What a drop does if this is the object that it names.
fn kind_of_drop(object: Option<&Object>) -> DropKind
    ensures { result ≡ drop_kind_of (option_copied object.entry) }
{
    match object {
        None => DropKind::Miss,
        Some(object) if object.pinned => DropKind::Pinned,
        Some(_) => DropKind::Dropped,
    }
}

impl List {
    /// Looks an object up, marks it and gives its value. Our own: Linux's lists have no keys.
    pub fn look(&mut self, by: Serial, birth: u16, key: &Text) -> LookAnswer
        ensures { ListLookGives self.old by birth key.now result self.new }
    {
        if self.contents.closed() {
            return LookAnswer::Closed;
        }
        let entry = self.contents.entries().len() as u32;
        if entry + 1 > self.most_entries {
            return LookAnswer::Worn {
                entries: entry + 1,
                items: self.contents.len() as u32,
            };
        }
        let Ok(named) = key.copy() else {
            return LookAnswer::Memory;
        };
        if self.contents.reserve().is_err() {
            return LookAnswer::Memory;
        }
        let Ok(value) = self.contents.look(birth, key) else {
            return LookAnswer::Memory;
        };
        self.contents.log(Entry::Look {
            by,
            birth,
            key: named,
            hit: value.is_some(),
        });
        match value {
            None => LookAnswer::Miss { entry },
            Some(value) => LookAnswer::Hit { entry, value },
        }
    }

    /// Takes an object out if it is there and not pinned.
    ///
    /// Linux: `list_lru_del` in mm/list_lru.c, which is handed the object and knows no pin.
    pub fn drop_key(&mut self, by: Serial, birth: u16, key: &Text) -> DropAnswer
        ensures { ListDropGives self.old by birth key.now result self.new }
    {
        if self.contents.closed() {
            return DropAnswer::Closed;
        }
        let entry = self.contents.entries().len() as u32;
        if entry + 1 > self.most_entries {
            let kind = kind_of_drop(self.contents.get(birth, key));
            let left = self.contents.len() as u32 - u32::from(kind == DropKind::Dropped);
            return DropAnswer::Worn {
                entries: entry + 1,
                items: left,
            };
        }
        let Ok(named) = key.copy() else {
            return DropAnswer::Memory;
        };
        if self.contents.reserve().is_err() {
            return DropAnswer::Memory;
        }
        let (kind, object) = self.contents.take(birth, key);
        self.contents.log(Entry::Drop {
            by,
            birth,
            key: named,
            kind,
        });
        match object {
            Some(object) => DropAnswer::Dropped { entry, object },
            None if kind == DropKind::Pinned => DropAnswer::Pinned { entry },
            None => DropAnswer::Miss { entry },
        }
    }

    /// Pins an object, or takes its pin away. Our own: a pin stands for a raised reference count.
    pub fn set_pin(&mut self, by: Serial, birth: u16, key: &Text, pinned: bool) -> PinAnswer
        ensures { ListPinGives self.old by birth key.now pinned result self.new }
    {
        if self.contents.closed() {
            return PinAnswer::Closed;
        }
        let entry = self.contents.entries().len() as u32;
        if entry + 1 > self.most_entries {
            return PinAnswer::Worn {
                entries: entry + 1,
                items: self.contents.len() as u32,
            };
        }
        let Ok(named) = key.copy() else {
            return PinAnswer::Memory;
        };
        if self.contents.reserve().is_err() {
            return PinAnswer::Memory;
        }
        let hit = self.contents.set_pin(birth, key, pinned);
        self.contents.log(Entry::Pin {
            by,
            birth,
            key: named,
            pinned,
            hit,
        });
        if hit {
            PinAnswer::Done { entry }
        } else {
            PinAnswer::Miss { entry }
        }
    }
}
