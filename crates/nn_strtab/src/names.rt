// Names by number, and numbers by name.
ghost use Rattle.std.specs.Prelude.{◌≡◌, ◌-◌, ◌^◌, ◌<◌, ◌≤◌, [], length, option_copied, Some, IfOk, OnOk, OnErr, IfSome, true};
ghost use Rattle.std.specs.Option.{option_map};
ghost use Rattle.nn_strtab.specs.Numbers.{number_in, name_at, with_use, HaveOneNumber};

use indexmap::IndexSet;
use nn_base::NoMemory;
use std::alloc::Global;
use std::marker::Model;

/// Names numbered from 1 in the order of their first use, as the string table of an image numbers owners and groups
/// (HDFS's `SerialNumberManager`, where 0 stands for no name).
#[derive(Drop)]
pub struct Names {
    distinct: IndexSet<Vec<u8>>,
    /// Numbers that were asked for last: nodes beside each other mostly have one owner and one group. Nothing rests on
    /// them, as each is looked at before it is answered.
    last: u32,
    before: u32,
}

impl Model for Names {
    ghost use Rattle.std.specs.Prelude.{List, ℕ, ◌<◌, ◌^◌, map, length};

    ghost Value = { List (List ℕ) };

    ghost view = { λ n. map (λ name. name.items) n.distinct.keys };

    ghost invariant = { λ n. length n.distinct.keys < 2 ^ 32 };
}

impl Names {
    /// No names, in no memory.
    pub fn new(alloc: Global) -> Names
        ensures { result ≡ [] }
    {
        Names {
            distinct: IndexSet::new(alloc),
            last: 0,
            before: 0,
        }
    }

    /// Whether it is the number of a name.
    fn is_of(&self, number: u32, name: &[u8]) -> bool
        ensures { result ≡ true → name_at self.now number ≡ Some name.now }
    {
        match self.name_of(number) {
            Some(found) => found == name,
            None => false,
        }
    }

    /// The number of a name, where it is one of those that were asked for last.
    fn remembered(&self, name: &[u8]) -> Option<u32>
        ensures { IfSome result (λ number. name_at self.now number ≡ Some name.now) }
    {
        if self.is_of(self.last, name) {
            return Some(self.last);
        }
        if self.is_of(self.before, name) {
            return Some(self.before);
        }
        None
    }

    /// `number_of`, by the table of all names.
    fn look_up(&mut self, name: &[u8]) -> Result<u32, NoMemory>
        requires { length self.old < 2 ^ 32 - 1 }
        ensures ok { IfOk result (λ number. number ≡ number_in self.old name.now) }
        ensures named { IfOk result (λ number. name_at self.new number ≡ Some name.now) }
        ensures used { OnOk result (self.new ≡ with_use self.old name.now) }
        ensures err { OnErr result (self.new ≡ self.old) }
    {
        if let Some(place) = self.distinct.get_index_of(name) {
            return Ok(place as u32 + 1);
        }
        let alloc = *self.distinct.allocator();
        let (place, _) = self.distinct.insert_full(name.to_vec(alloc)?)?;
        Ok(place as u32 + 1)
    }

    fn remember(&mut self, number: u32)
        ensures { self.new ≡ self.old }
    {
        self.before = self.last;
        self.last = number;
    }

    /// The number of a name, which a new one gets here. A number is a `u32`, so the last one isn't given to make sure
    /// that `len` is one as well.
    pub fn number_of(&mut self, name: &[u8]) -> Result<u32, NoMemory>
        requires { length self.old < 2 ^ 32 - 1 }
        ensures ok { IfOk result (λ number. number ≡ number_in self.old name.now) }
        ensures named { IfOk result (λ number. name_at self.new number ≡ Some name.now) }
        ensures used { OnOk result (self.new ≡ with_use self.old name.now) }
        ensures err { OnErr result (self.new ≡ self.old) }
    {
        // That no name has two numbers is told by their count.
        let _count = self.len();
        if let Some(number) = self.remembered(name) {
            return Ok(number);
        }
        let number = self.look_up(name)?;
        self.remember(number);
        Ok(number)
    }

    /// The name that has a number. There is none for 0, nor for a number above `len`.
    pub fn name_of(&self, number: u32) -> Option<&[u8]>
        ensures { option_copied result ≡ name_at self.now number }
    {
        let place = number.checked_sub(1)?;
        let name = self.distinct.get_index(place as usize)?;
        Some(name)
    }

    /// How many names there are, which is the greatest number.
    pub fn len(&self) -> u32
        ensures value { result ≡ length self.now }
        ensures one_number { HaveOneNumber self.now }
    {
        self.distinct.len() as u32
    }
}
