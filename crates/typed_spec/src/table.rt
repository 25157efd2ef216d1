// The names of one kind of item by their numbers.
ghost use Rattle.std.specs.Prelude.{◌≡◌, ℕ, ◌<◌, List, [], ◌∷◌, ◌++◌, ◌+◌, OnOk};
ghost use Rattle.typed_text.specs.ReadSpec.{is_in, number_in};
ghost use Rattle.typed_spec.specs.Texts.{AreNumbered};

use indexmap::IndexMap;
use sm_io::Name;
use std::alloc::{AllocError, Global};

/// The number of each name among those of its kind, in text order, and how many there are.
#[derive(Drop)]
pub struct Table {
    pub numbers: IndexMap<Name, u32>,
    pub count: u32,
}

impl Table {
    /// No names.
    pub fn new(alloc: Global) -> Table
        ensures numbers { AreNumbered [] result }
        ensures count { result.count ≡ 0 }
    {
        Table {
            numbers: IndexMap::new(alloc),
            count: 0,
        }
    }

    /// Takes in the next name.
    pub fn add(&mut self, alloc: Global, name: &Name) -> Result<(), AllocError>
        requires { self.old.count < 4294967295 }
        ensures numbers { (all : List (List ℕ)) → AreNumbered all self.old → OnOk result (AreNumbered (all ++ name.now ∷ []) self.new) }
        ensures count { OnOk result (self.new.count ≡ self.old.count + 1) }
    {
        if !self.numbers.contains_key(name) {
            self.numbers.insert(name.copy(alloc)?, self.count)?;
        }
        self.count += 1;
        Ok(())
    }

    /// Whether a name is one of them.
    pub fn has(&self, name: &Name) -> bool
        ensures { (all : List (List ℕ)) → AreNumbered all self.now → result ≡ is_in all name.now }
    {
        self.numbers.contains_key(name)
    }

    /// The number of a name, and the count of them all for a name that isn't there.
    pub fn number(&self, name: &Name) -> u32
        ensures { (all : List (List ℕ)) → AreNumbered all self.now → result ≡ number_in all name.now }
    {
        match self.numbers.get(name) {
            Some(number) => *number,
            None => self.count,
        }
    }
}
