//! Names in the order in which they are first met.
ghost use Rattle.std.specs.Prelude.{◌≡◌, [], ◌≤◌, length, filter, cond, OnOk};
ghost use Rattle.std.specs.Prelude.{IfOk, bytes_eq};
ghost use Rattle.std.specs.List.{list_any};
ghost use Rattle.spec_grammar.specs.Grammars.{name_number};
ghost use Rattle.spec_lbnf.specs.Expansion.{is_among};
ghost use Rattle.lbnf_grammar.specs.Numbering.{with_new_name, with_new_names};

use crate::texts::{CategoryText, name_of};
use indexmap::IndexSet;
use spec_text::Name;
use std::alloc::{AllocError, Global};
use std::marker::Model;

/// Names without repetitions, each with its place as its number, seen as their list.
#[derive(Drop)]
pub(crate) struct Names {
    set: IndexSet<String>,
}

impl Model for Names {
    ghost use Rattle.std.specs.Prelude.{List, ℕ, map, string_bytes};

    ghost Value = { List (List ℕ) };

    ghost view = { λ names. map (λ name. string_bytes name) names.set.keys };
}

impl Names {
    /// No names. It takes no memory.
    pub(crate) fn new(alloc: Global) -> Names
        ensures { result ≡ [] }
    {
        Names {
            set: IndexSet::new(alloc),
        }
    }

    /// How many names there are.
    pub(crate) fn len(&self) -> usize
        ensures { result ≡ length self.now }
    {
        self.set.len()
    }

    /// Whether this is one of the names.
    pub(crate) fn has(&self, name: &str) -> bool
        ensures { result ≡ list_any (bytes_eq name.now) self.now }
    {
        self.set.contains(name)
    }

    /// Whether the text, which is made in the room, is one of the names.
    pub(crate) fn has_text(
        &self,
        room: &mut Vec<u8>,
        text: &CategoryText<'_>,
    ) -> Result<bool, AllocError>
        ensures { IfOk result (λ has. has ≡ list_any (bytes_eq text.now) self.now) }
    {
        Ok(self.has(text.in_room(room)?))
    }

    /// The number of the name, which is the count of names where it is none of them.
    pub(crate) fn number(&self, name: &str) -> usize
        ensures number { result ≡ name_number self.now name.now }
        ensures within { result ≤ length self.now }
    {
        self.set.get_index_of(name).unwrap_or(self.set.len())
    }

    /// Adds the name, if it is new, and then copies its bytes.
    pub(crate) fn add(&mut self, alloc: Global, name: &str) -> Result<(), AllocError>
        ensures { OnOk result (self.new ≡ with_new_name self.old name.now) }
    {
        if self.set.contains(name) {
            return Ok(());
        }
        let key = String::from_str(alloc, name)?;
        self.set.insert(key)?;
        Ok(())
    }

    /// Adds those of the names that are new. They are made in the room.
    pub(crate) fn add_all(
        &mut self,
        alloc: Global,
        room: &mut Vec<u8>,
        names: &[CategoryText<'_>],
    ) -> Result<(), AllocError>
        ensures { OnOk result (self.new ≡ with_new_names self.old names.now) }
    {
        for name in names {
            self.add(alloc, name.in_room(room)?)?;
        }
        Ok(())
    }

    /// Adds the name, if it is new, and among these others.
    fn add_if_listed(&mut self, alloc: Global, others: &Names, name: &str) -> Result<(), AllocError>
        ensures { OnOk result (self.new
            ≡ cond (is_among others.now name.now) (with_new_name self.old name.now) self.old) }
    {
        if others.has(name) {
            return self.add(alloc, name);
        }
        Ok(())
    }

    /// Adds those of the names that are new, and among these others. They are made in the room.
    pub(crate) fn add_listed(
        &mut self,
        alloc: Global,
        room: &mut Vec<u8>,
        others: &Names,
        names: &[CategoryText<'_>],
    ) -> Result<(), AllocError>
        ensures { OnOk result
            (self.new ≡ with_new_names self.old (filter (is_among others.now) names.now)) }
    {
        for name in names {
            self.add_if_listed(alloc, others, name.in_room(room)?)?;
        }
        Ok(())
    }

    /// The names, by number. Their bytes are moved.
    pub(crate) fn into_list(self, alloc: Global) -> Result<Vec<Name>, AllocError>
        ensures { IfOk result (λ list. list.items ≡ self) }
    {
        self.set
            .into_iter()
            .map(|name| name_of(name))
            .collect(alloc)
    }
}
