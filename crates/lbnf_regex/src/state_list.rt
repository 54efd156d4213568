//! Sets of positions in the order in which they are found, with a look-up by what they hold.
ghost use Rattle.std.specs.Prelude.{◌≡◌, ◌++◌, ◌∷◌, [], ◌<◌, length, IfSome, IfNone, OnOk};
ghost use Rattle.lbnf_regex.specs.States.{IsNoneOf, state_at};

use indexmap::IndexSet;
use std::alloc::{AllocError, Global};
use std::marker::Model;

/// Sets without repetitions, each with its place as its number, seen as their list.
#[derive(Debug, Drop)]
pub(crate) struct States {
    sets: IndexSet<Vec<u32>>,
}

impl Model for States {
    ghost use Rattle.std.specs.Prelude.{List, ℕ, map};

    ghost Value = { List (List ℕ) };

    ghost view = { λ states. map (λ set. set.items) states.sets.keys };
}

impl States {
    /// No sets. It takes no memory.
    pub(crate) fn new(alloc: Global) -> States
        ensures { result ≡ [] }
    {
        States {
            sets: IndexSet::new(alloc),
        }
    }

    /// How many sets there are.
    pub(crate) fn len(&self) -> usize
        ensures { result ≡ length self.now }
    {
        self.sets.len()
    }

    /// The set of this number.
    pub(crate) fn at(&self, i: usize) -> &[u32]
        requires { i < length self.now }
        ensures { result.now ≡ state_at self.now i }
    {
        self.sets.as_slice()[i].as_slice()
    }

    /// The number of the set. None where it is none of them.
    pub(crate) fn place_of(&self, set: &[u32]) -> Option<usize>
        ensures found { IfSome result (λ i.
            (i < length self.now) × (state_at self.now i ≡ set.now)) }
        ensures none { IfNone result (IsNoneOf self.now set.now) }
    {
        self.sets.get_index_of(set)
    }

    /// Puts the set, which is none of them, behind the others.
    pub(crate) fn push(&mut self, set: Vec<u32>) -> Result<(), AllocError>
        requires { IsNoneOf self.old set.items }
        ensures { OnOk result (self.new ≡ self.old ++ set.items ∷ []) }
    {
        self.sets.insert(set)?;
        Ok(())
    }
}
