//! What a tree that is there already can do. Contracts see it as its items in order and its height.
ghost use Rattle.std.specs.Prelude.{◌≡◌, ℕ, List, length, IfOk, MatchOption};
ghost use Rattle.shape_tree.specs.Balance.{IsLeaf, IsNodeOf};
ghost use Rattle.shape_tree.specs.Heights.{IsLow};

use std::alloc::AllocError;

/// A value that can be had twice.
pub trait Share: Sized + Drop {
    /// An equal value.
    fn share(&self) -> Result<Self, AllocError>
        ensures { IfOk result (λ shared. shared ≡ self.now) };
}

impl Share for Option<u16> {
    fn share(&self) -> Result<Option<u16>, AllocError> {
        Ok(*self)
    }
}

/// A balanced tree whose subtrees are shared and not copied.
pub trait Kept: Share {
    /// What a node holds.
    type Item: Share;

    /// The items in order.
    ghost items: { Self → List Self.Item };

    /// The height, 0 for a leaf.
    ghost height_of: { Self → ℕ };

    /// What a tree has for left side, item and right side, with all that a side inherits.
    ghost has_parts: { Self → Self → Self.Item → Self → Type 0 };

    /// How many items the tree has.
    fn len(&self) -> u32
        ensures { result ≡ length (items self.now) };

    /// The height.
    fn height(&self) -> u32
        ensures height { result ≡ height_of self.now }
        ensures low { IsLow (length (items self.now)) (height_of self.now) };

    /// The left side, the item and the right side of a node. None exactly for a leaf.
    fn parts(&self) -> Result<Option<(Self, Self::Item, Self)>, AllocError>
        ensures ok { IfOk result (λ found. MatchOption found
            (IsLeaf items height_of self.now)
            (λ p. IsNodeOf items height_of self.now p.0 p.1 p.2)) }
        ensures parts { IfOk result (λ found. MatchOption found
            (Unit {0})
            (λ p. has_parts self.now p.0 p.1 p.2)) };
}
