//! Symbols and rules.
use spec_text::Name;
use sqlite_items::Items;

/// A category (nonterminal) or a kind of token (terminal), by its number.
#[derive(Clone, Copy, Debug, PartialEq, Eq)]
pub enum Symbol {
    Category(u16),
    Kind(u16),
}

/// The label of a rule, which its tree nodes bear.
#[derive(Debug, Drop)]
pub enum Label {
    /// A constructor, as `EAdd`.
    Named(Name),
    /// `_`: no node of its own.
    Wild,
    /// `[]`: the empty list.
    Nil,
    /// `(:)`: a list of a first element and the others.
    Cons,
    /// `(:[])`: a list of one element.
    One,
}

/// A rule: a category goes to the items of its right side, in order.
#[derive(Debug, Drop)]
pub struct Rule {
    pub label: Label,
    pub category: u16,
    pub items: Items<Symbol>,
}
