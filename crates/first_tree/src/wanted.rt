//! What is printed of a node, by its label, and then of its children.
ghost use Rattle.std.specs.Prelude.{◌≡◌};
ghost use Rattle.first_tree.specs.Wanted.{closing_of, first_wanted, list_opening, makes_child};
ghost use Rattle.first_tree.specs.Wanted.{plan_behind, plan_of};

use spec_grammar::Label;

/// What is printed of a tree.
#[derive(Clone, Copy)]
pub(crate) enum Wanted {
    Nothing,
    Text,
    /// Its text behind a space.
    SpacedText,
    /// The elements that it lists, each behind a comma and a space.
    Elements,
}

/// What is printed of the children of a node that are still to come.
#[derive(Clone, Copy)]
pub(crate) enum Plan {
    /// The text of each behind a space.
    EachText,
    /// The text of the first, and the elements of the second.
    TextAndElements,
    /// This of the first.
    First(Wanted),
}

impl Plan {
    /// What is printed of the first child.
    pub(crate) fn first(self) -> Wanted
        ensures { result ≡ first_wanted self }
    {
        match self {
            Plan::EachText => Wanted::SpacedText,
            Plan::TextAndElements => Wanted::Text,
            Plan::First(wanted) => wanted,
        }
    }

    /// What is printed of the children behind the first.
    pub(crate) fn behind_first(self) -> Plan
        ensures { result ≡ plan_behind self }
    {
        match self {
            Plan::EachText => Plan::EachText,
            Plan::TextAndElements => Plan::First(Wanted::Elements),
            Plan::First(_) => Plan::First(Wanted::Nothing),
        }
    }
}

/// What is printed of the children of a node with this label.
pub(crate) fn plan_of(label: &Label, wanted: Wanted) -> Plan
    ensures { result ≡ plan_of label.now wanted }
{
    match label {
        Label::Wild => Plan::First(wanted),
        Label::Nil => Plan::First(Wanted::Nothing),
        Label::Named(_) => match wanted {
            Wanted::Text | Wanted::SpacedText => Plan::EachText,
            Wanted::Elements | Wanted::Nothing => Plan::First(Wanted::Nothing),
        },
        Label::One => match wanted {
            Wanted::Nothing => Plan::First(Wanted::Nothing),
            _ => Plan::First(Wanted::Text),
        },
        Label::Cons => match wanted {
            Wanted::Nothing => Plan::First(Wanted::Nothing),
            _ => Plan::TextAndElements,
        },
    }
}

/// Whether a node with this label is a child in any case. Where it is none, it is one by its
/// children.
pub(crate) fn makes_child(label: &Label) -> bool
    ensures { result ≡ makes_child label.now }
{
    match label {
        Label::Wild => false,
        _ => true,
    }
}

/// What comes before the elements of a list: its bracket, or where it goes on this comma.
pub(crate) fn list_opening(comma: &'static str, wanted: Wanted) -> &'static str
    ensures { result.now ≡ list_opening comma.now wanted }
{
    match wanted {
        Wanted::Nothing => "",
        Wanted::Text => "[",
        Wanted::SpacedText => " [",
        Wanted::Elements => comma,
    }
}

/// The byte behind the children of a node with this label.
pub(crate) fn closing_of(label: &Label, wanted: Wanted) -> Option<u8>
    ensures { result ≡ closing_of label.now wanted }
{
    match wanted {
        Wanted::Nothing | Wanted::Elements => None,
        Wanted::Text | Wanted::SpacedText => match label {
            Label::Named(_) => Some(b')'),
            Label::Wild => None,
            Label::Nil | Label::One | Label::Cons => Some(b']'),
        },
    }
}
