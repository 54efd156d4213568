//! Nodes of which subtrees are still to be printed.
ghost use Rattle.std.specs.Prelude.{◌≡◌};
ghost use Rattle.first_tree.specs.OpenNodes.{node_past, opened};

use crate::wanted::{Plan, Wanted, closing_of, makes_child, plan_of};
use spec_grammar::Label;

/// A node of which subtrees may still be to be printed.
#[derive(Clone, Copy)]
pub(crate) struct OpenNode {
    /// What is printed of the children that are left.
    pub(crate) plan: Plan,
    /// The byte behind the children.
    pub(crate) closing: Option<u8>,
    /// Whether it is known that something is printed of the node where it is wanted, so that the
    /// node is a child.
    pub(crate) is_child: bool,
    /// How many subtrees are left.
    pub(crate) left: u16,
}

impl OpenNode {
    /// A node with this label and so many subtrees, before the first of them.
    pub(crate) fn of(label: &Label, wanted: Wanted, left: u16) -> OpenNode
        ensures { result ≡ opened label.now wanted left }
    {
        OpenNode {
            plan: plan_of(label, wanted),
            closing: closing_of(label, wanted),
            is_child: makes_child(label),
            left,
        }
    }

    /// The node behind one more of its subtrees, which is a child or is none; so many are left.
    pub(crate) fn past(self, is_child: bool, left: u16) -> OpenNode
        ensures { result ≡ node_past is_child left self }
    {
        OpenNode {
            plan: if is_child {
                self.plan.behind_first()
            } else {
                self.plan
            },
            closing: self.closing,
            is_child: self.is_child || is_child,
            left,
        }
    }
}
