//! The printed text of a tree, written to a sink node by node in preorder.
ghost use Rattle.std.specs.Prelude.{◌≡◌, ◌<◌, ◌-◌, ◌∷◌, ◌++◌, [], ℕ, List, map, get_or, length};
ghost use Rattle.std.specs.Prelude.{false, slice_range, OnOk, OnErr, IfOk, IsErrOf};
ghost use Rattle.spec_lexing.specs.declared.token.Token.{Token};
ghost use Rattle.spec_trees.specs.TreeText.{print_of};
ghost use Rattle.spec_grammar.specs.Grammars.{Grammar as Parsed};
ghost use Rattle.spec_grammar.specs.Trees.{leaf};
ghost use Rattle.tree_nodes.specs.declared.node.TreeNode.{TreeNode};
ghost use Rattle.cyk_io.specs.Causes.{HasCause};
ghost use Rattle.cyk_io.specs.Streams.{Grows, GrowsByPrefix};
ghost use Rattle.cyk_io.specs.Gathering.{Passes};
ghost use Rattle.first_tree.specs.OpenNodes.{IsLeft, Advances, node_past, opened};
ghost use Rattle.first_tree.specs.Printing.{IsTreeIn, text_of};
ghost use Rattle.first_tree.specs.Wanted.{first_wanted, is_print, opening, wanted_text};

use crate::open_node::OpenNode;
use crate::wanted::{Plan, Wanted};
use crate::writing::{is_printed, write_closing, write_leaf, write_opening};
use cyk_io::{Gathered, IoFault, Sink};
use numbered_grammar::{Grammar, Rule};
use std::alloc::Global;
use text_store::Text;
use tree_nodes::{Tree, TreeNode};

/// The bytes of the token at this place.
fn token_bytes(text: &Text, place: u32) -> &[u8]
    requires { place < length text.now.tokens }
    ensures { result.now ≡ get_or (map (λ (t : Token). slice_range text.now.bytes t.first t.end)
        text.now.tokens) place [] }
{
    let bytes = text.bytes();
    let token = text.tokens()[place as usize];
    &bytes[token.first as usize..token.end as usize]
}

/// Writes what is wanted of a leaf that is the next subtree of the node, and answers the node
/// behind it.
fn enter_leaf<K: Sink>(
    alloc: Global,
    grammar: &Grammar,
    text: &Text,
    node: TreeNode,
    top: OpenNode,
    gathered: &mut Gathered,
    sink: &mut K,
) -> Result<OpenNode, IoFault>
    requires place { node.first < length text.now.tokens }
    requires some { 0 < top.left }
    ensures ok { OnOk result (Passes (K.written sink.old) (K.written sink.new) gathered.old
        (wanted_text (first_wanted top.plan) (print_of grammar.now text.now.bytes text.now.tokens
        (leaf node.kind node.first node.end))) gathered.new) }
    ensures node { IfOk result (λ behind. behind ≡ node_past
        (is_print (print_of grammar.now text.now.bytes text.now.tokens
        (leaf node.kind node.first node.end))) (top.left - 1) top) }
    ensures err { OnErr result (GrowsByPrefix (K.written sink.old) (K.written sink.new)
        (gathered.old ++ wanted_text (first_wanted top.plan)
        (print_of grammar.now text.now.bytes text.now.tokens
        (leaf node.kind node.first node.end)))) }
    ensures cause { HasCause (K.faults sink.old) (K.faults sink.new)
        (IsErrOf result IoFault.Write) }
    ensures read { IsErrOf result IoFault.Read → ⊥ }
{
    let Some(kind) = grammar.kinds().get(node.kind as usize) else {
        return Ok(top.past(false, top.left - 1));
    };
    let bytes = token_bytes(text, node.first);
    write_leaf(alloc, gathered, sink, kind, bytes, top.plan.first())?;
    Ok(top.past(is_printed(kind), top.left - 1))
}

/// Writes what comes first of a node of the rule that is the next subtree of the top one, keeps
/// that one, and answers the new one.
fn enter_rule<K: Sink>(
    rule: &Rule,
    children: u16,
    stack: &mut Vec<OpenNode>,
    top: OpenNode,
    gathered: &mut Gathered,
    sink: &mut K,
) -> Result<OpenNode, IoFault>
    requires some { 0 < top.left }
    ensures ok { OnOk result (Passes (K.written sink.old) (K.written sink.new) gathered.old
        (opening rule.now.label (first_wanted top.plan)) gathered.new) }
    ensures stack { OnOk result (stack.new.items
        ≡ stack.old.items ++ node_past false (top.left - 1) top ∷ []) }
    ensures node { IfOk result (λ inner.
        inner ≡ opened rule.now.label (first_wanted top.plan) children) }
    ensures err { OnErr result (GrowsByPrefix (K.written sink.old) (K.written sink.new)
        (gathered.old ++ opening rule.now.label (first_wanted top.plan))) }
    ensures cause { HasCause (K.faults sink.old) (K.faults sink.new)
        (IsErrOf result IoFault.Write) }
    ensures read { IsErrOf result IoFault.Read → ⊥ }
{
    let wanted = top.plan.first();
    if stack.push(top.past(false, top.left - 1)).is_err() {
        return Err(IoFault::Memory);
    }
    write_opening(gathered, sink, &rule.label, wanted)?;
    Ok(OpenNode::of(&rule.label, wanted, children))
}

/// Writes what comes first of the node, which is the next subtree of the top one, and answers the
/// one whose subtree comes next, or of which none is left.
fn enter<K: Sink>(
    alloc: Global,
    grammar: &Grammar,
    text: &Text,
    node: TreeNode,
    stack: &mut Vec<OpenNode>,
    top: OpenNode,
    gathered: &mut Gathered,
    sink: &mut K,
) -> Result<OpenNode, IoFault>
    requires some { 0 < top.left }
    requires left { (nodes : List TreeNode) × (bytes : List ℕ)
        × IsLeft grammar.now text.now.bytes text.now.tokens
        (stack.old.items ++ top ∷ []) (node ∷ nodes) bytes }
    ensures ok { IfOk result (λ inner. (nodes : List TreeNode) (bytes : List ℕ)
        → IsLeft grammar.now text.now.bytes text.now.tokens
        (stack.old.items ++ top ∷ []) (node ∷ nodes) bytes
        → Advances grammar.now text.now.bytes text.now.tokens
        (K.written sink.old, gathered.old) (K.written sink.new, gathered.new) bytes
        (stack.new.items ++ inner ∷ []) nodes) }
    ensures err { OnErr result ((nodes : List TreeNode) (bytes : List ℕ)
        → IsLeft grammar.now text.now.bytes text.now.tokens
        (stack.old.items ++ top ∷ []) (node ∷ nodes) bytes
        → GrowsByPrefix (K.written sink.old) (K.written sink.new) (gathered.old ++ bytes)) }
    ensures cause { HasCause (K.faults sink.old) (K.faults sink.new)
        (IsErrOf result IoFault.Write) }
    ensures read { IsErrOf result IoFault.Read → ⊥ }
{
    match node.rule {
        None => enter_leaf(alloc, grammar, text, node, top, gathered, sink),
        Some(number) => {
            let rule = grammar.rule(number);
            enter_rule(rule, node.children, stack, top, gathered, sink)
        }
    }
}

/// Closes the nodes of which no subtree is left, but for the root, and answers the one whose subtree
/// comes next.
fn close<K: Sink>(
    stack: &mut Vec<OpenNode>,
    top: OpenNode,
    gathered: &mut Gathered,
    sink: &mut K,
) -> Result<OpenNode, IoFault>
    ensures ok { IfOk result (λ below. (g : Parsed) (text : List ℕ) (tokens : List Token)
        (nodes : List TreeNode) (bytes : List ℕ)
        → IsLeft g text tokens (stack.old.items ++ top ∷ []) nodes bytes
        → Advances g text tokens (K.written sink.old, gathered.old)
        (K.written sink.new, gathered.new) bytes (stack.new.items ++ below ∷ []) nodes) }
    ensures some { IfOk result (λ below. below.left ≡ 0 → stack.new.items ≡ []) }
    ensures err { (g : Parsed) (text : List ℕ) (tokens : List Token)
        (nodes : List TreeNode) (bytes : List ℕ)
        → IsLeft g text tokens (stack.old.items ++ top ∷ []) nodes bytes
        → OnErr result (GrowsByPrefix (K.written sink.old) (K.written sink.new)
        (gathered.old ++ bytes)) }
    ensures cause { HasCause (K.faults sink.old) (K.faults sink.new)
        (IsErrOf result IoFault.Write) }
    ensures read { IsErrOf result IoFault.Read → ⊥ }
{
    let mut top = top;
    while top.left == 0 {
        let Some(below) = stack.pop() else {
            return Ok(top);
        };
        write_closing(gathered, sink, top.closing)?;
        top = below.past(top.is_child, below.left);
    }
    Ok(top)
}

/// Writes the printed text of the tree behind what is gathered: the name of each token that is no
/// word, with its bytes, and of the rules their labels and brackets. Its last bytes may be left
/// gathered. After `Write` or `Memory` a prefix of both is written; `Memory` is want of memory, here
/// or in the sink. It goes over the nodes once, and adds at most four pieces for each. It keeps 8
/// bytes or so of each rule above the current node, and copies the bytes of a token only where some
/// of them are not printed as they are.
pub fn print_gathered<K: Sink>(
    alloc: Global,
    tree: &Tree,
    grammar: &Grammar,
    text: &Text,
    gathered: &mut Gathered,
    sink: &mut K,
) -> Result<(), IoFault>
    requires fits { IsTreeIn grammar.now text.now tree.now }
    ensures ok { OnOk result (Passes (K.written sink.old) (K.written sink.new) gathered.old
        (text_of grammar.now text.now tree.now) gathered.new) }
    ensures err { OnErr result (GrowsByPrefix (K.written sink.old) (K.written sink.new)
        (gathered.old ++ text_of grammar.now text.now tree.now)) }
    ensures cause { HasCause (K.faults sink.old) (K.faults sink.new)
        (IsErrOf result IoFault.Write) }
    ensures read { IsErrOf result IoFault.Read → ⊥ }
{
    let mut stack = Vec::new(alloc);
    let mut top = OpenNode {
        plan: Plan::First(Wanted::Text),
        closing: None,
        is_child: false,
        left: 1,
    };
    for node in tree.nodes() {
        let inner = enter(alloc, grammar, text, *node, &mut stack, top, gathered, sink)?;
        top = close(&mut stack, inner, gathered, sink)?;
    }
    Ok(())
}

/// Writes the printed text of the tree, as `print_gathered` does, 4,096 bytes at a time. After
/// `Write` or `Memory` a prefix of it is written; `Memory` is want of memory, here or in the sink.
pub fn print<K: Sink>(
    alloc: Global,
    tree: &Tree,
    grammar: &Grammar,
    text: &Text,
    sink: &mut K,
) -> Result<(), IoFault>
    requires fits { IsTreeIn grammar.now text.now tree.now }
    ensures ok { OnOk result (Grows (K.written sink.old) (K.written sink.new)
        (text_of grammar.now text.now tree.now)) }
    ensures err { OnErr result (GrowsByPrefix (K.written sink.old) (K.written sink.new)
        (text_of grammar.now text.now tree.now)) }
    ensures cause { HasCause (K.faults sink.old) (K.faults sink.new)
        (IsErrOf result IoFault.Write) }
    ensures read { IsErrOf result IoFault.Read → ⊥ }
{
    let mut gathered = Gathered::new();
    print_gathered(alloc, tree, grammar, text, &mut gathered, sink)?;
    gathered.flush(sink)
}
