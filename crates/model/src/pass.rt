// One pass over nodes, from the last to the first. For a rule and for the nodes of a text alike.

ghost use Rattle.std.specs.Prelude.{◌≡◌, List, ℕ, ◌<◌, ◌*◌, ◌^◌, length, take, get_or};
ghost use Rattle.std.specs.Mem.{type_size};
ghost use Rattle.fields.specs.Limits.{max_nodes};
ghost use Rattle.model.specs.declared.rule.{Kind.Kind, Mark.Mark, Node.Node as RuleNode};
ghost use Rattle.model.specs.{Model.Algebra, Pass.IsStep, Pass.first, Rule.unused, Rule.used};

use crate::check::members_of;
use crate::rule::{MAX_NODES, Node, Rule, UNUSED};

// What is kept of a tree: it comes from its first node and from what is kept of that node's members.
pub trait Kept: Copy {
    // Of no tree at all.
    ghost nothing: { Self };

    ghost of_node: { Kind → Mark → List Self → Self };

    ghost algebra: { Algebra Self };

    fn nothing() -> Self
        ensures { result ≡ nothing };

    fn of_node(node: Node, members: &[Self]) -> Self
        ensures { result ≡ of_node node.kind node.mark members.now };

    ghost is_step: { IsStep of_node algebra };

    // So many are kept at once that their array has to fit.
    ghost small: { max_nodes * type_size Self.row < 2 ^ 63 };
}

// Nodes by their places.
pub trait Nodes {
    ghost nodes: { Self → List RuleNode };

    fn count(&self) -> usize
        ensures { result ≡ length (nodes self.now) };

    // The node of `()` past the last place.
    fn node(&self, place: usize) -> Node
        ensures { result ≡ get_or (nodes self.now) place unused };
}

impl Nodes for Rule {
    ghost nodes = { used };

    fn count(&self) -> usize {
        self.used().len()
    }

    fn node(&self, place: usize) -> Node {
        self.used().get(place).map_or(UNUSED, |node| *node)
    }
}

// What is kept of the first tree of the first MAX_NODES nodes. What is kept of the trees that are read stands on a stack that grows down, and a group takes
// its members from it.
pub fn first_kept<V: Kept, N: Nodes>(nodes: &N) -> V
    ensures { result ≡ first V.algebra (take max_nodes (N.nodes nodes.now)) V.nothing }
{
    let mut stack = [V::nothing(); MAX_NODES];
    let mut top = MAX_NODES;
    for i in (0..nodes.count().min(MAX_NODES)).rev() {
        let node = nodes.node(i);
        let end = members_of(node.kind).min(MAX_NODES - top) + top;
        let entries = &stack[..];
        let kept = V::of_node(node, &entries[top..end]);
        top = end - 1;
        stack[top] = kept;
    }
    if top < MAX_NODES {
        stack[top]
    } else {
        V::nothing()
    }
}

// The same of a rule, which has no more nodes.
pub(crate) fn kept_of<V: Kept>(rule: Rule) -> V
    ensures { result ≡ first V.algebra (used rule) V.nothing }
{
    first_kept(&rule)
}
