// The depth of the nodes that were read, for 14.

ghost use Rattle.std.specs.Prelude.{◌≡◌, ◌≤◌, length, map};
ghost use Rattle.fields.specs.Limits.{max_nodes};
ghost use Rattle.model.specs.Depth.{rule_depth};
ghost use Rattle.judge.specs.Packed.{node_in, rule_in};

use crate::packed::{WORDS, unpacked};
use model::depth::Flat;
use model::pass::{Nodes, first_kept};
use model::rule::{Node, UNUSED};

// Numbers as nodes: to make a rule of them would take as long as the pass.
#[derive(Clone, Copy)]
struct Numbered<'a> {
    words: &'a [u64],
}

impl Nodes for Numbered<'_> {
    ghost nodes = { λ s. map node_in s.words.now };

    fn count(&self) -> usize {
        self.words.len()
    }

    fn node(&self, place: usize) -> Node {
        if place < self.words.len() {
            unpacked(self.words[place])
        } else {
            UNUSED
        }
    }
}

pub(crate) fn depth_in(words: &[u64; WORDS], len: usize) -> u8
    requires { (len ≤ max_nodes) × (max_nodes ≤ length words.now) }
    ensures { result ≡ rule_depth (rule_in words.now len) }
{
    let flat: Flat = first_kept(&Numbered {
        words: &words[..len],
    });
    flat.depth
}
