// Nodes as numbers, one each: so the reader and the judge of rows hold them, in an array that is lent.

ghost use mathlib.Core.{Path.◌≡◌, List.[], List.◌∷◌};
ghost use Rattle.std.specs.Prelude.{◌≤◌};
ghost use lib.{Dec.T, ListN.length};
ghost use Rattle.model.specs.declared.rule.Kind.TheVariants.{Atom, Group};
ghost use Rattle.model.specs.Rule.{used, unused, names, rule_with};
ghost use Rattle.fields.specs.Limits.{max_atoms, max_nodes};
ghost use Rattle.judge.specs.{Reading.Buffer.Stores, Row.Tally.limits_in};
ghost use Rattle.judge.specs.Packed.{packed_word, node_in, rule_in, Fresh, plain_node, marked_node, is_sign, sign_by, kind_by};

use crate::tally::limited;
use model::check::atoms_of;
use model::mark::{MARK_PLACE, mark_number, numbered_mark};
use model::rule::{Kind, MAX_ATOMS, MAX_NODES, Mark, Node, Rule, Sign, UNUSED, Upper};

// The nodes of a rule, and behind them, from MAX_NODES on, what is seen of each name: one array, since each is cleared by a call of its own.
pub(crate) const WORDS: usize = MAX_NODES + MAX_ATOMS + 1;

// What was read: how many nodes and names a model has, and how many children there are. The two counts of the reader stand apart: side by side they
// are copied as one, which waits until both have been stored.
#[derive(Clone, Copy)]
pub(crate) struct Sizes {
    pub(crate) nodes: usize,
    pub(crate) children: u16,
    pub(crate) names: usize,
}

// The number of a node that has no mark: its shape is a sign's byte or 0, or 1 or 2 for an atom.
fn packed(shape: u8, low: u16, high: u16) -> u64
    ensures { result ≡ packed_word shape low high }
{
    (u64::from(high) * 65536 + u64::from(low)) * 256 + u64::from(shape)
}

pub(crate) fn packed_atom(min: u16, max: Upper) -> u64
    ensures { node_in result ≡ plain_node (Atom min max) }
{
    match max {
        Upper::Number(n) => packed(1, min, n),
        Upper::Unbounded => packed(2, min, 0),
    }
}

// `sign` is the byte of a sign, or 0.
pub(crate) fn packed_group(sign: u8, members: u16) -> u64
    requires { T (is_sign sign) }
    ensures { node_in result ≡ plain_node (Group (sign_by sign) members) }
{
    packed(sign, members, 0)
}

// The number of the same node with a mark.
pub(crate) fn packed_marked(word: u64, mark: Mark) -> u64
    ensures { node_in result ≡ marked_node mark (node_in word) }
{
    word % MARK_PLACE + mark_number(mark) * MARK_PLACE
}

fn sign_by(byte: u8) -> Sign
    ensures { result ≡ sign_by byte }
{
    match byte {
        b',' => Sign::Sequence,
        b'|' => Sign::Choice,
        b'&' => Sign::Interleaving,
        _ => Sign::None,
    }
}

fn kind_of(shape: u8, low: u16, high: u16) -> Kind
    ensures { result ≡ kind_by shape low high }
{
    match shape {
        1 => Kind::Atom {
            min: low,
            max: Upper::Number(high),
        },
        2 => Kind::Atom {
            min: low,
            max: Upper::Unbounded,
        },
        _ => Kind::Group {
            sign: sign_by(shape),
            members: low,
        },
    }
}

// Kind and mark of the node in a number.
#[tactic(auto, unfolding(crate::specs::Packed::node_in))]
pub(crate) fn kind_in(word: u64) -> Kind
    ensures { result ≡ (node_in word).kind }
{
    kind_of(
        (word % 256) as u8,
        (word / 256 % 65536) as u16,
        (word / 256 / 65536 % 65536) as u16,
    )
}

#[tactic(auto, unfolding(crate::specs::Packed::node_in))]
pub(crate) fn mark_in(word: u64) -> Mark
    ensures { result ≡ (node_in word).mark }
{
    numbered_mark(word / MARK_PLACE)
}

pub(crate) fn unpacked(word: u64) -> Node
    ensures { result ≡ node_in word }
{
    Node {
        kind: kind_in(word),
        mark: mark_in(word),
    }
}

// The byte of a sign, 0 for none.
fn byte_of(sign: Sign) -> u8
    ensures { T (is_sign result) × (sign_by result ≡ sign) }
{
    match sign {
        Sign::None => 0,
        Sign::Sequence => b',',
        Sign::Choice => b'|',
        Sign::Interleaving => b'&',
    }
}

fn packed_kind(kind: Kind) -> u64
    ensures { node_in result ≡ plain_node kind }
{
    match kind {
        Kind::Atom { min, max } => packed_atom(min, max),
        Kind::Group { sign, members } => packed_group(byte_of(sign), members),
    }
}

fn packed_node(node: Node) -> u64
    ensures { node_in result ≡ node }
{
    packed_marked(packed_kind(node.kind), node.mark)
}

// The nodes of a rule, and behind them the upper count of each name, by its number. Zeros stand there at first, and the first of them stays: no foreign
// child is allowed.
pub(crate) fn pack(rule: Rule, words: &mut [u64; WORDS])
    requires { (rule.len ≤ max_nodes) × (names rule ≤ max_atoms) × Fresh words.old }
    ensures { Stores node_in max_nodes (limits_in (used rule)) words.new rule.len (used rule) }
{
    let mut place = MAX_NODES;
    for i in 0..rule.len {
        let node = rule.nodes[i];
        words[i] = packed_node(node);
        place += atoms_of(node.kind);
        words[place] = limited(node.kind, words[place]);
    }
}

// The rule of `()`.
pub(crate) fn no_rule() -> Rule
    ensures { result ≡ rule_with (unused ∷ []) }
{
    Rule {
        nodes: [UNUSED; MAX_NODES],
        len: 1,
    }
}

// The rule of the first len nodes.
pub(crate) fn unpack(words: &[u64; WORDS], len: usize) -> Rule
    requires { (len ≤ max_nodes) × (max_nodes ≤ length words.now) }
    ensures { result ≡ rule_in words.now len }
{
    let mut rule = no_rule();
    for i in 0..len {
        rule.nodes[i] = unpacked(words[i]);
    }
    rule.len = len;
    rule
}
