// Writes a model in its one way.

ghost use Rattle.std.specs.Prelude.{◌≡◌, ◌+◌, ◌≤◌, [], ◌∷◌, length, drop, MatchOption};
ghost use Rattle.fields.specs.Put.{Put};
ghost use Rattle.model.specs.{Fault.accepted, Syntax.Syntax, Syntax.mark_text};
ghost use Rattle.judge.specs.Answer.{answer};
ghost use Rattle.fields.specs.Bytes.{bytes};
ghost use Rattle.canonical.specs.Canonical.{write_fitting, write_reply, written_of, buffer_written};
ghost use Rattle.canonical.specs.Writer.Accepted.{tree_reply, OneTree};
ghost use Rattle.canonical.specs.Writer.{Stack.trees_on, Length.LengthReady, Length.Laws.plain_length, Length.signed_length, Lists.PutReady, Lists.TreePut};

use crate::atom::{kept_end, put_atom};
use crate::fault::{Unwritten, WriteFault};
use crate::head::{Head, NO_HEAD};
use crate::names::name_end;
use crate::order::members;
use crate::tidy::tidy;
use fields::put::put;
use judge::reading::model_outcome;
use model::rule::{MAX_NODES, Mark};

const LONG_TEXT: Unwritten = Unwritten {
    fault: WriteFault::LongText,
    place: 0,
};

fn mark_byte(mark: Mark) -> Option<u8>
    ensures { MatchOption result (mark_text mark ≡ []) (λ b. mark_text mark ≡ b ∷ []) }
{
    match mark {
        Mark::Plain => None,
        Mark::Optional => Some(b'?'),
        Mark::Nonempty => Some(b'!'),
    }
}

fn mark_length(mark: Mark) -> usize
    ensures { result ≡ length (mark_text mark) }
{
    match mark_byte(mark) {
        None => 0,
        Some(_) => 1,
    }
}

// How long what is written of a head is, without its mark: an atom, or a bracket.
fn plain_length(text: &[u8], head: Head) -> usize
    requires { head.least ≤ length text.now }
    ensures { result ≡ plain_length text.now head }
{
    if !head.shape.is_atom() {
        return 1;
    }
    let at = usize::from(head.least);
    let name = name_end(text, at);
    kept_end(text, at, name) - at
}

// How long the texts of the trees on the stack are, with one byte behind each.
fn signed_length(text: &[u8], stack: &[Head; MAX_NODES], top: usize) -> usize
    requires { LengthReady text.now stack.now top }
    ensures { result ≡ signed_length (trees_on text.now (drop top stack.now)) }
{
    let mut sum = 0;
    for head in &stack[top..] {
        sum += plain_length(text, *head) + mark_length(head.mark) + 1;
    }
    sum
}

fn put_mark(buffer: &mut [u8], to: usize, mark: Mark) -> usize
    requires { to + length (mark_text mark) ≤ length buffer.old }
    ensures { Put buffer.old buffer.new to (mark_text mark) result }
{
    let Some(byte) = mark_byte(mark) else {
        return to;
    };
    buffer[to] = byte;
    to + 1
}

// Writes the tree whose head stands at `at`. The list is free from `start` on.
fn put_tree(
    text: &[u8],
    stack: &[Head; MAX_NODES],
    list: &mut [u8; MAX_NODES],
    buffer: &mut [u8],
    at: usize,
    start: usize,
    to: usize,
) -> usize
    requires { PutReady text.now stack.now list.old buffer.old at start to }
    ensures { TreePut text.now stack.now list.old list.new buffer.old
        buffer.new at start to result }
{
    let head = stack[at];
    if head.shape.is_atom() {
        let end = put_atom(text, buffer, usize::from(head.least), to);
        return put_mark(buffer, end, head.mark);
    }
    let end = members(text, stack, list, at, start);
    let sign = head.shape.byte();
    let mut before = b'(';
    let mut p = to;
    for k in (start..end).rev() {
        buffer[p] = before;
        before = sign;
        let m = usize::from(list[k]);
        p = put_tree(text, stack, list, buffer, m, end, p + 1);
    }
    buffer[p] = b')';
    put_mark(buffer, p + 1, head.mark)
}

// `()`, if the buffer has room for it.
fn write_nothing(buffer: &mut [u8]) -> Result<usize, Unwritten>
    ensures value { result ≡ written_of (write_fitting (bytes "()") (length buffer.old)) }
    ensures buffer_after { buffer.new ≡ buffer_written (write_fitting (bytes "()") (length buffer.old)) buffer.old }
{
    if buffer.len() < 2 {
        return Err(LONG_TEXT);
    }
    Ok(put(buffer, 0, b"()"))
}

// The one tree on the stack, if the buffer has room for its text.
fn write_tree(
    text: &[u8],
    stack: &[Head; MAX_NODES],
    top: usize,
    buffer: &mut [u8],
) -> Result<usize, Unwritten>
    requires { OneTree text.now stack.now top }
    ensures value { result ≡ written_of (tree_reply text.now stack.now top (length buffer.old)) }
    ensures buffer_after { buffer.new ≡ buffer_written (tree_reply text.now stack.now top (length buffer.old))
        buffer.old }
{
    let length = signed_length(text, stack, top) - 1;
    if buffer.len() < length {
        return Err(LONG_TEXT);
    }
    let mut list = [0u8; MAX_NODES];
    put_tree(text, stack, &mut list, buffer, top, 0, 0);
    Ok(length)
}

// The text of an accepted model, if the buffer has room for it.
fn write_accepted(text: &[u8], buffer: &mut [u8]) -> Result<usize, Unwritten>
    requires { (t : Syntax) × (answer text.now ≡ accepted t) }
    ensures value { result ≡ written_of (write_reply text.now (length buffer.old)) }
    ensures buffer_after { buffer.new ≡ buffer_written (write_reply text.now (length buffer.old)) buffer.old }
{
    let mut stack = [NO_HEAD; MAX_NODES];
    let t = tidy(text, &mut stack, 0, MAX_NODES);
    if t.head.shape.is_nothing() {
        return write_nothing(buffer);
    }
    let top = t.top - 1;
    stack[top] = t.head;
    write_tree(text, &stack, top, buffer)
}

// Writes the model's text into the buffer and hands back its length. Or the refusal of the model text with its place, or 51: the text is longer than the
// buffer. Bytes behind the text, and all of them on a refusal, stay as they were.
pub fn write_model(text: &[u8], buffer: &mut [u8]) -> Result<usize, Unwritten>
    ensures value { result ≡ written_of (write_reply text.now (length buffer.old)) }
    ensures buffer_after { buffer.new ≡ buffer_written (write_reply text.now (length buffer.old)) buffer.old }
{
    model_outcome(text)?;
    write_accepted(text, buffer)
}
