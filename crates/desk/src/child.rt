// Child look-up: the part of a text where a child's name stands.

ghost use Rattle.std.specs.Prelude.{◌≡◌, ◌-◌, ◌≤◌, length, IfOk, IfErr, OnOk};
ghost use Rattle.fields.specs.{Limits.max_file, Split.tab, Split.split};
ghost use Rattle.judge.specs.Reply.{result_of};
ghost use Rattle.desk.specs.Child.{found, child_refusal, Hands};
ghost use Rattle.desk.specs.Child.Code.{ChildReached, HandsField, asked_of};

use crate::answer::text_number;
use fields::children::count_children;
use fields::fault::CueFault;
use fields::limits::MAX_FILE;
use fields::split::{TAB, part_end};
use judge::fault::TextFault;
use judge::reading::{number_of, read_model};

// Nothing where child k is one of them; else why it is not.
fn check_child(children: &[u8], k: usize) -> Result<(), CueFault>
    ensures { result ≡ asked_of children.now k }
{
    if MAX_FILE < children.len() {
        return Err(CueFault::LongFile);
    }
    if children.is_empty() {
        return Err(CueFault::NoChild);
    }
    let count = count_children(children)?;
    if 1 <= k && k <= count {
        Ok(())
    } else {
        Err(CueFault::NoChild)
    }
}

// Where child k begins.
fn child_start(children: &[u8], k: usize) -> usize
    requires { (1 ≤ k) × (k ≤ length (split tab children.now)) × (length children.now ≤ max_file) }
    ensures { ChildReached children.now (k - 1) result }
{
    let mut at = 0;
    for _ in 1..k {
        at = part_end(children, at, TAB) + 1;
    }
    at
}

// The part where child k stands.
fn child_field(children: &[u8], k: usize) -> Result<&[u8], CueFault>
    ensures part { IfOk result (λ field. HandsField children.now k children.entry.ref_ptr field.now field.ref_ptr) }
    ensures refusal { IfErr result (λ f. asked_of children.now k ≡ Err f) }
{
    check_child(children, k)?;
    let at = child_start(children, k);
    let end = part_end(children, at, TAB);
    Ok(&children[at..end])
}

// The part that `child` hands back, or the refusal.
fn locate<'a>(model: &'a [u8], children: &'a [u8], k: usize) -> Result<&'a [u8], TextFault>
    ensures part { IfOk result (λ part. Hands model.now children.now k model.entry.ref_ptr children.entry.ref_ptr part.now part.ref_ptr) }
    ensures no_refusal { OnOk result (child_refusal model.now children.now k ≡ 0) }
    ensures refusal { IfErr result (λ f. result_of (found model.now children.now k) ≡ Err f) }
{
    let read = read_model(model);
    read.outcome?;
    let name = child_field(children, k)?;
    let number = usize::from(number_of(model, read.names, name).0);
    if number == 0 {
        return Ok(name);
    }
    let place = read.names.places[number - 1];
    let start = usize::from(place.start);
    let end = start + usize::from(place.len);
    Ok(&model[start..end])
}

// The part of the model text where the name of child k stands, or, for a name that the model lacks, the part of the children text. Where
// `child_refusal` gives a number, the empty part at the beginning of the children text.
pub fn child<'a>(model: &'a [u8], children: &'a [u8], k: usize) -> &'a [u8]
    ensures { Hands model.now children.now k model.entry.ref_ptr children.entry.ref_ptr result.now result.ref_ptr }
{
    match locate(model, children, k) {
        Ok(part) => part,
        Err(_) => &children[..0],
    }
}

// The number of the refusal: 10 to 19, then 30, 35, 36, then 37 where k is 0 or past the last child; 0 where there is none.
pub fn child_refusal(model: &[u8], children: &[u8], k: usize) -> u32
    ensures { result ≡ child_refusal model.now children.now k }
{
    match locate(model, children, k) {
        Ok(_) => 0,
        Err(fault) => text_number(fault),
    }
}
