// The first child of a row that is foreign or one too many of its name: document 02, W2. Judging goes through it first.

ghost use Rattle.std.specs.Prelude.{◌≡◌};
ghost use Rattle.judge.specs.FirstFault.{fault_judged, children_fault, searched_of};

use crate::fault::{JudgeFault, TextFault};
use crate::packed::{WORDS, pack};
use crate::reply::{ChildrenRow, TextMisread, read_children};
use crate::row::test_row;
use crate::tally::search_row;
use model::rule::Rule;

// Refused as judge_row refuses. Else the place, from 0, of the first such child, or that there is none.
pub fn first_fault(rule: Rule, row: &[u16]) -> Result<Option<usize>, JudgeFault>
    ensures { result ≡ fault_judged rule row.now }
{
    test_row(rule, row)?;
    let mut words = [0u64; WORDS];
    pack(rule, &mut words);
    Ok(search_row(row, &mut words))
}

// The same by a model text and a children text, a field each, refused as judge_children refuses.
pub fn search_children(model: &[u8], children: &[u8]) -> Result<Option<usize>, TextFault>
    ensures { result ≡ searched_of (children_fault model.now children.now) }
{
    let mut words = [0u64; WORDS];
    match read_children(model, children, &mut words)? {
        ChildrenRow::Whole(_) => Ok(None),
        ChildrenRow::Faulty(place) => Ok(Some(place)),
    }
}
