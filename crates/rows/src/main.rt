// Runs what document 01 gives to try and is not proved, the examples of document 001, rows with a first fault, and what `!` does: a line for each, with the
// text or the model and the row, and the answer.
#![tactic(auto)]

ghost use Rattle.std.specs.Prelude.{◌≤◌};

use judge::fault::{JudgeFault, Misread};
use judge::first_fault::first_fault;
use judge::reading::{number_of, read_model};
use judge::row::judge_row;
use model::fault::model_number;
use model::rule::Rule;
use model::verdict::Verdict;
use std::io;

fn write_answer(rt: &impl Print, answer: Result<Verdict, JudgeFault>) -> io::Result<()> {
    match answer {
        Ok(Verdict::Complete) => println!(rt; "complete"),
        Ok(Verdict::Open) => println!(rt; "open"),
        Ok(Verdict::Dead) => println!(rt; "dead"),
        Err(_) => println!(rt; "refused"),
    }
}

fn write_fault(rt: &impl Print, answer: Result<Option<usize>, JudgeFault>) -> io::Result<()> {
    match answer {
        Ok(Some(place)) => println!(rt; "fault at {place}"),
        Ok(None) => println!(rt; "no fault"),
        Err(_) => println!(rt; "refused"),
    }
}

fn write_row(rt: &impl Print, model: &[u8], row: &[u8]) -> io::Result<()> {
    rt.write_all(model)?;
    print!(rt; "\t")?;
    if row.is_empty() {
        print!(rt; "none")?;
    } else {
        rt.write_all(row)?;
    }
    print!(rt; "\t")
}

// Writes the model and a row of letters, each the name of a child, and gives the rule and the row's numbers.
fn number_row<const N: usize>(
    rt: &impl Print,
    model: &[u8],
    row: &[u8; N],
) -> io::Result<(Rule, [u16; N])>
    requires { N ≤ 12 }
{
    write_row(rt, model, row)?;
    let reading = read_model(model);
    let numbers = row.map(|letter| number_of(model, reading.names, &[letter]).0);
    Ok((reading.rule, numbers))
}

fn run<const N: usize>(rt: &impl Print, model: &[u8], row: &[u8; N]) -> io::Result<()>
    requires { N ≤ 12 }
{
    let (rule, numbers) = number_row(rt, model, row)?;
    write_answer(rt, judge_row(rule, &numbers))
}

fn search<const N: usize>(rt: &impl Print, model: &[u8], row: &[u8; N]) -> io::Result<()>
    requires { N ≤ 12 }
{
    let (rule, numbers) = number_row(rt, model, row)?;
    write_fault(rt, first_fault(rule, &numbers))
}

// The longest row there is, of one name.
fn run_longest(rt: &impl Print, model: &[u8]) -> io::Result<()> {
    write_row(rt, model, b"4096 of a")?;
    write_answer(rt, judge_row(read_model(model).rule, &[1; 4096]))
}

// A text under the name `shown`.
fn read_as(rt: &impl Print, shown: &[u8], text: &[u8]) -> io::Result<()> {
    rt.write_all(shown)?;
    print!(rt; "\t")?;
    match read_model(text).outcome {
        Ok(()) => println!(rt; "read"),
        Err(Misread { fault, place }) => println!(rt; "{}\t{place}", model_number(fault)),
    }
}

fn read(rt: &impl Print, text: &[u8]) -> io::Result<()> {
    read_as(rt, text, text)
}

// Document 01, "Rows to try": the rows without a star.
fn rows_to_try(rt: &impl Print) -> io::Result<()> {
    run(rt, b"((a?&b[1..5]),(c|d[1..*]))", b"bbbbbb")?;
    run(rt, b"((a&b&c),d[0..*],(e|f|g))", b"bcad")?;
    run(rt, b"(a,b)", b"")?;
    run(rt, b"(a[2..3],b)", b"aab")?;
    run(rt, b"((a,b)&(c,d))", b"ca")?;
    run(rt, b"((a,b)&(c,d))", b"dc")?;
    run(rt, b"()", b"a")?;
    run(rt, b"(a|b)?", b"")?;
    run(rt, b"(a|b)?", b"ab")?;
    run_longest(rt, b"a[60000..60000]")
}

// Document 001, examples 2.2, 3.2 with 5.1, and 4.1.
fn examples(rt: &impl Print) -> io::Result<()> {
    run(rt, b"((a,b)&(x,y))", b"abxy")?;
    run(rt, b"((a,b)&(x,y))", b"axby")?;
    run(rt, b"((a,b)&(x,y))", b"axyb")?;
    run(rt, b"((a,b)&(x,y))", b"xaby")?;
    run(rt, b"((a,b)&(x,y))", b"xayb")?;
    run(rt, b"((a,b)&(x,y))", b"xyab")?;
    run(rt, b"((a,b)&(x,y))", b"bxay")?;
    run(rt, b"((a?&b[1..5]),(c|d[1..*]))", b"bbac")?;
    run(rt, b"((a?&b[1..5]),(c|d[1..*]))", b"bbacb")?;
    run(rt, b"((a?&b[1..5]),(c|d[1..*]))", b"bbaca")?;
    run(rt, b"((a&b&c),d[0..*],(e|f|g))", b"bcadddg")?;
    run(rt, b"((a&b&c),d[0..*],(e|f|g))", b"bcadddgdga")
}

// Document 02, W2: foreign children, and children one too many of their name; order and choice play no part.
fn first_faults(rt: &impl Print) -> io::Result<()> {
    search(rt, b"(a,b)", b"")?;
    search(rt, b"(a,b)", b"ba")?;
    search(rt, b"(a,b)", b"xa")?;
    search(rt, b"(a,b)", b"abx")?;
    search(rt, b"(a,b)", b"aba")?;
    search(rt, b"(a|b)", b"ab")?;
    search(rt, b"()", b"a")?;
    search(rt, b"a[0..2]", b"aa")?;
    search(rt, b"a[0..2]", b"aaa")?;
    search(rt, b"a[1..*]", b"aaaaaaaaaaaa")?;
    search(rt, b"((a?&b[1..5]),(c|d[1..*]))", b"bbbbbb")?;
    search(rt, b"((a?&b[1..5]),(c|d[1..*]))", b"ddaba")
}

// Document 01, the paragraph under "Rows to try".
fn limits(rt: &impl Print) -> io::Result<()> {
    read(rt, b"abcdefghabcdefghabcdefghabcdefgh")?;
    read(rt, b"abcdefghabcdefghabcdefghabcdefghi")?;
    read(rt, b"a[2..1")?;
    read(rt, b"a[2..1]")?;
    read(rt, b"(a,b|c)")?;
    read(rt, b"(a,a")
}

// Texts whose answer is easily got wrong: where a name ends, digits without end, what may follow what.
fn names_and_counts(rt: &impl Print) -> io::Result<()> {
    read(rt, b"(a,a%")?;
    read(rt, b"(ab,a")?;
    read(rt, b"abcdefghabcdefghabcdefghabcdefghi%")?;
    let long = [b'a'; 4097];
    read_as(rt, b"4096 of a", &long[0..4096])?;
    read_as(rt, b"4097 of a", &long)?;
    read_as(rt, b"nothing", b"")?;
    read(rt, b"a[60000..60000]")?;
    read(rt, b"a[60001..*]")?;
    read(rt, b"a[99999999999999999999999999..1]")?;
    read(rt, b"a[0..0]")?;
    read(rt, b"a[0..*]")?;
    read(rt, b"a[60001..2%")?;
    read(rt, b"a[0..0")?;
    read(rt, b"a[01..2]")?;
    read(rt, b"a[1.2]")?;
    read(rt, b"a[1..]")?;
    read(rt, b"a[1]")?;
    read(rt, b"a[1..*5]")
}

fn marks_and_groups(rt: &impl Print) -> io::Result<()> {
    read(rt, b"((((((((((((((((a(")?;
    read(rt, b"a??")?;
    read(rt, b"a?[1..2]")?;
    read(rt, b"()?")?;
    read(rt, b"(a)?")?;
    read(rt, b"(a?)?")?;
    read(rt, b"a,b")?;
    read(rt, b"a)")?;
    read(rt, b"()a")?;
    read(rt, b"(a,)")?;
    read(rt, b"(,a)")?;
    read(rt, b"a-")
}

// Document 02, W7: at least one of these. Rows, first faults, and which of 11, 17 and 18 is met.
fn at_least_one(rt: &impl Print) -> io::Result<()> {
    run(rt, b"(a?&b?)!", b"")?;
    run(rt, b"(a?&b?)!", b"ba")?;
    run(rt, b"((a?,b?)!|c)?", b"")?;
    run(rt, b"((a?,b?)!&c)", b"c")?;
    run(rt, b"((a?,b?)!&c)", b"cb")?;
    run(rt, b"a[0..2]!", b"")?;
    run(rt, b"((()|a)!,b)", b"b")?;
    search(rt, b"((a?,b?)!,c)", b"c")?;
    search(rt, b"((a?,b?)!,c)", b"cbb")?;
    read(rt, b"a!")?;
    read(rt, b"a?!")?;
    read(rt, b"a!?")?;
    read(rt, b"a!!")?;
    read(rt, b"()!")?;
    read(rt, b"()?!")?;
    read(rt, b"(()|())!")?;
    read(rt, b"(()|a?)!")?;
    read(rt, b"((()!),a,a)")?;
    read(rt, b"(a,a,()!)")?;
    read(rt, b"(a,b)![1..2]")
}

// Writes the byte if the text is read.
fn tell_read(rt: &impl Print, text: &[u8], b: u8) -> io::Result<()> {
    if read_model(text).outcome.is_ok() {
        rt.write_all(&[b])?;
    }
    Ok(())
}

// Writes each byte that is read between `a` and `a`; where `from` is 1, before `a` alone.
fn tell_bytes(rt: &impl Print, from: usize) -> io::Result<()>
    requires { from ≤ 1 }
{
    for b in 0..=u8::MAX {
        tell_read(rt, &[b'a', b, b'a'][from..], b)?;
    }
    Ok(())
}

// Document 02, W5: bytes of names, those beside them, and names that differ in case.
fn bytes_of_names(rt: &impl Print) -> io::Result<()> {
    print!(rt; "begins a name\t")?;
    tell_bytes(rt, 1)?;
    print!(rt; "\ngoes on in it\t")?;
    tell_bytes(rt, 0)?;
    println!(rt; "")?;
    read(rt, b"9a")?;
    read(rt, b"(_,.a)")?;
    read(rt, b"a/b")?;
    read(rt, b"lx:go;")?;
    read(rt, b"Fade@")?;
    read(rt, b"Fade_In^")?;
    read(rt, b"(A,`)")?;
    read(rt, b"a..b[1..2]")?;
    read(rt, b"a..b[1..2]..")?;
    read(rt, b"(A,a)")?;
    read(rt, b"(A,A)")?;
    run(rt, b"(A,a)", b"Aa")?;
    run(rt, b"(A,a)", b"aA")?;
    search(rt, b"(A,b)", b"AB")
}

// No text that is put together is longer.
const ROOM: usize = 512;

// A text that is put together.
#[derive(Drop)]
struct Text {
    bytes: [u8; ROOM],
    len: usize,
    ghost in_room: { len ≤ 512 },
}

impl Text {
    fn new() -> Text {
        Text {
            bytes: [0; ROOM],
            len: 0,
        }
    }

    fn as_bytes(&self) -> &[u8] {
        &self.bytes[..self.len]
    }

    // Puts bytes at the end, as far as there is room.
    fn put(&mut self, bytes: &[u8]) {
        let count = bytes.len().min(ROOM - self.len);
        let end = self.len + count;
        self.bytes[self.len..end].copy_from_slice(&bytes[..count]);
        self.len = end;
    }

    fn put_times(&mut self, bytes: &[u8], count: usize) {
        for _ in 0..count {
            self.put(bytes);
        }
    }

    // Opens so many groups inside each other, with a name each, a to z, and two signs by turns.
    fn open_groups(&mut self, count: u8, signs: &[u8; 2])
        requires { count ≤ 26 }
    {
        for i in 0..count {
            self.put(&[b'(', b'a' + i, signs[usize::from(i % 2)]]);
        }
    }
}

// A group of 64 names, aa to ah, ba to hh, and these bytes behind it.
fn read_names(rt: &impl Print, shown: &[u8], behind: &[u8]) -> io::Result<()> {
    let mut text = Text::new();
    text.put(b"(aa");
    for i in 1..64u8 {
        text.put(&[b',', b'a' + i / 8, b'a' + i % 8]);
    }
    text.put(behind);
    read_as(rt, shown, text.as_bytes())
}

// A group of so many empty ones, each with a comma, so many brackets more, and these bytes.
fn read_groups(
    rt: &impl Print,
    shown: &[u8],
    count: usize,
    brackets: usize,
    behind: &[u8],
) -> io::Result<()> {
    let mut text = Text::new();
    text.put(b"(");
    text.put_times(b"(),", count);
    text.put_times(b"(", brackets);
    text.put(behind);
    read_as(rt, shown, text.as_bytes())
}

// Both sides of the limits on atoms and nodes, and which refusal comes first.
fn atoms_and_nodes(rt: &impl Print) -> io::Result<()> {
    read_names(rt, b"64 names", b")")?;
    read_names(rt, b"65 names", b",ii)")?;
    read_names(rt, b"65 names, the last a repeat", b",aa)")?;
    read_names(
        rt,
        b"65 names, the last of 33 characters",
        b",aaaaaaaaaaaaaaaaaaaaaaaaaaaaaaaaa)",
    )?;
    read_groups(rt, b"128 nodes", 126, 0, b"())")?;
    read_groups(rt, b"129 nodes", 127, 0, b"())")?;
    read_groups(rt, b"129 nodes, the last a 65th open bracket", 64, 64, b"")
}

// So many brackets round the letter, each closed by these bytes.
fn read_brackets(rt: &impl Print, shown: &[u8], brackets: usize, close: &[u8]) -> io::Result<()> {
    let mut text = Text::new();
    text.put_times(b"(", brackets);
    text.put(b"a");
    text.put_times(close, brackets);
    read_as(rt, shown, text.as_bytes())
}

// Document 02, W3: brackets open at once.
fn brackets(rt: &impl Print) -> io::Result<()> {
    read(rt, b"((((a))))")?;
    read_brackets(rt, b"64 brackets", 64, b")")?;
    read_brackets(rt, b"65 brackets", 65, b")")?;
    read_brackets(rt, b"65 brackets, marked", 65, b")?")
}

// Groups inside each other, with a name each and two signs by turns, in so many brackets more.
fn read_turns(
    rt: &impl Print,
    shown: &[u8],
    groups: u8,
    inside: &[u8],
    brackets: usize,
) -> io::Result<()>
    requires { groups ≤ 26 }
{
    let mut text = Text::new();
    text.put_times(b"(", brackets);
    text.open_groups(groups, b",|");
    text.put(inside);
    text.put_times(b")", usize::from(groups));
    text.put_times(b")", brackets);
    read_as(rt, shown, text.as_bytes())
}

// The same with one sign, and what closes each.
fn read_joined(
    rt: &impl Print,
    shown: &[u8],
    groups: u8,
    inside: &[u8],
    close: &[u8],
) -> io::Result<()>
    requires { groups ≤ 26 }
{
    let mut text = Text::new();
    text.open_groups(groups, b"&&");
    text.put(inside);
    text.put_times(close, usize::from(groups));
    read_as(rt, shown, text.as_bytes())
}

// Document 02, W3: depth. Signs by turns keep each group, brackets around them change nothing; one sign joins its groups, but for those with a mark, of
// their own or from `()`.
fn depths(rt: &impl Print) -> io::Result<()> {
    read_turns(rt, b"16 signs by turns", 16, b"x", 0)?;
    read_turns(rt, b"17 signs by turns", 17, b"x", 0)?;
    read_turns(rt, b"17 signs by turns, a name twice", 17, b"a", 0)?;
    read_turns(rt, b"17 signs by turns, a bracket left open", 17, b"(x", 0)?;
    read_turns(rt, b"17 signs by turns round ()", 17, b"((),()?)", 0)?;
    read_turns(rt, b"16 signs by turns in 64 brackets", 16, b"x", 48)?;
    read_turns(rt, b"17 signs by turns in 64 brackets", 17, b"x", 47)?;
    read_joined(rt, b"26 of one sign", 26, b"()", b")")?;
    read_joined(rt, b"16 of one sign, marked", 16, b"x", b")?")?;
    read_joined(rt, b"17 of one sign, marked", 17, b"x", b")?")?;
    read_joined(rt, b"16 of one sign, with !", 16, b"x", b")!")?;
    read_joined(rt, b"17 of one sign, with !", 17, b"x", b")!")?;
    read_turns(
        rt,
        b"15 signs by turns round ((x|y)|z)",
        15,
        b"((x|y)|z)",
        0,
    )?;
    read_turns(
        rt,
        b"15 signs by turns round ((x|y|())|z)",
        15,
        b"((x|y|())|z)",
        0,
    )
}

fn main(rt: HostRuntime) -> io::Result<()> {
    rows_to_try(&rt)?;
    examples(&rt)?;
    first_faults(&rt)?;
    limits(&rt)?;
    names_and_counts(&rt)?;
    marks_and_groups(&rt)?;
    at_least_one(&rt)?;
    bytes_of_names(&rt)?;
    atoms_and_nodes(&rt)?;
    brackets(&rt)?;
    depths(&rt)
}
