// Runs the library on texts that are refused, each refusal once, and on empty ones: a line for each, with what is tried and the answer. A listing's
// refusal is told by its line; `child` by the part that it hands back and the number of `child_refusal`.
#![tactic(auto)]

use desk::child::{child, child_refusal};
use fields::limits::MAX_FILE;
use lister::listing::list;
use lister::refusal::listed_refusal;
use sheet::refusal::{REFUSAL_SIZE, Refusal, Source, refusal_line};
use std::io;

const BUFFER: usize = 64;

const CHILDREN: usize = 4097;

fn refusal(source: Source, number: u32, line: usize) -> Refusal {
    Refusal {
        source,
        number,
        line,
    }
}

fn write_refusal(rt: &impl Print, refusal: Refusal) -> io::Result<()> {
    let mut buffer = [0u8; REFUSAL_SIZE];
    let n = refusal_line(refusal, &mut buffer);
    rt.write_all(&buffer[..n])
}

fn answer(
    rt: &impl Print,
    what: &[u8],
    sheet: &[u8],
    cues: &[u8],
    buffer: &mut [u8],
) -> io::Result<()> {
    rt.write_all(what)?;
    rt.write_all(b"\t")?;
    let listed = list(sheet, cues, buffer);
    match listed {
        Ok(n) => println!(rt; "written\t{n}"),
        Err(_) => write_refusal(rt, listed_refusal(listed)),
    }
}

fn tell(rt: &impl Print, what: &[u8], sheet: &[u8], cues: &[u8]) -> io::Result<()> {
    let mut buffer = [0u8; BUFFER];
    answer(rt, what, sheet, cues, &mut buffer)
}

// With an empty list.
fn tell_sheet(rt: &impl Print, what: &[u8], sheet: &[u8]) -> io::Result<()> {
    tell(rt, what, sheet, b"")
}

// With a good sheet.
fn tell_list(rt: &impl Print, what: &[u8], cues: &[u8]) -> io::Result<()> {
    tell(rt, what, b"rule\ta\tb\n", cues)
}

// A buffer of one byte less than the listing has, and one that it just fits: of a cue, and of none.
fn tell_short(rt: &impl Print) -> io::Result<()> {
    let mut less = [0u8; 30];
    answer(rt, b"50", b"rule\ta\tb\n", b"cue\t1\ta\tb\n", &mut less)?;
    let mut just = [0u8; 31];
    answer(rt, b"fits", b"rule\ta\tb\n", b"cue\t1\ta\tb\n", &mut just)?;
    let mut less_of_none = [0u8; 15];
    answer(rt, b"50 no cues", b"", b"", &mut less_of_none)?;
    let mut just_none = [0u8; 16];
    answer(rt, b"fits no cues", b"", b"", &mut just_none)
}

// The program's own, and the longest line that there can be.
fn tell_others(rt: &impl Print) -> io::Result<()> {
    rt.write_all(b"60 sheet\t")?;
    write_refusal(rt, refusal(Source::Sheet, 60, 0))?;
    rt.write_all(b"60 cues\t")?;
    write_refusal(rt, refusal(Source::Cues, 60, 0))?;
    rt.write_all(b"longest\t")?;
    write_refusal(rt, refusal(Source::Listing, u32::MAX, usize::MAX))
}

fn tell_child<'a>(
    rt: &impl Print,
    what: &[u8],
    model: &'a [u8],
    children: &'a [u8],
    k: usize,
) -> io::Result<()> {
    rt.write_all(b"child\t")?;
    rt.write_all(what)?;
    rt.write_all(b"\t")?;
    rt.write_all(child(model, children, k))?;
    let number = child_refusal(model, children, k);
    println!(rt; "\t{number}")
}

// 65,536 bytes, one more than a file may have.
fn tell_long(rt: &impl Print) -> io::Result<()> {
    let text = [0u8; MAX_FILE + 1];
    tell(rt, b"20", &text, b"")?;
    tell(rt, b"30", b"", &text)?;
    tell_child(rt, b"30", b"a", &text, 1)
}

// A cue with more children than it may have.
fn many() -> [u8; 2 * CHILDREN + 8] {
    let mut cues = [b'b'; 2 * CHILDREN + 8];
    cues[..6].copy_from_slice(b"cue\t1\t");
    for child in cues[6..].chunks_exact_mut(2) {
        child[1] = b'\t';
    }
    cues[2 * CHILDREN + 7] = b'\n';
    cues
}

// The cue as a list, and its children by themselves.
fn tell_cue(rt: &impl Print, what: &[u8], cues: &[u8]) -> io::Result<()> {
    tell(rt, what, b"", cues)?;
    if cues.len() > 8 {
        tell_child(rt, what, b"b", &cues[8..cues.len() - 1], 1)?;
    }
    Ok(())
}

// All of them good, and then with a bad one at the end.
fn tell_many(rt: &impl Print) -> io::Result<()> {
    let mut cues = many();
    tell_cue(rt, b"36", &cues)?;
    cues[2 * CHILDREN + 6] = b'9';
    tell_cue(rt, b"35 before 36", &cues)
}

fn tell_sheets(rt: &impl Print) -> io::Result<()> {
    tell(rt, b"empty sheet", b"", b"cue\t1\ta\tb\n")?;
    tell_sheet(rt, b"empty list", b"rule\ta\tb\n")?;
    tell_sheet(rt, b"both empty", b"")?;
    tell_sheet(rt, b"21", b"rule\ta\tb")?;
    tell_sheet(
        rt,
        b"22",
        b"rule\taa\tb\nrule\tab\tb\nrule\tac\tb\nrule\tad\tb\nrule\tae\tb\nrule\taf\tb\nrule\tag\tb\nrule\tah\tb\nrule\tai\tb\n\
         rule\taj\tb\nrule\tak\tb\nrule\tal\tb\nrule\tam\tb\nrule\tan\tb\nrule\tao\tb\nrule\tap\tb\nrule\taq\tb\nrule\tar\tb\n\
         rule\tas\tb\nrule\tat\tb\nrule\tau\tb\nrule\tav\tb\nrule\taw\tb\nrule\tax\tb\nrule\tay\tb\nrule\taz\tb\nrule\tba\tb\n\
         rule\tbb\tb\nrule\tbc\tb\nrule\tbd\tb\nrule\tbe\tb\nrule\tbf\tb\nrule\tbg\tb\nrule\tbh\tb\nrule\tbi\tb\nrule\tbj\tb\n\
         rule\tbk\tb\nrule\tbl\tb\nrule\tbm\tb\nrule\tbn\tb\nrule\tbo\tb\nrule\tbp\tb\nrule\tbq\tb\nrule\tbr\tb\nrule\tbs\tb\n\
         rule\tbt\tb\nrule\tbu\tb\nrule\tbv\tb\nrule\tbw\tb\nrule\tbx\tb\nrule\tby\tb\nrule\tbz\tb\nrule\tca\tb\nrule\tcb\tb\n\
         rule\tcc\tb\nrule\tcd\tb\nrule\tce\tb\nrule\tcf\tb\nrule\tcg\tb\nrule\tch\tb\nrule\tci\tb\nrule\tcj\tb\nrule\tck\tb\n\
         rule\tcl\tb\nrule\tcm\tb\n",
    )?;
    tell_sheet(rt, b"23", b"rule\ta\n")?;
    tell_sheet(rt, b"23 line 2", b"rule\ta\tb\n\n")?;
    tell_sheet(rt, b"24", b"rule\t9\tb\n")?;
    tell_sheet(rt, b"25", b"rule\ta\tb\nrule\ta\tb\n")?;
    tell_sheet(rt, b"kinds by case", b"rule\ta\tb\nrule\tA\tb\n")?;
    tell_sheet(rt, b"11 line 2", b"rule\ta\tb\nrule\tb\t(\n")?;
    tell(rt, b"sheet first", b"rule\ta\n", b"cue\n")
}

// Each of these bytes behind `a`, as the kind of a rule and as the kind and the child of a cue.
fn tell_bytes(rt: &impl Print, bytes: &[u8]) -> io::Result<()> {
    let mut sheet = *b"rule\ta_\tb\n";
    let mut kind = *b"cue\t1\ta_\n";
    let mut child = *b"cue\t1\ta\ta_\n";
    for &b in bytes {
        sheet[6] = b;
        kind[7] = b;
        child[9] = b;
        tell_sheet(rt, &[b], &sheet)?;
        tell_list(rt, &[b], &kind)?;
        tell_list(rt, &[b], &child)?;
    }
    Ok(())
}

// A sheet of one line with the kind `a`, and its model by itself.
fn tell_model(rt: &impl Print, what: &[u8], sheet: &[u8]) -> io::Result<()> {
    tell_sheet(rt, what, sheet)?;
    if sheet.len() > 7 {
        tell_child(rt, what, &sheet[7..sheet.len() - 1], b"b", 1)?;
    }
    Ok(())
}

fn tell_models(rt: &impl Print) -> io::Result<()> {
    tell_model(rt, b"10", b"rule\ta\t\n")?;
    tell_model(rt, b"11", b"rule\ta\t(b\n")?;
    tell_model(rt, b"12", b"rule\ta\taaaaaaaaaaaaaaaaaaaaaaaaaaaaaaaaa\n")?;
    tell_model(rt, b"13", b"rule\ta\tb[2..1]\n")?;
    tell_model(
        rt,
        b"14",
        b"rule\ta\t(ba,(bb|(bc,(bd|(be,(bf|(bg,(bh|(bi,(bj|(bk,(bl|(bm,(bn|(bo,(bp|(bq,b)))))))))))))))))\n",
    )?;
    tell_model(
        rt,
        b"15",
        b"rule\ta\t(aa,ab,ac,ad,ae,af,ag,ah,ai,aj,ak,al,am,an,ao,ap,aq,ar,as,at,au,av,aw,ax,ay,az,ba,bb,bc,bd,be,bf,bg,bh,bi,bj,\
         bk,bl,bm,bn,bo,bp,bq,br,bs,bt,bu,bv,bw,bx,by,bz,ca,cb,cc,cd,ce,cf,cg,ch,ci,cj,ck,cl,cm)\n",
    )?;
    tell_model(
        rt,
        b"16",
        b"rule\ta\t((),(),(),(),(),(),(),(),(),(),(),(),(),(),(),(),(),(),(),(),(),(),(),(),(),(),(),(),(),(),(),(),(),(),(),(),\
         (),(),(),(),(),(),(),(),(),(),(),(),(),(),(),(),(),(),(),(),(),(),(),(),(),(),(),(),(),(),(),(),(),(),(),(),(),(),(),(),\
         (),(),(),(),(),(),(),(),(),(),(),(),(),(),(),(),(),(),(),(),(),(),(),(),(),(),(),(),(),(),(),(),(),(),(),(),(),(),(),(),\
         (),(),(),(),(),(),(),(),(),(),(),())\n",
    )?;
    tell_model(rt, b"17", b"rule\ta\t(b,b)\n")?;
    tell_model(rt, b"18", b"rule\ta\t(b,(()|())!)\n")?;
    tell_model(
        rt,
        b"19",
        b"rule\ta\t(((((((((((((((((((((((((((((((((((((((((((((((((((((((((((((((((\n",
    )
}

fn tell_lists(rt: &impl Print) -> io::Result<()> {
    tell_list(rt, b"31", b"cue\t1\ta")?;
    tell_list(rt, b"32", b"cue\t1\n")?;
    tell_list(rt, b"33", b"cue\t01\ta\n")?;
    tell_list(rt, b"34", b"cue\t2\ta\ncue\t2\ta\n")?;
    tell_list(rt, b"35 kind", b"cue\t1\t.a\n")?;
    tell_list(rt, b"35 child", b"cue\t1\ta\tb\t\n")
}

// A child of this model.
fn tell_hold(rt: &impl Print, what: &[u8], children: &[u8], k: usize) -> io::Result<()> {
    tell_child(rt, what, b"(axis,hold[0..2])", children, k)
}

fn tell_children(rt: &impl Print) -> io::Result<()> {
    tell_hold(rt, b"named", b"hold\tcrawl\taxis", 1)?;
    tell_hold(rt, b"foreign", b"hold\tcrawl\taxis", 2)?;
    tell_hold(rt, b"last", b"hold\tcrawl\taxis", 3)?;
    tell_hold(rt, b"37 at 0", b"hold\tcrawl\taxis", 0)?;
    tell_hold(rt, b"37 past", b"hold\tcrawl\taxis", 4)?;
    tell_hold(rt, b"37 none", b"", 1)?;
    tell_hold(rt, b"35", b"axis\t:axis", 1)?;
    tell_hold(rt, b"foreign by case", b"axis\tAxis", 2)?;
    tell_hold(rt, b"35 before 37", b"axis\t", 3)?;
    tell_child(rt, b"10 before 35", b"", b"9", 1)
}

fn main(rt: HostRuntime) -> io::Result<()> {
    tell_sheets(&rt)?;
    tell_bytes(&rt, b",-./09:;@AZ[^_`az{")?;
    tell_models(&rt)?;
    tell_lists(&rt)?;
    tell_short(&rt)?;
    tell_long(&rt)?;
    tell_many(&rt)?;
    tell_others(&rt)?;
    tell_children(&rt)
}
