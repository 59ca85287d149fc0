// Plays lists of calls on sessions. A line for each call has the call, its answer, the places of the row that it was lent for names, if it was, and those
// of the trail; the file stdout has what the book of documents 01 and 02 says.
#![tactic(auto)]

ghost use Rattle.std.specs.Prelude.{◌≤◌};

use judge::fault::{JudgeFault, judge_number};
use judge::reading::read_model;
use model::rule::{Mark, NameNumber, Rule};
use model::verdict::Verdict;
use sessions::session::{FREE, Session, Step};
use std::io;

fn show_verdict(rt: &impl Print, answer: Result<Verdict, JudgeFault>) -> io::Result<()> {
    match answer {
        Ok(Verdict::Complete) => print!(rt; "complete"),
        Ok(Verdict::Open) => print!(rt; "open"),
        Ok(Verdict::Dead) => print!(rt; "dead"),
        Err(fault) => rt.print(judge_number(fault)),
    }
}

// A free place is a full stop.
fn show_places(rt: &impl Print, places: &[u16]) -> io::Result<()> {
    print!(rt; "\t")?;
    for &place in places {
        if place == FREE {
            print!(rt; " .")?;
        } else {
            print!(rt; " {place}")?;
        }
    }
    Ok(())
}

fn show_next(rt: &impl Print, answer: Result<usize, JudgeFault>) -> io::Result<()> {
    match answer {
        Ok(count) => print!(rt; "lists {count}"),
        Err(fault) => rt.print(judge_number(fault)),
    }
}

// Shows the answer, and hands back the session.
fn stepped(rt: &impl Print, step: Step) -> io::Result<Session> {
    match step.outcome {
        Ok(()) => print!(rt; "done")?,
        Err(fault) => rt.print(judge_number(fault))?,
    }
    Ok(step.session)
}

fn rule_of(model: &[u8]) -> Rule {
    read_model(model).rule
}

// A group of two members, of which one is cut off: no model text reads into it.
fn damaged_rule() -> Rule {
    Rule {
        len: 2,
        ..rule_of(b"(a|b)")
    }
}

// `()!`: refused as a model text, so none reads into this rule either.
fn atomless_rule() -> Rule {
    let mut rule = rule_of(b"()");
    rule.nodes[0].mark = Mark::Nonempty;
    rule
}

// The row for the names has up to five places, which hold 7s.
fn looked_ahead(
    rt: &impl Print,
    session: Session,
    places: usize,
    trail: &[u16],
) -> io::Result<Session>
    requires { places ≤ 5 }
{
    let mut row = [7u16; 5];
    let lent = &mut row[..places];
    show_next(rt, session.next(trail, lent))?;
    show_places(rt, lent)?;
    Ok(session)
}

// Writes the last place of the trail, as no call does.
fn scribble(place: u16, trail: &mut [u16]) {
    if let Some(last) = trail.last_mut() {
        *last = place;
    }
}

fn digit(byte: u8) -> u16 {
    u16::from(byte.saturating_sub(b'0'))
}

// One byte is one call: m, p, o, d and e open, a digit is added, < takes back, ? asks, > looks ahead with five places lent for names, ^ with one and _ with
// none. Between calls # damages the last place of the trail, = mends it, and x damages the session's rule.
fn answered(rt: &impl Print, session: Session, call: u8, trail: &mut [u16]) -> io::Result<Session> {
    match call {
        b'm' => {
            let rule = rule_of(b"(axis,target,(crawl&gather)?,hold[0..2])");
            stepped(rt, session.open(rule, trail))
        }
        b'p' => stepped(rt, session.open(rule_of(b"(a[2..3],b)"), trail)),
        b'o' => stepped(rt, session.open(rule_of(b"(a?,b?)!"), trail)),
        b'd' => stepped(rt, session.open(damaged_rule(), trail)),
        b'e' => stepped(rt, session.open(atomless_rule(), trail)),
        b'<' => stepped(rt, session.take_back(trail)),
        b'?' => {
            show_verdict(rt, session.verdict(trail))?;
            Ok(session)
        }
        b'>' => looked_ahead(rt, session, 5, trail),
        b'^' => looked_ahead(rt, session, 1, trail),
        b'_' => looked_ahead(rt, session, 0, trail),
        b'#' => {
            scribble(7, trail);
            Ok(session)
        }
        b'=' => {
            scribble(FREE, trail);
            Ok(session)
        }
        b'x' => Ok(Session {
            rule: damaged_rule(),
            ..session
        }),
        _ => stepped(rt, session.add(NameNumber(digit(call)), trail)),
    }
}

// Each call gets the session that the last one handed back, the first a session that no opening left.
fn play(rt: &impl Print, calls: &[u8], trail: &mut [u16]) -> io::Result<()> {
    let mut session = Session {
        rule: damaged_rule(),
        children: 3,
    };
    for &call in calls {
        rt.write_all(&[call, b'\t'])?;
        session = answered(rt, session, call, trail)?;
        show_places(rt, trail)?;
        println!(rt; "")?;
    }
    println!(rt; "")
}

// A session and a trail as 4,096 additions leave them, in a trail longer than that: a verdict, the names that may come next, one more, a name above the
// rule's, taking back while a place past the room is damaged, and after it is mended.
fn play_full(rt: &impl Print) -> io::Result<()> {
    let mut trail = [1u16; 4100];
    trail[4096..].fill(FREE);
    let mut session = Session {
        rule: rule_of(b"a[60000..60000]"),
        children: 4096,
    };
    for calls in ["?", ">", "1", "2", "#<", "=<"] {
        for &call in calls.as_bytes() {
            session = answered(rt, session, call, &mut trail)?;
        }
        print!(rt; "\t")?;
    }
    println!(rt; "{}", session.children)
}

fn main(rt: HostRuntime) -> io::Result<()> {
    let mut trail = [7u16; 5];
    play(&rt, b"?1<m?1?2?3?4?5?59<?0?<?6<<<<<?2?1?<<d?", &mut trail)?;
    play(&rt, b"m1#?1<d=?p?1?2?<1?2?3x?1<m?", &mut trail)?;
    play(&rt, b">m>^_1>2>^3>4>_5>5<<<>5>5>_0>_", &mut trail)?;
    play(&rt, b"m2>_<1#>_=>x>_#>=d>", &mut trail)?;
    play(&rt, b"p>1>1>^1>2>_<<<2>", &mut trail)?;
    play(&rt, b"oe?>2?><1?>", &mut trail)?;
    play(&rt, b"m?>_1<", &mut trail[0..0])?;
    play_full(&rt)
}
