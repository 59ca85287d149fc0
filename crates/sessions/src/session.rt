// Sessions: a rule and how many children there are. The children stand in a trail that the caller lends, one place each.

ghost use Rattle.std.specs.Prelude.{◌≡◌, true, length, take, MatchResult};
ghost use Rattle.model.specs.Rule.{names};
ghost use Rattle.judge.specs.Next.{HandsNext};
ghost use Rattle.sessions.specs.Book.{opening, adding, taking_back, room};
ghost use Rattle.sessions.specs.Session.{all_free, intact, checked, outcome, Does, Gives, next_asked};

use fields::limits::MAX_ROW;
use judge::fault::JudgeFault;
use judge::next::next_names;
use judge::row::{all_named, judge_row};
use model::check::is_readable;
use model::nodes::names;
use model::rule::{NameNumber, Rule};
use model::verdict::Verdict;

// What a free place holds.
pub const FREE: u16 = 65535;

#[derive(Clone, Copy)]
pub struct Session {
    pub rule: Rule,
    pub children: usize,
}

// The trail's length, or 4,096 if that is less.
fn room_in(places: usize) -> usize
    ensures { result ≡ room places }
{
    places.min(MAX_ROW)
}

// Without a branch the loop is compiled to vectors: a trail may have many more places than children.
fn all_free(places: &[u16]) -> bool
    ensures { result ≡ all_free places.now }
{
    let mut free = true;
    for &place in places {
        free = free & (place == FREE);
    }
    free
}

// The session as it then stands, and what the call was answered. Refused, the session and the trail stay as they were.
#[derive(Clone, Copy)]
pub struct Step {
    pub session: Session,
    pub outcome: Result<(), JudgeFault>,
}

impl Session {
    // Whether the trail is as this session leaves it: not so is 42.
    #[tactic(auto, unfolding(crate::specs::Session::intact))]
    fn is_intact(&self, trail: &[u16]) -> bool
        ensures { result ≡ intact self.now.children (names self.now.rule) trail.now }
    {
        self.children <= room_in(trail.len())
            && all_named(names(self.rule), &trail[..self.children])
            && all_free(&trail[self.children..])
    }

    // The filled places, or 42, or 40, which comes first. The rule is tested only where the trail is not intact, for the judge tests it again.
    #[tactic(auto, using(crate::proofs::SessionCode::intact_part), unfolding(crate::specs::Session::checked))]
    fn filled<'a>(&self, trail: &'a [u16]) -> Result<&'a [u16], JudgeFault>
        ensures { MatchResult result
            (λ row. (intact self.now.children (names self.now.rule) trail.now ≡ true) × (row.now ≡ take self.now.children trail.now))
            (λ fault. checked self.now trail.now ≡ Err fault) }
    {
        if self.is_intact(trail) {
            return Ok(&trail[..self.children]);
        }
        if is_readable(self.rule) {
            Err(JudgeFault::BadTrail)
        } else {
            Err(JudgeFault::Unreadable)
        }
    }

    // 40 and 42, which every call but opening tries first.
    #[tactic(auto, unfolding(crate::specs::Session::checked))]
    fn checked(&self, trail: &[u16]) -> Result<(), JudgeFault>
        ensures { result ≡ checked self.now trail.now }
    {
        if !is_readable(self.rule) {
            return Err(JudgeFault::Unreadable);
        }
        if !self.is_intact(trail) {
            return Err(JudgeFault::BadTrail);
        }
        Ok(())
    }

    // Refused with 40. Else a session of the rule with no children, and every place is free.
    #[tactic(auto, unfolding(crate::specs::Session::outcome))]
    pub fn open(self, rule: Rule, trail: &mut [u16]) -> Step
        ensures { Does (opening rule) self trail.old result trail.new }
    {
        if !is_readable(rule) {
            return Step {
                session: self,
                outcome: Err(JudgeFault::Unreadable),
            };
        }
        trail.fill(FREE);
        Step {
            session: Session { rule, children: 0 },
            outcome: Ok(()),
        }
    }

    // 40, 42, 43 and 44.
    #[tactic(auto, unfolding(crate::specs::Session::outcome))]
    fn test_add(&self, name: NameNumber, trail: &[u16]) -> Result<(), JudgeFault>
        ensures { result ≡ outcome (adding name.0) self.now trail.now }
    {
        self.checked(trail)?;
        if names(self.rule) < usize::from(name.0) {
            return Err(JudgeFault::UnknownName);
        }
        if room_in(trail.len()) <= self.children {
            return Err(JudgeFault::NoRoom);
        }
        Ok(())
    }

    // Refused with 40, 42, 43 or 44. Else the next place holds the name's number.
    #[tactic(auto, using(crate::proofs::SessionCode::added_fits))]
    pub fn add(mut self, name: NameNumber, trail: &mut [u16]) -> Step
        ensures { Does (adding name.0) self trail.old result trail.new }
    {
        let outcome = self.test_add(name, trail);
        if outcome.is_ok() {
            trail[self.children] = name.0;
            self.children += 1;
        }
        Step {
            session: self,
            outcome,
        }
    }

    // 40, 42 and 45.
    #[tactic(auto, unfolding(crate::specs::Session::outcome))]
    fn test_take_back(&self, trail: &[u16]) -> Result<(), JudgeFault>
        ensures { result ≡ outcome taking_back self.now trail.now }
    {
        self.checked(trail)?;
        if self.children == 0 {
            return Err(JudgeFault::NothingToTakeBack);
        }
        Ok(())
    }

    // Refused with 40, 42 or 45. Else the last filled place is free.
    #[tactic(auto, using(crate::proofs::SessionCode::taken_fits))]
    pub fn take_back(mut self, trail: &mut [u16]) -> Step
        ensures { Does taking_back self trail.old result trail.new }
    {
        let outcome = self.test_take_back(trail);
        if outcome.is_ok() {
            self.children -= 1;
            trail[self.children] = FREE;
        }
        Step {
            session: self,
            outcome,
        }
    }

    // Refused with 40 or 42. Else the verdict on the children by the session's rule.
    #[tactic(auto, using(crate::proofs::SessionCode::asked_filled), unfolding(crate::specs::Session::outcome))]
    pub fn verdict(self, trail: &[u16]) -> Result<Verdict, JudgeFault>
        ensures { Gives self trail.now result }
    {
        judge_row(self.rule, self.filled(trail)?)
    }

    // Refused with 40, 42 or 46. Else how many names may come next: they stand, rising, in the row's first places; its others are as they were.
    #[tactic(auto, using(crate::proofs::SessionCode::next_filled), unfolding(crate::specs::Session::outcome))]
    pub fn next(self, trail: &[u16], row: &mut [u16]) -> Result<usize, JudgeFault>
        ensures { HandsNext (next_asked self trail.now (length row.old)) result row.old row.new }
    {
        next_names(self.rule, self.filled(trail)?, row)
    }
}
