// Comparisons, counted and named.
ghost use Rattle.std.specs.Prelude.{◌≡◌, Bool, is_none};
ghost use Rattle.trial_kit.specs.Tallies.{more, counted, added, next_case, noted, told};

use std::{fmt, io};

// How many comparisons were tried, and how many of them were wrong. Each count keeps 32 bits.
#[derive(Clone, Copy, Debug, Default, PartialEq, Eq)]
pub struct Score {
    pub tried: u32,
    pub wrong: u32,
}

impl Score {
    fn count(&mut self, right: bool)
        ensures { self.new ≡ counted right self.old }
    {
        self.tried = self.tried.wrapping_add(1);
        if !right {
            self.wrong = self.wrong.wrapping_add(1);
        }
    }

    fn add(&mut self, other: Score)
        ensures { self.new ≡ added self.old other }
    {
        self.tried = self.tried.wrapping_add(other.tried);
        self.wrong = self.wrong.wrapping_add(other.wrong);
    }
}

impl fmt::Display for Score {
    fn fmt<W: fmt::Write>(&self, f: &mut fmt::Formatter<W>) -> fmt::Result {
        let tried = self.tried;
        let wrong = self.wrong;
        write!(f, "tried {tried}, wrong {wrong}")
    }
}

// The case at hand, the comparisons of the group at hand, and those of the groups before it.
#[derive(Clone, Copy, Debug, Default, PartialEq, Eq)]
pub struct Tally {
    pub case: u32,
    pub group: Score,
    pub all: Score,
}

impl Tally {
    pub fn next_case(&mut self)
        ensures { self.new ≡ next_case self.old }
    {
        self.case = self.case.wrapping_add(1);
    }

    // One comparison. What is wrong is named by a letter, with the case: by no enum, as it is only printed, and each trial has its own. It is counted even
    // where it can't be printed.
    pub fn note(&mut self, rt: &impl Print, fault: Option<char>) -> io::Result<()>
        ensures { self.new ≡ noted (is_none fault) self.old }
    {
        self.group.count(fault.is_none());
        match fault {
            Some(what) => {
                let case = self.case;
                print!(rt; " [case {case}: {what}]")
            }
            None => Ok(()),
        }
    }

    // One comparison, which is right or else wrong by this letter.
    pub fn check(&mut self, rt: &impl Print, what: char, right: bool) -> io::Result<()>
        ensures { self.new ≡ noted right self.old }
    {
        self.note(rt, (!right).then_some(what))
    }

    // A group is over: what it came to is printed and added to that of all, even where it can't be printed.
    pub fn tell(&mut self, rt: &impl Print) -> io::Result<()>
        ensures { self.new ≡ told self.old }
    {
        let group = self.group;
        self.all.add(group);
        self.group = Score::default();
        println!(rt; ": {group}")
    }
}
