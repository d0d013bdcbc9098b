// The views of a row, one after another: view 1, and the change that led to each later view, 64 views at most.
// Rule: docs/RULES.md, "Views, shares and ranks". Words of the contracts: specs/Histories.antt.
ghost use Rattle.std.specs.Prelude.{◌≡◌, ◌≤◌};
ghost use Rattle.views.specs.Histories.{members_of, Led, begun, Sound, Defines};

use crate::view::{View, turned};
use boards::Set;
use codes::Refusal;

// The last view that a row can define.
pub const LAST: u8 = 64;

// The changes stand in an array with their number beside it, since the library allocates nothing: a row has room for all its views.
#[derive(Clone, Copy)]
pub struct History {
    pub first: Set,
    pub changes: [u8; LAST as usize],
    pub latest: u8,
}

#[derive(Clone, Copy)]
pub struct Views {
    pub history: History,
    ghost sound: { Sound history },
}

impl Views {
    // The views of a row that has defined view 1.
    #[tactic(auto, using(crate::proofs::Histories::begun_sound), unfolding(crate::specs::Histories::begun))]
    pub fn new(first: View) -> Views
        ensures { result.history ≡ begun first.set }
    {
        Views {
            history: History {
                first: first.set(),
                changes: [0; LAST as usize],
                latest: 1,
            },
        }
    }

    // The number of the latest view, 1 to 64.
    pub fn latest(&self) -> u8
        ensures is { result ≡ self.now.history.latest }
        ensures some { 1 ≤ result }
        ensures few { result ≤ 64 }
    {
        self.history.latest
    }

    // The members of the v-th view; no boards unless v is 1 to the latest, since by the rules the answer is a set.
    // Places are cast by `as` in this file, not `usize::from`, which the proof of the recursion does not see through (tried).
    // It calls itself for the view before: by the rules of the project a view is told by the one before it and their change.
    pub fn members(&self, v: u8) -> Set
        ensures { result.bits ≡ members_of self.now.history v }
    {
        if v < 1 || v > self.history.latest {
            return Set::EMPTY;
        }
        if v == 1 {
            return self.history.first;
        }
        turned(self.members(v - 1), self.history.changes[v as usize - 1])
    }

    // The latest view.
    pub fn current(&self) -> View
        ensures { result.set.bits ≡ members_of self.now.history self.now.history.latest }
    {
        View::of(self.members(self.history.latest))
    }

    // The change that led from view v to the next; none unless both are defined.
    pub fn change(&self, v: u8) -> Option<u8>
        ensures { Led self.now.history v result }
    {
        if v < 1 || v >= self.latest() {
            return None;
        }
        Some(self.history.changes[v as usize])
    }

    // Defines the next view by change c.
    // BOARD for a number above 7; CHANGE at view 64, or if c is the only member. A refusal changes nothing.
    #[tactic(auto, using(crate::proofs::Histories::grown_sound, crate::proofs::Histories::opens), unfolding(crate::specs::Histories::grown))]
    pub fn define(&mut self, c: u8) -> Result<(), Refusal>
        ensures { Defines self.old.history c result self.new.history }
    {
        self.current().changed(c)?;
        let latest = self.history.latest;
        if latest == LAST {
            return Err(Refusal::Change);
        }
        self.history.changes[latest as usize] = c;
        self.history.latest = latest + 1;
        Ok(())
    }
}
