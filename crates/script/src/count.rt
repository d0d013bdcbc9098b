// Counting the answers of a script, by their kind.
// The counts: src/tally.rt. What one more answer does to them: specs/Outcomes.antt.
ghost use Rattle.std.specs.Prelude.{◌≡◌, ◌+◌};
ghost use Rattle.script.specs.Outcomes.{Counted};

use crate::answer::Answer;
use crate::tally::Tally;

impl Tally {
    // No call yet.
    pub fn new() -> Tally
        ensures { (result.ok ≡ 0) × (result.refused ≡ 0) × (result.wrong ≡ 0) }
    {
        Tally {
            ok: 0,
            refused: 0,
            wrong: 0,
        }
    }

    // How many calls there were.
    pub fn calls(self) -> u64
        ensures { result ≡ self.ok + self.refused + self.wrong }
    {
        self.ok + self.refused + self.wrong
    }

    // One more call with this answer; none where the count is at the end of its numbers.
    pub fn count(self, answer: Answer<'_>) -> Option<Tally>
        ensures { Counted self answer.entry result }
    {
        if self.calls() == u64::MAX {
            return None;
        }
        // Each field named: `..self` is refused for a struct with a ghost field.
        let Tally { ok, refused, wrong } = self;
        Some(match answer {
            Answer::Heard(_, _) | Answer::Kept | Answer::Viewed(_) => Tally {
                ok: ok + 1,
                refused,
                wrong,
            },
            Answer::Refused(_) => Tally {
                ok,
                refused: refused + 1,
                wrong,
            },
            Answer::Wrong(_) => Tally {
                ok,
                refused,
                wrong: wrong + 1,
            },
        })
    }
}
