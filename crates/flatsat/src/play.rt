// Playing a script: each line is parsed, its call made, its answer added to the text with the line's number.
// What a whole script answers: specs/Plays.antt.
ghost use Rattle.std.specs.Prelude.{◌≡◌, ◌+◌, ◌^◌, ◌<◌, IfOk, option_copied};
ghost use Rattle.script.specs.Words.{body};
ghost use Rattle.flatsat.specs.Plays.{state_of, Answers, Told, LinePlayed, LinesPlayed, Played};

use crate::audit::{audit, keys};
use codes::Refusal;
use groups::views;
use reader::read::read;
use schemes::keyed::Keys;
use script::answer::{Answer, Answered, answer_line, tally_line};
use script::call::{Call, parse};
use script::hex::unhex;
use script::tally::Tally;
use script::words::next_line;
use std::alloc::{AllocError, Global};

// The text so far, the count of the answers in it, and the boards' keys once there are some.
// It is handed on by value: a line is added by `answer_line`, which takes the text and gives it back, so that an error leaves none behind.
#[derive(Drop)]
struct Page {
    text: Vec<u8>,
    tally: Tally,
    keys: Option<Keys>,
}

// What bytes are read as, audited once there are keys.
fn heard<'a>(bytes: &'a [u8], keys: Option<&Keys>) -> Answer<'a>
    ensures { Answers (option_copied keys.entry) bytes.now result }
{
    // Both at once: with a `map` over the keys the proof stays open, since the search does not see the audit behind it (tried).
    match (read(bytes), keys) {
        (Ok(message), Some(keys)) => Answer::Heard(message, Some(audit(keys, &message))),
        (Ok(message), None) => Answer::Heard(message, None),
        (Err(fault), _) => Answer::Refused(Refusal::from(fault)),
    }
}

impl Page {
    // Adds the line of one more answer.
    fn told(self, answer: Answer<'_>) -> Result<Page, AllocError>
        requires { self.tally.ok + self.tally.refused + self.tally.wrong + 1 < 2 ^ 64 }
        ensures { IfOk result (λ p. Told (state_of self) answer.entry (state_of p)) }
    {
        let Page { text, tally, keys } = self;
        let tally = tally.count(answer).unwrap();
        let text = answer_line(text, tally.calls(), answer)?;
        Ok(Page { text, tally, keys })
    }

    // Plays one line.
    fn line(self, heap: Global, line: &[u8]) -> Result<Page, AllocError>
        requires { self.tally.ok + self.tally.refused + self.tally.wrong + 1 < 2 ^ 64 }
        ensures { IfOk result (λ p. LinePlayed (body line.now) (state_of self) (state_of p)) }
    {
        match parse(line) {
            Ok(None) => Ok(self),
            Ok(Some(Call::Read(digits))) => {
                let bytes = unhex(Vec::new(heap), digits)?;
                let answer = heard(&bytes, self.keys.as_ref());
                self.told(answer)
            }
            Ok(Some(Call::Keys(digits))) => {
                let bytes = unhex(Vec::new(heap), digits)?;
                let keys = Some(keys(&bytes));
                Page { keys, ..self }.told(Answer::Kept)
            }
            Ok(Some(Call::Views { members, changes })) => {
                let Page { text, tally, keys } = self;
                let Answered { text, last } = views(text, tally.calls() + 1, members, changes)?;
                Page { text, tally, keys }.told(last)
            }
            Err(reason) => self.told(Answer::Wrong(reason)),
        }
    }
}

// Plays the lines of a script, from the first to the last.
fn lines(heap: Global, script: &[u8]) -> Result<Page, AllocError>
    ensures { IfOk result (λ p. LinesPlayed script.now (state_of p)) }
{
    let mut page = Page {
        text: Vec::new(heap),
        tally: Tally::new(),
        keys: None,
    };
    let mut rest = script;
    // Neither `split` nor `split_inclusive`, which are no plainer: behind the last newline the one has one more line, an empty one, which is
    // no line of the script, and the other leaves each newline on its line, where `next_line` has the words of the script's definition.
    while !rest.is_empty() {
        let (line, after) = next_line(rest);
        page = page.line(heap, line)?;
        rest = after;
    }
    Ok(page)
}

// The whole text that a script answers.
pub fn play(heap: Global, script: &[u8]) -> Result<Vec<u8>, AllocError>
    ensures { IfOk result (λ v. Played script.now v.items) }
{
    let page = lines(heap, script)?;
    tally_line(page.text, page.tally)
}
