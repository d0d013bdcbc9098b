// A group as the end of an answer line: the number of its view, its members, and what a group of so many has.
// The text: specs/Groups.antt.
ghost use Rattle.script.specs.Groups.{group_text};

use crate::line::{Field, Text};
use crate::lists::Boards;
use boards::Set;
use std::alloc::AllocError;

// The values that a view's line shows. How many members there are is told by their set.
#[derive(Clone, Copy, Debug, PartialEq, Eq)]
pub struct Group {
    pub view: u8,
    pub members: Set,
    pub f: u8,
    pub q: u8,
    pub manager: u8,
}

impl Text for Group {
    ghost text = { group_text };

    fn write(&self, line: &mut Vec<u8>) -> Result<(), AllocError> {
        let counts = (
            Field("n", self.members.len()),
            (Field("f", self.f), Field("q", self.q)),
        );
        let members = Field("members", Boards(self.members));
        (
            "view ",
            (
                self.view,
                (members, (counts, Field("manager", self.manager))),
            ),
        )
            .write(line)
    }
}
