// Words: the bytes that are signed for a statement, at most 52.
// Which bytes they are is said where they are made: src/spell.rt.
use bounded::Bytes;

pub type Words = Bytes<52>;
