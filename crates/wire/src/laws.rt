// The laws of the bytes of messages and of signed words, each the contract of a function that does nothing else.
// Statements: specs/Laws.antt. Examples of bytes, worked out: specs/Examples.antt.
ghost use Rattle.wire.specs.Examples.{Examples};
ghost use Rattle.wire.specs.Laws.{CutShort, FieldRefused, LeftOver, OneAnswer, RoundTrip, SignedAllowed, TooLong, WordsTell};

pub fn bytes_have_one_answer()
    ensures { OneAnswer }
{}

pub fn written_is_read_back()
    ensures { RoundTrip }
{}

pub fn cut_short_lacks_bytes()
    ensures { CutShort }
{}

pub fn added_bytes_are_left_over()
    ensures { TooLong }
{}

pub fn left_over_behind_a_message()
    ensures { LeftOver }
{}

pub fn field_is_refused()
    ensures { FieldRefused }
{}

pub fn words_tell_their_act()
    ensures { WordsTell }
{}

pub fn signed_acts_are_allowed()
    ensures { SignedAllowed }
{}

pub fn examples_stand()
    ensures { Examples }
{}
