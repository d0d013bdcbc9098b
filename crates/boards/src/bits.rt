// The bits of a byte that stands for a set of boards: the only file here that shifts, masks or counts bits.
// Each function says in terms of members what its bits mean; the calls of a set rest on that alone.
ghost use Rattle.std.specs.Prelude.{◌≡◌, ℕ, ◌<◌, ◌≤◌, true, not, ◌&&◌, ◌||◌, Decides, ◌==◌};
ghost use Rattle.boards.specs.Boards.{member, only, size, place, Within};

// The byte of one board; 0 for a board above 7.
pub(crate) fn bit(board: u8) -> u8
    ensures is { result ≡ only board }
    ensures each { (k : ℕ) → k < 8 → member result k ≡ (k == board) }
    ensures above { 8 ≤ board → result ≡ 0 }
{
    if board < 8 { 128 >> board } else { 0 }
}

// The boards of a and those of b.
pub(crate) fn either(a: u8, b: u8) -> u8
    ensures each { (k : ℕ) → k < 8 → member result k ≡ (member a k || member b k) }
    ensures same { b ≡ 0 → result ≡ a }
{
    a | b
}

// The boards of a that are not in b.
pub(crate) fn rest(a: u8, b: u8) -> u8
    ensures each { (k : ℕ) → k < 8 → member result k ≡ (member a k && not (member b k)) }
    ensures same { b ≡ 0 → result ≡ a }
{
    a & !b
}

// Whether the board's bit is set.
pub(crate) fn is_set(bits: u8, board: u8) -> bool
    ensures is { result ≡ member bits board }
    ensures below { result ≡ true → board < 8 }
{
    board < 8 && (bits >> (7 - board)) & 1 == 1
}

// How many boards stand before this one.
pub(crate) fn before(bits: u8, board: u8) -> u8
    requires { board < 8 }
    ensures { (result ≡ place bits board) × (result ≤ board) }
{
    (bits >> (7 - board) >> 1).count_ones() as u8
}

// How many boards there are.
pub(crate) fn count(bits: u8) -> u8
    ensures { (result ≡ size bits) × (result ≤ 8) }
{
    bits.count_ones() as u8
}

// Whether each board of a is in b.
pub(crate) fn inside(a: u8, b: u8) -> bool
    ensures { Decides result (Within a b) }
{
    a & b == a
}
