// The words of a line: comments cut off, words apart by spaces or tabs.
// What they are: specs/Words.antt.
ghost use Rattle.std.specs.Prelude.{◌≡◌, ◌≤◌, ℕ, Bool, not, length, Decides};
ghost use Rattle.script.specs.Words.{lead, Whole, blank, plain, before, past, chomped, body, NextWord};

// A space or a tab.
fn is_blank(b: u8) -> bool
    ensures { result ≡ blank b }
{
    b == b' ' || b == b'\t'
}

// A byte of text: a blank or a printable character.
fn is_plain(b: u8) -> bool
    ensures { result ≡ plain b }
{
    is_blank(b) || b.is_ascii_graphic()
}

// How many bytes stand before the first at which a test says that they end.
fn front<F: Fn(u8) -> bool>(bytes: &[u8], ends: F) -> usize
    requires { F.IsAlwaysCallable ends }
    ensures is { (test : ℕ → Bool) → ((b : ℕ) (r : Bool) → F.post ends b r → r ≡ test b)
        → result ≡ lead (λ b. not (test b)) bytes.now }
    ensures within { result ≤ length bytes.now }
{
    bytes.iter().position(|b| ends(*b)).unwrap_or(bytes.len())
}

// Whether all bytes are text.
pub(crate) fn is_text(bytes: &[u8]) -> bool
    ensures { Decides result (Whole plain bytes.now) }
{
    bytes.iter().all(|b| is_plain(*b))
}

// The line without a carriage return at its end.
fn chomped(line: &[u8]) -> &[u8]
    ensures { result.now ≡ chomped line.now }
{
    match line.split_last() {
        Some((b'\r', rest)) => rest,
        _ => line,
    }
}

// What a line says: all before its comment.
pub(crate) fn body(line: &[u8]) -> &[u8]
    ensures { result.now ≡ body line.now }
{
    let line = chomped(line);
    &line[..front(line, |b| b == b'#')]
}

// The first word and what comes after it.
pub(crate) fn next_word(bytes: &[u8]) -> Option<(&[u8], &[u8])>
    ensures { NextWord bytes.now result }
{
    let rest = &bytes[front(bytes, |b| !is_blank(b))..];
    let end = front(rest, is_blank);
    if end == 0 {
        return None;
    }
    Some(rest.split_at(end))
}

// The first line of a script and what comes after its newline.
pub fn next_line(script: &[u8]) -> (&[u8], &[u8])
    ensures { (result.0.now ≡ before 10 script.now) × (result.1.now ≡ past 10 script.now) }
{
    let (line, rest) = script.split_at(front(script, |b| b == b'\n'));
    (line, &rest[rest.len().min(1)..])
}
