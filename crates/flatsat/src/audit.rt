// An audit of a message: whose tags in it are good under the boards' keys, and whose are not.
// What an audit says: specs/Audits.antt. Keys: 16 bytes for each of the eight boards.
ghost use Rattle.std.specs.Prelude.{◌≡◌, length};
ghost use Rattle.schemes.specs.Keys.{good_under, keyed_good};
ghost use Rattle.wire.specs.Messages.{meaning};
ghost use Rattle.wire.specs.Format.{Formed};
ghost use Rattle.flatsat.specs.Audits.{keys_of, Judged, has_proof, Audits};

use checks::{Part, boards_of, good_boards};
use schemes::keyed::{Keyed, Keys};
use script::audit::{Audit, Verdict};
use wire::message::{Body, Message};

// The boards' keys, board 0's first.
pub(crate) fn keys(bytes: &[u8]) -> Keys
    requires { length bytes.now ≡ 128 }
    ensures { result ≡ keys_of bytes.now }
{
    *bytes.as_chunks::<16>().0.first_chunk::<8>().unwrap()
}

// The boards of a part of a message, by whether their tags are good.
fn verdict(scheme: &Keyed<'_>, m: &Message<'_>, part: Part) -> Verdict
    ensures { Formed (meaning m.now) → Judged part (good_under scheme.now) (meaning m.now) result }
{
    let good = good_boards(scheme, m, part);
    Verdict {
        good,
        bad: boards_of(m, part).minus(good),
    }
}

// Whether the message's kind has a proof.
fn has_proof(m: &Message<'_>) -> bool
    ensures { result ≡ has_proof (meaning m.now) }
{
    matches!(m.body, Body::Last { .. } | Body::SuggestLast { .. })
}

// The audit of a message under keys.
pub(crate) fn audit(keys: &Keys, m: &Message<'_>) -> Audit
    ensures { Formed (meaning m.now) → Audits (keyed_good keys.now) (meaning m.now) result }
{
    let scheme = Keyed::new(keys);
    let signers = verdict(&scheme, m, Part::Signers);
    // An `if`: with `then` the proof stays open, since the search does not see the verdict behind the closure (tried).
    let proof = if has_proof(m) {
        Some(verdict(&scheme, m, Part::Proof))
    } else {
        None
    };
    Audit { signers, proof }
}
