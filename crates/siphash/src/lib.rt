// SipHash-2-4: a 64-bit tag of a message of any length under a key of 16 bytes.
// What it computes is in specs/SipHash.antt; the message is read once, in place, and nothing is allocated.
#![tactic(auto)]

ghost use Rattle.std.specs.Prelude.{◌≡◌, ◌^◌, ◌<◌, length, take, drop};
ghost use Rattle.siphash.specs.SipHash.{little, initial, sip_round, compress, compressed, finished, last_word, parsed, siphash_2_4};

// The four words of 64 bits that a hash works on.
#[derive(Clone, Copy)]
struct State {
    v0: u64,
    v1: u64,
    v2: u64,
    v3: u64,
}

impl State {
    fn keyed(key: &[u8; 16]) -> State
        ensures { result ≡ initial key.now }
    {
        let (k0, k1) = key_words(key);
        State {
            v0: k0 ^ 0x736f6d6570736575,
            v1: k1 ^ 0x646f72616e646f6d,
            v2: k0 ^ 0x6c7967656e657261,
            v3: k1 ^ 0x7465646279746573,
        }
    }

    fn round(self) -> State
        ensures { result ≡ sip_round self }
    {
        let State {
            mut v0,
            mut v1,
            mut v2,
            mut v3,
        } = self;
        v0 = v0.wrapping_add(v1);
        v2 = v2.wrapping_add(v3);
        v1 = v1.rotate_left(13);
        v3 = v3.rotate_left(16);
        v1 ^= v0;
        v3 ^= v2;
        v0 = v0.rotate_left(32);
        v2 = v2.wrapping_add(v1);
        v0 = v0.wrapping_add(v3);
        v1 = v1.rotate_left(17);
        v3 = v3.rotate_left(21);
        v1 ^= v2;
        v3 ^= v0;
        v2 = v2.rotate_left(32);
        State { v0, v1, v2, v3 }
    }

    fn compress(self, word: u64) -> State
        ensures { result ≡ compress self word }
    {
        let fed = State {
            v3: self.v3 ^ word,
            ..self
        };
        let mixed = fed.round().round();
        State {
            v0: mixed.v0 ^ word,
            ..mixed
        }
    }

    fn finish(self) -> u64
        ensures { result ≡ finished self }
    {
        let marked = State {
            v2: self.v2 ^ 0xff,
            ..self
        };
        let last = marked.round().round().round().round();
        last.v0 ^ last.v1 ^ last.v2 ^ last.v3
    }
}

// The two halves of a key as words.
fn key_words(key: &[u8; 16]) -> (u64, u64)
    ensures { (result.0 ≡ little (take 8 key.now)) × (result.1 ≡ little (drop 8 key.now)) }
{
    let (halves, _) = key.as_chunks::<8>();
    (word(&halves[0]), word(&halves[1]))
}

// Eight bytes as a number.
fn word(bytes: &[u8; 8]) -> u64
    ensures { result ≡ little bytes.now }
{
    u64::from_le_bytes(*bytes)
}

// At most seven bytes as a number.
fn number(rest: &[u8]) -> u64
    requires { length rest.now < 8 }
    ensures { (result ≡ little rest.now) × (result < 2 ^ 56) }
{
    let mut block = [0; 8];
    block[..rest.len()].copy_from_slice(rest);
    word(&block)
}

// The word that ends a message of a size: the bytes past its whole words, and the size in the top byte.
fn last_word(rest: &[u8], size: usize) -> u64
    requires { length rest.now < 8 }
    ensures { result ≡ last_word rest.now size }
{
    let top = ((size % 256) as u64) << 56;
    number(rest) + top
}

// Takes in all words of a message.
fn absorb(start: State, message: &[u8]) -> State
    ensures { result ≡ compressed start (parsed message.now) }
{
    let (blocks, rest) = message.as_chunks::<8>();
    blocks
        .iter()
        .fold(start, |state, block| state.compress(word(block)))
        .compress(last_word(rest, message.len()))
}

// The SipHash-2-4 of the words under the key.
pub fn siphash(key: &[u8; 16], words: &[u8]) -> u64
    ensures { result ≡ siphash_2_4 key.now words.now }
{
    absorb(State::keyed(key), words).finish()
}
