// A state (FIPS 197 section 3.4) as four words, one for each column, the octet of row 0 the highest of its word.
ghost use Rattle.std.specs.Prelude.{◌≡◌, ◌+◌, ◌*◌, ◌<◌, ◌≤◌, length, slice_index};
ghost use Rattle.perc_aes.specs.Cipher.{add_round_key, word_at};
ghost use Rattle.perc_aes.specs.Words.{octets_of, octets_of_word};

/// The four columns.
#[derive(Clone, Copy)]
pub(crate) struct State {
    pub(crate) a: u32,
    pub(crate) b: u32,
    pub(crate) c: u32,
    pub(crate) d: u32,
}

impl State {
    // The state that a block is.
    pub(crate) fn of_block(block: &[u8; 16]) -> State
        ensures { octets_of result ≡ block.now }
    {
        State {
            a: word_at(block, 0),
            b: word_at(block, 1),
            c: word_at(block, 2),
            d: word_at(block, 3),
        }
    }

    // The block that a state is.
    pub(crate) fn block(self) -> [u8; 16]
        ensures { result ≡ octets_of self }
    {
        let [a0, a1, a2, a3] = self.a.to_be_bytes();
        let [b0, b1, b2, b3] = self.b.to_be_bytes();
        let [c0, c1, c2, c3] = self.c.to_be_bytes();
        let [d0, d1, d2, d3] = self.d.to_be_bytes();
        [
            a0, a1, a2, a3, b0, b1, b2, b3, c0, c1, c2, c3, d0, d1, d2, d3,
        ]
    }

    // AddRoundKey.
    #[tactic(auto, using(crate::proofs::StateLaws::added))]
    pub(crate) fn add(self, key: State) -> State
        ensures { octets_of result ≡ add_round_key (octets_of self) (octets_of key) }
    {
        State {
            a: self.a ^ key.a,
            b: self.b ^ key.b,
            c: self.c ^ key.c,
            d: self.d ^ key.d,
        }
    }
}

// Word i of a list of octets.
pub(crate) fn word_at(octets: &[u8], i: usize) -> u32
    requires { 4 * i + 4 ≤ length octets.now }
    ensures { octets_of_word result ≡ word_at octets.now i }
{
    u32::from_be_bytes([
        octets[4 * i],
        octets[4 * i + 1],
        octets[4 * i + 2],
        octets[4 * i + 3],
    ])
}

// An octet of a word: 0 is the highest.
#[tactic(auto, using(crate::proofs::StateLaws::octet_is))]
pub(crate) fn octet(word: u32, place: u32) -> u8
    requires { place < 4 }
    ensures { result ≡ slice_index (octets_of_word word) place }
{
    ((word >> (24 - 8 * place)) & 0xff) as u8
}
