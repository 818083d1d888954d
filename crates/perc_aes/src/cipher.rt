// The rounds of the cipher (FIPS 197 section 5.1) and of its inverse (section 5.3), over the columns of a state.
ghost use Rattle.std.specs.Prelude.{◌≡◌, map};
ghost use Rattle.perc_aes.specs.Cipher.{add_round_key, mix_columns, mix_matrix, shift_rows, sub_bytes, sub_octet, sub_word};
ghost use Rattle.perc_aes.specs.Inverse.{inverse_mix_columns, inverse_shift_rows, inverse_sub_bytes, inverse_sub_octet, unmix_matrix};
ghost use Rattle.perc_aes.specs.Words.{diagonal, octets_of, octets_of_word, sum_of_four, times_column, turned_sum};

use crate::state::{State, octet};
use crate::tables::{
    inverse_column, inverse_sub_octet, mixed, mixed_row_1, mixed_row_2, mixed_row_3, sub_octet,
    unmixed,
};

// The sum of four words, each turned right by one octet more than the one before.
#[tactic(auto, using(crate::proofs::StateLaws::turned_sum_is))]
fn turned_sum(p: u32, q: u32, r: u32, s: u32) -> u32
    ensures { octets_of_word result ≡ turned_sum (octets_of_word p) (octets_of_word q) (octets_of_word r) (octets_of_word s) }
{
    p ^ q.rotate_right(8) ^ r.rotate_right(16) ^ s.rotate_right(24)
}

// The sum of four words.
#[tactic(auto, using(crate::proofs::StateLaws::sum_of_four_is))]
fn sum_of_four(p: u32, q: u32, r: u32, s: u32) -> u32
    ensures { octets_of_word result ≡ sum_of_four (octets_of_word p) (octets_of_word q) (octets_of_word r) (octets_of_word s) }
{
    p ^ q ^ r ^ s
}

// A column after SubBytes, ShiftRows and MixColumns, from the columns that its octets come from, its own first.
fn mixed_column(a: u32, b: u32, c: u32, d: u32) -> u32
    ensures { octets_of_word result ≡ times_column mix_matrix (map sub_octet (diagonal a b c d)) }
{
    sum_of_four(
        mixed(octet(a, 0)),
        mixed_row_1(octet(b, 1)),
        mixed_row_2(octet(c, 2)),
        mixed_row_3(octet(d, 3)),
    )
}

// A column after SubBytes and ShiftRows.
fn sub_column(a: u32, b: u32, c: u32, d: u32) -> u32
    ensures { octets_of_word result ≡ map sub_octet (diagonal a b c d) }
{
    u32::from_be_bytes([
        sub_octet(octet(a, 0)),
        sub_octet(octet(b, 1)),
        sub_octet(octet(c, 2)),
        sub_octet(octet(d, 3)),
    ])
}

// SubWord (section 5.2).
pub(crate) fn sub_word(word: u32) -> u32
    ensures { octets_of_word result ≡ sub_word (octets_of_word word) }
{
    sub_column(word, word, word, word)
}

// A whole round.
#[tactic(auto, using(crate::proofs::StateLaws::mixed_columns))]
pub(crate) fn whole_round(state: State, key: State) -> State
    ensures { octets_of result ≡ add_round_key (mix_columns (shift_rows (sub_bytes (octets_of state)))) (octets_of key) }
{
    let State { a, b, c, d } = state;
    let mixed = State {
        a: mixed_column(a, b, c, d),
        b: mixed_column(b, c, d, a),
        c: mixed_column(c, d, a, b),
        d: mixed_column(d, a, b, c),
    };
    mixed.add(key)
}

// The last round, which has no MixColumns.
#[tactic(auto, using(crate::proofs::StateLaws::shifted_columns))]
pub(crate) fn last_round(state: State, key: State) -> State
    ensures { octets_of result ≡ add_round_key (shift_rows (sub_bytes (octets_of state))) (octets_of key) }
{
    let State { a, b, c, d } = state;
    let shifted = State {
        a: sub_column(a, b, c, d),
        b: sub_column(b, c, d, a),
        c: sub_column(c, d, a, b),
        d: sub_column(d, a, b, c),
    };
    shifted.add(key)
}

// A column after InvShiftRows, InvSubBytes and InvMixColumns.
fn unmixed_column(a: u32, b: u32, c: u32, d: u32) -> u32
    ensures { octets_of_word result ≡ times_column unmix_matrix (map inverse_sub_octet (diagonal a b c d)) }
{
    turned_sum(
        unmixed(octet(a, 0)),
        unmixed(octet(b, 1)),
        unmixed(octet(c, 2)),
        unmixed(octet(d, 3)),
    )
}

// A column after InvShiftRows and InvSubBytes.
fn inverse_sub_column(a: u32, b: u32, c: u32, d: u32) -> u32
    ensures { octets_of_word result ≡ map inverse_sub_octet (diagonal a b c d) }
{
    u32::from_be_bytes([
        inverse_sub_octet(octet(a, 0)),
        inverse_sub_octet(octet(b, 1)),
        inverse_sub_octet(octet(c, 2)),
        inverse_sub_octet(octet(d, 3)),
    ])
}

// InvMixColumns of a word.
fn unmixed_word(word: u32) -> u32
    ensures { octets_of_word result ≡ times_column unmix_matrix (octets_of_word word) }
{
    turned_sum(
        inverse_column(octet(word, 0)),
        inverse_column(octet(word, 1)),
        inverse_column(octet(word, 2)),
        inverse_column(octet(word, 3)),
    )
}

// InvMixColumns of a round key.
#[tactic(auto, using(crate::proofs::StateLaws::unmixed_words))]
fn unmixed_key(key: State) -> State
    ensures { octets_of result ≡ inverse_mix_columns (octets_of key) }
{
    State {
        a: unmixed_word(key.a),
        b: unmixed_word(key.b),
        c: unmixed_word(key.c),
        d: unmixed_word(key.d),
    }
}

// A round of the equivalent inverse cipher (section 5.3.5), which takes what a round has before its MixColumns to
// what the round before has there. The key is that of the round before, as the cipher adds it.
pub(crate) fn inverse_round(state: State, key: State) -> State
    ensures { mix_columns (octets_of result) ≡ add_round_key (inverse_sub_bytes (inverse_shift_rows (octets_of state))) (octets_of key) }
{
    let State { a, b, c, d } = state;
    let unmixed = State {
        a: unmixed_column(a, d, c, b),
        b: unmixed_column(b, a, d, c),
        c: unmixed_column(c, b, a, d),
        d: unmixed_column(d, c, b, a),
    };
    unmixed.add(unmixed_key(key))
}

// The last round of the inverse.
#[tactic(auto, using(crate::proofs::StateLaws::unshifted_columns))]
pub(crate) fn inverse_last_round(state: State, key: State) -> State
    ensures { octets_of result ≡ add_round_key (inverse_sub_bytes (inverse_shift_rows (octets_of state))) (octets_of key) }
{
    let State { a, b, c, d } = state;
    let shifted = State {
        a: inverse_sub_column(a, d, c, b),
        b: inverse_sub_column(b, a, d, c),
        c: inverse_sub_column(c, b, a, d),
        d: inverse_sub_column(d, c, b, a),
    };
    shifted.add(key)
}
