// UUIDs.
ghost use Rattle.std.specs.Prelude.{◌≡◌};
ghost use Rattle.uuid.specs.Text.{parsed};
ghost use Rattle.perc_word.specs.Word.{uuid_in};

use uuid::Uuid;

/// The 16 octets that the word spells as a UUID, hyphenated and in lower case (RFC 9562 section 4). None exactly where
/// it spells none.
#[tactic(auto, unfolding(crate::specs::Word::uuid_in))]
pub fn uuid(word: &[u8]) -> Option<[u8; 16]>
    ensures { result ≡ uuid_in word.now }
{
    let uuid = uuid_of(word)?;
    let mut buffer = Uuid::encode_buffer();
    let digits = uuid.hyphenated().encode_lower(&mut buffer).as_bytes();
    if digits == word {
        Some(uuid.into_bytes())
    } else {
        None
    }
}

// The UUID that the word spells in some form.
fn uuid_of(word: &[u8]) -> Option<Uuid>
    ensures { result ≡ parsed word.now }
{
    match Uuid::try_parse_ascii(word) {
        Ok(uuid) => Some(uuid),
        Err(_) => None,
    }
}
