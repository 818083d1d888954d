// The double transform's profiles.
ghost use Rattle.std.specs.Prelude.{◌≡◌};
ghost use Rattle.perc_base.specs.Profile.{key_length, profile_number};

/// A protection profile of the double transform (RFC 8723 section 10.1): AES-GCM inside and outside, with keys of one
/// length.
#[derive(Clone, Copy, Debug, PartialEq, Eq)]
pub enum Profile {
    /// DOUBLE_AEAD_AES_128_GCM_AEAD_AES_128_GCM, with keys of 16 octets.
    Aes128,
    /// DOUBLE_AEAD_AES_256_GCM_AEAD_AES_256_GCM, with keys of 32 octets.
    Aes256,
}

impl Profile {
    /// How many octets each key has: 16 or 32.
    pub fn key_len(self) -> usize
        ensures { result ≡ key_length self }
    {
        match self {
            Profile::Aes128 => 16,
            Profile::Aes256 => 32,
        }
    }

    /// The profile's number: 9 or 10.
    pub fn number(self) -> u16
        ensures { result ≡ profile_number self }
    {
        match self {
            Profile::Aes128 => 9,
            Profile::Aes256 => 10,
        }
    }
}

#[cfg(test)]
mod tests {
    use super::*;

    #[test]
    fn numbers(rt: HostRuntime) {
        assert_eq!(rt; Profile::Aes128.number(), 9);
        assert_eq!(rt; Profile::Aes256.number(), 10);
        assert_eq!(rt; Profile::Aes128.key_len(), 16);
        assert_eq!(rt; Profile::Aes256.key_len(), 32);
    }
}
