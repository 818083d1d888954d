// The cipher against outside vectors, and the lengths of keys.
use super::*;
use hex::FromHexError;
use std::process::Abort;
use std::test::Fail;

// Key, block, and what the cipher makes of it.
const VECTORS: [(&str, &str, &str); 33] = [
    (
        "000102030405060708090a0b0c0d0e0f",
        "00112233445566778899aabbccddeeff",
        "69c4e0d86a7b0430d8cdb78070b4c55a",
    ),
    (
        "000102030405060708090a0b0c0d0e0f1011121314151617",
        "00112233445566778899aabbccddeeff",
        "dda97ca4864cdfe06eaf70a0ec0d7191",
    ),
    (
        "000102030405060708090a0b0c0d0e0f101112131415161718191a1b1c1d1e1f",
        "00112233445566778899aabbccddeeff",
        "8ea2b7ca516745bfeafc49904b496089",
    ),
    (
        "fe63c0c224ed9e23ad0785954f0668f7",
        "f58d9a0ec33d11554477c6e044eb6659",
        "96c0a747fea4daef4788348241249059",
    ),
    (
        "d942b0fc8429a84c0e802017b08cc4b9",
        "3086f1a9013fc9d6dc134dbc6d543ca8",
        "d4c9742bf0e372669b0edc44cc31e152",
    ),
    (
        "055c2ddf236096a316a4dbcdfc70e9ac",
        "adad5e2be1c4e24f1de75fe256326300",
        "3c37ebb83637d2d0b47ca6494dbf7ae6",
    ),
    (
        "188199a99f04c6348a8e4219980e6ce6",
        "d9c271be65242da6cdbaf9d940c8193c",
        "b95e24eab362048e6c0fb80620d757bb",
    ),
    (
        "ab3ca7577bb4a6f57d5c1ba1f537f1e7",
        "e24bbcfde2a1a86011bad243c134f012",
        "cf449a271ff2caf8967378cc52c5d920",
    ),
    (
        "dda4bacf647956d698096a94930bde83",
        "4ee53f923773779f02c95cf63b198c06",
        "5ac237625eccfc53b8a313d26f98fcf0",
    ),
    (
        "cc6d80122e787933bee44665ffd65ac8",
        "750ac853d220ba33ac1eb72f4280cc10",
        "b149ead67995e9498dab7015bb896ae5",
    ),
    (
        "1756a5db143645f73f00013738313933",
        "24f27958727d92ca288cb9175bd02342",
        "14551d14367d952ef896eb9a50d55057",
    ),
    (
        "b2ce56e146cdddf332b070df41207ec6",
        "587c4dcf7c1c19cda32f8a96865b0ab4",
        "5ed2a9139512fcdd1703261718240491",
    ),
    (
        "e39659d9919d9e4fc87f5946104cbc90",
        "cfb55221d271d4fd3f0c57111cc2dc9f",
        "3dde927dfeb4c1017743ee2b5fa88255",
    ),
    (
        "445916fb475bb7e1b684d3aabf4d0046a2d5dc72ba94b889",
        "d4abd652fa5070d6e0c59ef92a0b1820",
        "7a50610c13b03f74e27fcf94ef3bbeff",
    ),
    (
        "ccd8b348b570c70acefb11e343fcd8bb91a3b25db32fbb0d",
        "a18fac8c60d68c766f9bc98d17fbe333",
        "27d8fa9e6296765630bdbca547bbf72c",
    ),
    (
        "57335e6a5db3c6b56e1a992e736082e024db1d82d33c4e26",
        "314993b86a9c7cab09456a1aa1c965d6",
        "131fab35100dbcafa67eac3408b49811",
    ),
    (
        "7953c16a7b45573b21dbff137ca401011ec1dbb39b7c9ffd",
        "33750af99d2048cab3372d10c36e0dba",
        "a628d366ffe7f24dd04afd12b6c80c14",
    ),
    (
        "c78a1dc51da9ab664d6c207a6a065c9f907dfea12d03f325",
        "11de634308382f3699e1989b70772a76",
        "5b50a1d9828f81b89411054178ceef7e",
    ),
    (
        "3b5ef9f1e9d79e55f69218d3d862e8a2e1cf193273aa8910",
        "fcb5b8846f92894921247ce22249a5c1",
        "ac8f1748ffd7a654b59a824f55ca2afa",
    ),
    (
        "4eca5f330289e62ecc349b0d3b1432d3d3d43dc00689823c",
        "50105d227ccfbb5d3c5b223ef406b35c",
        "0e1c5862e5c59548931b12492805667e",
    ),
    (
        "3ffb42052ebb976e183f26e1180ed94558f832ebafac9706",
        "e5121eb2c16515473df202d03ce6a43d",
        "88456755bbd282966e157f56522c5269",
    ),
    (
        "c519c97d3fb4c56e710f7ca00d44cba7dcdda4731dbee2c2",
        "9164a76ebcd26aafa72396740f1077fc",
        "cd869106e56c5fc95d158c6696b8613b",
    ),
    (
        "9b24c27f507c6ea3b8148d5d7dc97c7be9af81679feee014",
        "c8c60de46df7537d5739f58f01fb924e",
        "9bd675e57a87c1170c1d83abd1d157d9",
    ),
    (
        "a15714ac400ac26ccc7ec7cc85a3f8ac451d546bef56098e825e856296589452",
        "9e6760e5d479ac6d3302ae90971d0e01",
        "3b796611880c5eb67fa829c7e743339d",
    ),
    (
        "605c9971927ab492cd542f55919bc94a57e07cc96067527eb1f02a8c97075981",
        "9230fe5048395117577e5f7a2230e0d3",
        "5e815b90be88369e1108d62ba68d332f",
    ),
    (
        "5c63bb5bde68b1ea0448fe8723949a278ed64b58fea40ac6e741f432be2c7b76",
        "9d74839b47b4f359b3d5083396e47a08",
        "9a4fd5aabe5b0a67437d0363767a9b0c",
    ),
    (
        "5a657d4fd1847353a1249fbb764dfd87cf57d24f4a11e0214a183d4550d48e9c",
        "737276975f99b6ba478c35d2c7c6a4f5",
        "6e29d3758bafe4f0c6dfc48db8c1fc83",
    ),
    (
        "7c2ed9c457e2a9d1d4c04414390be6308dee2b37f014d1acd7c5f2ee257e6c35",
        "7a9598e66f84057d12c4e00f89001731",
        "503d38af9b7ade0ac73dbfb39f2199ff",
    ),
    (
        "bd41365282eea0107ac17081e41869ff241b03756ee0c832ae89c7057610a0fd",
        "22164d2f257c8c3a29586f0afb3843a1",
        "b1fc97233f6c2cf20ccc83524d091436",
    ),
    (
        "6e7ba4919f5c287c847098321a649aef1dce506eeef42c781d86ac90e9ec0e6a",
        "504d68b4af5a7fddca001db764129840",
        "5e4f1728754155fd7555df62fcf7c5d5",
    ),
    (
        "045bc27e5b1f65cfff821cfe8cd78c6a3a86c1edb2979c3bcd1cd68a6f2d0f64",
        "ef5b2e9a44c22e08340c9ed3365f443e",
        "095c596c2edfbb8c097893a3b03331c0",
    ),
    (
        "498dbfc84fdc588fc6d88566046b8055c99e0e895381fb4fcb3ff98e5c3366d6",
        "fb65f4ee7247bc7ff57413a35b0631eb",
        "c86e9f588f8859ae42a5164ef139f68b",
    ),
    (
        "07e853046f2c386d7387b22ed7e22f91c77fa85195a964f0f1102663450ab5d2",
        "298dfbc5425f165c7dbbd1ed14d5ac18",
        "9911f7951580772a0d6a3a7a0d0ff8e0",
    ),
];

// Encrypts one block and decrypts it again, by the words and octet by octet.
fn both_ways(rt: &impl Abort, key: &[u8; 32], key_size: usize, plain: [u8; 16]) -> [u8; 16] {
    let size = key_size.clamp(16, 32);
    let aes = AesKey::new(&key[..size]).expect(rt, "the length is one of a key");
    let mut block = plain;
    aes.encrypt_block(&mut block);
    let cipher = block;
    let mut other = plain;
    plain::encrypt(key, size, &mut other);
    assert_eq!(rt; other, cipher);
    aes.decrypt_block(&mut block);
    assert_eq!(rt; block, plain);
    plain::decrypt(key, size, &mut other);
    assert_eq!(rt; other, plain);
    cipher
}

// A key and a block of a table's row.
fn check_vector(rt: &impl Abort, key: &str, plain: &str, cipher: &str) -> Result<(), FromHexError> {
    let size = (key.len() / 2).min(32);
    let mut octets = [0; 32];
    hex::decode_to_slice(key, &mut octets[..size])?;
    let mut block = [0; 16];
    hex::decode_to_slice(plain, &mut block)?;
    let mut want = [0; 16];
    hex::decode_to_slice(cipher, &mut want)?;
    assert_eq!(rt; both_ways(rt, &octets, size, block), want);
    Ok(())
}

#[test]
fn vectors(rt: HostRuntime) -> Result<(), Fail> {
    for vector in &VECTORS {
        check_vector(&rt, vector.0, vector.1, vector.2)?;
    }
    Ok(())
}

// Octets that look drawn at random.
fn draw(state: &mut u64, octets: &mut [u8]) {
    for octet in octets {
        *state = state
            .wrapping_mul(6_364_136_223_846_793_005)
            .wrapping_add(1_442_695_040_888_963_407);
        *octet = (*state >> 56) as u8;
    }
}

#[test]
fn words_as_octets(rt: HostRuntime) {
    let mut state = 5501;
    let mut key = [0; 32];
    let mut block = [0; 16];
    for i in 0..300 {
        draw(&mut state, &mut key);
        draw(&mut state, &mut block);
        both_ways(&rt, &key, 16 + i % 3 * 8, block);
    }
}

#[test]
fn lengths(rt: HostRuntime) {
    for length in 0..34 {
        let wanted = length == 16 || length == 24 || length == 32;
        assert_eq!(rt;
            AesKey::new(&[0; 33][..length]).is_some(),
            wanted,
            "{length} octets"
        );
    }
}
