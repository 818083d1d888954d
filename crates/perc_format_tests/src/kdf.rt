// Derivation against outside vectors, and the lengths of master keys.
use perc_aes::AesKey;
use perc_kdf::{Kind, Master, derive, session};
use std::process::Abort;

// Key, salt, label and what is derived.
const STREAMS: [(&str, &str, u8, &str); 20] = [
    (
        "e1f97a0d3e018be0d64fa32c06de4139",
        "0ec675ad498afeebb6960b3aabe6",
        0,
        "c61e7a93744f39ee10734afe3ff7a087",
    ),
    (
        "e1f97a0d3e018be0d64fa32c06de4139",
        "0ec675ad498afeebb6960b3aabe6",
        2,
        "30cbbc08863d8c85d49db34a9ae1",
    ),
    (
        "ad369b1780472e880d231ea3df4084f3",
        "6e972cd91c2783ec5d0f13f9947b",
        0,
        "d2",
    ),
    (
        "492e24ea3721a6aa5f9b96ffd3f16e03",
        "375a41403967ba3c1cd6811f6c02",
        0,
        "53b990cf9fd8c571bb5cab0fdd5296c129",
    ),
    (
        "0bb4a809ea527824258dfef0a0b6c0b1",
        "3697882ce875bda9a689c8dd30ac",
        1,
        "4bd41197a0217bde5a9ead5082832e24",
    ),
    (
        "431b933e0f085d741d9b24080ad4fb2d",
        "322d41ac5013db7c615abaf25d4e",
        1,
        "b89ebb3eea3b3b590b11276bae4c44b97f5a39ad06ceb174844a72b7cc32b89b",
    ),
    (
        "f41dbcf96eae821df281b27b7ae7f1b6",
        "9f44926e563182337a97ac0cc255",
        1,
        "9af725669d8c1c81b8ef58ec2bf504accc5788ad9ffcc81cb671627578c0fd4271290c2ac21360af2907063c9fd44f457e75713730ff8a846da2285ea420989c",
    ),
    (
        "3ac9c5037d81a03bd5850a1bb3504136",
        "06390e5008c34364d713281e1191",
        2,
        "5e",
    ),
    (
        "b13b9a55082938e5be798da274df2d9c",
        "568e98893895cd19669f7f1ea478",
        2,
        "5a2cabfe821747206afb727bf4d72f6c01",
    ),
    (
        "0dba19c5b4cdd5c87607e0e483e488fa",
        "f47ff664a020e58d8f0e312de90f",
        3,
        "cc0b67416d63344973915f79c06d1448",
    ),
    (
        "7a9a876093353fc127e9463aa68d45c3",
        "ef07aee960ecadb8235831f6626a",
        3,
        "9256ad2e07d966f354cc80068160d3df57915d60e91a25a553302136446989b3",
    ),
    (
        "ae4fc8449c7370f7864cf2bffd298485",
        "f132692880c00aad33637610cb2e",
        3,
        "1178217d80a79d9ed0b74d9640b416cefc63dd0473fab800afbfa1056175f14b1d3971c5b25d26c84290f5c6d798bc3f8c3198a0c9b2e4cb4b557f419b54e2c8",
    ),
    (
        "8d40ed33db79bddcfba4783e5e999f4d",
        "97fabf45573518d48e6cd7348a47",
        4,
        "13",
    ),
    (
        "ab20920694575cf0a9836bf6a2f7444d",
        "ad456f2316cf0c6d5b470dfc3d80",
        4,
        "1bb3497588f340ac8facef75b08e8cb7e6",
    ),
    (
        "c7499048127bdf8523d55f5cc48030e3",
        "ebbea598191858f7f76bfb9b8811",
        5,
        "45c8e8b8de6118b4a902a2f0052c32b7",
    ),
    (
        "f4984d53b3a3da6ee7bf9b52138fda88",
        "0633fbe7b38b2e2cb9fcd5024305",
        5,
        "01d41fb2a4678f8e18d6d1f402feefc4802a4d8539de94abf8032db7ec2b940a",
    ),
    (
        "c53ddffff49289161e5bd44b04d9adca",
        "cd4c308975a5e37b557a3c3282b8",
        5,
        "de0d4f0430bd3193c27980f8d984992db17abc8b27b9ccf10e766f743bfcb7760b8f4d2edca4af5c99f9bf08f451c7acf90a5b2d4864796ab3e96104f33d10cc",
    ),
    (
        "3da353b74963b1c32f19f97a8d345988",
        "6e6c44f04d292eb24b44c256d162",
        255,
        "d3ea739565f272c4f1499d4d9107890b",
    ),
    (
        "d4c1cabb6112d23c20e3321231b0c977",
        "5c978990fdfe3d875885aa9aa73b",
        255,
        "85739d673e6adce39de4e6f18bc934bf096c911f8bacd575a7902b6c373e8d77",
    ),
    (
        "45172ebaca90ad59b81e572760789962",
        "3933425da3064f301ac0acdf0338",
        255,
        "b5a14d7f51de86dddd0baa840042c200eca3d91383953614d898b41f0edb996262ce83543127748ea19dd0a7532df35098aab51da90ae22a5c29a27cb31685db",
    ),
];

// Master key, master salt, cipher key and session salt.
const SRTP: [(&str, &str, &str, &str); 10] = [
    (
        "a0f425e76a22d8b00e8d2d779f0316c0",
        "c91f27426848b35eb2de6df9",
        "889a580c7eb70d8635bdc13e60e59cb1",
        "bd0cde27e8f864886293c981",
    ),
    (
        "f1d413801b8b869b3a54ca43ee5fd2c5",
        "834efd880497e405abaae2c2",
        "cb3af54ded2f2f4a2eecae3f9fa5f08f",
        "2a4cf72044fad64fe493d3c8",
    ),
    (
        "37b5dcb325eeb89c8c902784e783cc44",
        "b66c2c5feeb26ca1a75511b5",
        "b3f35e008718e53c5669c7e7d8e28bea",
        "884e57d093b3feaab82705da",
    ),
    (
        "99670b61a1a78e8f8993df270c448d03",
        "20c1390d78b2b7667efe59a2",
        "0d9f4829f223c3f7bdb5707e560bcc88",
        "3dd5d4d11144b25139cebc25",
    ),
    (
        "8bc237922588877337c39b16efa69ebc",
        "fba9a65db15920a3031c0542",
        "86a9c162b8a3c3cc63e51fe7ad2c4b7b",
        "7423b67e33d87b0663ccfe1c",
    ),
    (
        "821da6b4a106494187da7274dfc4f9d3a17a4db9a4bea720018acd241b053e5f",
        "6194a7b73cb932db186bee4f",
        "85523eb490861dd66cb32fa3dcfb0313af668143737005d2ab3481d33f48bb19",
        "ffc5c6e49b0ff53fd5c0ee29",
    ),
    (
        "c8b06492e50d9f91753a4a829932a2336175667e6a55fabc7241439b6ef3e604",
        "dfeab349b15a5a2ad9f994b5",
        "42a8f4506a28db605338b021891225014c917b47d044901ad4592bd1d1609491",
        "87cfa128f04ead904f6de8d2",
    ),
    (
        "a22ad0230648deb933ec243db1439eb199bad9f26b53aa9bfd788d62388e2b29",
        "7cc572edf06431ec5ed51f10",
        "afac9ef372778fd0319a1e6ba1c78e521cfcd250490dcbe9e8d52d6147f59f1f",
        "7aae4edb6f9238bc5624056a",
    ),
    (
        "dffd34ba7acfc0a4d0dfec617b23a2d1279274cc9a01376ce92e6f6cee39c06e",
        "efe97d525cb7b3590de085c2",
        "bc344d7ff274442d22ac50ab243736940147a55b85a90eca442dca3a3539251b",
        "37c69af3fc5bd9059f17465d",
    ),
    (
        "c9b5ec82ac15f635d215d11a48037ef60dd552803ca5d466bf2db5f010a60e74",
        "cdfff6fd4918142de41ac0a8",
        "bfced9748b1eeb130f3f93b648a710c3b250a8a730e9fbaf513eaddd6aa49ad4",
        "da4aa5fabe4ba8ca43e1dc0f",
    ),
];

const SRTCP: [(&str, &str, &str, &str); 10] = [
    (
        "fd45a1956091666c7e6ebb6d88d09ced",
        "e34fcf9f4d17604323892c5e",
        "979c00210054e6049746f8d07f091947",
        "d5b627ed15ef2f4e0c87e396",
    ),
    (
        "c2e5a1043eb78cc7038c567acc0b764f",
        "a2d520d315d9190237bad783",
        "123b95bebbaa32c2a8ef6066216a4c8d",
        "a548fafdaaea8f3139c7fad3",
    ),
    (
        "3865be94f2a0b761ad8747c932b46ed4",
        "c0d213efce711458a18a5472",
        "4188bae80888d6b67b984b0dbf4f7d57",
        "7bbd62d846aac8ac59cf2734",
    ),
    (
        "4d42ea068dd4b2878ce4027f87b15dd9",
        "e0c43242e0bd32e980ad3930",
        "2666adbee1be6996f0794c4d95876f5e",
        "00ec71b19f30288c831ae15d",
    ),
    (
        "72df119daa1a86c52893857b0dcd4673",
        "2fab74708191b100a0486754",
        "23c0147b757c03c59af7de8a67d919f7",
        "09f4a6cf059d0b693dcef7f5",
    ),
    (
        "d9994d87478c19e6f718bc203eacf56671f059f0ab733272661c08ea5f09d237",
        "a779872810d8e50ffc8f21d3",
        "8223cf5206997f328e492a43b3535d7dcfddc65d21701b25ecd8a34858f52464",
        "80711bdde043bb4fd4ac1e80",
    ),
    (
        "4da1844e8811794aaa0f966e327ec6361c0069ec1fde6809517339bc24d95b20",
        "d99d5c88e11dfae577f7b789",
        "6430f6f214949551faa3515b451ab0644ce4b44372d463a8c55a256b3224cf45",
        "83af8f1ba744de4972ae1028",
    ),
    (
        "ef56facc4af70e26ad38b99e18d4b9a133cbb856add11b4da577a6fea782dd9d",
        "5afd086057170277722b03a0",
        "24602179d5bbc92a0b478b1e33941974f7a0c84363f76b8a17b8ce989c92493a",
        "9c4293efc55b45df0bbcf6ca",
    ),
    (
        "f31220503c7c339dd37bed4a8e2af372a124bdf9ab05dc2554e42dbc6f2687cb",
        "a3ab8244cebc4e1db131a803",
        "00ae0136ebf86d0a4a12f60a7570dd6ca51089b1b0ab8cc8fe2cf1deeacf383f",
        "a4347f3aa12f594d34c99ab5",
    ),
    (
        "b4e34afdab866e7c62b2904dc6c2338e5fee4ba12c975b34a2f144db78d6a339",
        "4eced72e90503931fe27ccc1",
        "e6a870f73b8d7789f368589fa650902d052a0dc888274728f1137111f1f8d4d3",
        "625e74cc57ba74cd2038579b",
    ),
];

// The octets of a text, with zeros behind.
fn octets<const N: usize>(rt: &impl Abort, text: &str) -> [u8; N] {
    let len = text.len() / 2;
    assert!(rt; len <= N, "{text} has at most {N} octets");
    let mut octets = [0; N];
    hex::decode_to_slice(text, &mut octets[..len]).expect(rt, "hexadecimal digits");
    octets
}

fn check_stream(rt: &impl Abort, row: &(&str, &str, u8, &str)) {
    let (key, salt, label, derived) = *row;
    let key = AesKey::new(&octets::<16>(rt, key)).expect(rt, "a key of 16 octets");
    let mut out = [0; 64];
    let len = derived.len() / 2;
    assert!(rt; len <= 64);
    derive(&key, &octets::<14>(rt, salt), label, &mut out[..len]);
    assert_eq!(rt; out, octets::<64>(rt, derived));
}

#[test]
fn streams(rt: HostRuntime) {
    for row in &STREAMS {
        check_stream(&rt, row);
    }
}

fn check_session(rt: &impl Abort, kind: Kind, row: &(&str, &str, &str, &str)) {
    let (key, salt, session_key, session_salt) = *row;
    let len = key.len() / 2;
    assert!(rt; len <= 32);
    let key = octets::<32>(rt, key);
    let salt = octets::<12>(rt, salt);
    let master = Master::new(&key[..len], &salt).expect(rt, "a length of a master key");
    assert!(rt; master.key() == &key[..len]);
    assert_eq!(rt; *master.salt(), salt);
    let keys = session(&master, kind);
    assert_eq!(rt; keys.len, len);
    assert_eq!(rt; keys.key, octets::<32>(rt, session_key));
    assert_eq!(rt; keys.salt, octets::<12>(rt, session_salt));
}

#[test]
fn sessions(rt: HostRuntime) {
    for row in &SRTP {
        check_session(&rt, Kind::Srtp, row);
    }
    for row in &SRTCP {
        check_session(&rt, Kind::Srtcp, row);
    }
}

#[test]
fn masters(rt: HostRuntime) {
    for len in 0..34 {
        assert_eq!(rt;
            Master::new(&[1; 33][..len], &[0; 12]).is_some(),
            len == 16 || len == 32,
            "{len} octets"
        );
    }
}

// In rising order: by the key, of which one that begins another is the lower, and then by the salt.
const RISING: [(u8, usize, u8); 5] = [(0, 16, 0), (0, 16, 1), (0, 32, 0), (1, 16, 0), (1, 32, 0)];

fn master_of(row: (u8, usize, u8)) -> Option<Master> {
    let (key, len, salt) = row;
    Master::new(&[key; 32][..len.min(32)], &[salt; 12])
}

#[test]
fn order(rt: HostRuntime) {
    for (i, a) in RISING.iter().enumerate() {
        for (k, b) in RISING.iter().enumerate() {
            assert!(rt;
                master_of(*a).cmp(&master_of(*b)) == i.cmp(&k),
                "{i} beside {k}"
            );
            assert_eq!(rt; master_of(*a) == master_of(*b), i == k, "{i} beside {k}");
        }
    }
}
