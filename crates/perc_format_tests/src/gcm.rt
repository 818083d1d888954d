// Outside vectors, and the bodies against plain ones over generated octets.
ghost use Rattle.std.specs.Prelude.{◌≤◌, length};

use perc_aes::AesKey;
use perc_gcm::{HTable, TagMismatch, seal, unseal};
use std::process::Abort;

// Key, IV, additional data, text, cipher text and tag.
type Vector = (
    &'static str,
    &'static str,
    &'static str,
    &'static str,
    &'static str,
    &'static str,
);

const FIRST: [Vector; 9] = [
    (
        "00000000000000000000000000000000",
        "000000000000000000000000",
        "",
        "",
        "",
        "58e2fccefa7e3061367f1d57a4e7455a",
    ),
    (
        "00000000000000000000000000000000",
        "000000000000000000000000",
        "",
        "00000000000000000000000000000000",
        "0388dace60b6a392f328c2b971b2fe78",
        "ab6e47d42cec13bdf53a67b21257bddf",
    ),
    (
        "b9db8549bfccf52dab3634b458cad12a",
        "07c15f339a8f1986fc8a28dd",
        "",
        "",
        "",
        "1710980e9f32c5fdaeb5402284cac677",
    ),
    (
        "be80570b7a293a31c74b4ba54b3dc24c",
        "45ec4d05b98ad55d0da898d0",
        "",
        "6c",
        "21",
        "de38cbf0b4f9ddd3cc3d9a09cd3eb732",
    ),
    (
        "4592e81df4165e0b7c1646d81a84bd7f",
        "d3aa9561fca59f96f53f22a5",
        "56",
        "",
        "",
        "5659b1791337dbc884b6378a6eb02c2f",
    ),
    (
        "2713079b85a859813ef27556335f2646",
        "83def8dbce48e292bccffd01",
        "2805aafe9b5ee2d659232cc9",
        "639c734a364e51866bcfda675c0d7c",
        "22f546b9326e6c39c3aa5ffcffbcfa",
        "38052c217331aa4f807b484da037dc17",
    ),
    (
        "bc8aeec402409ea942ccaf1680d26ad7",
        "cd45ea3db52073266cec6258",
        "518f1202bcaf14fbba9718b2",
        "4c17e760a6b32344ae5cc07b0b365e82",
        "f0b14aeed693daa8cff692743223ba71",
        "6b81fdd2beb497897804ced3a26cee8a",
    ),
    (
        "f320aebddfd9382a712fa4a2a10096a5",
        "a41f0f35adb9074c78559e28",
        "e9675345daa4e9cc0a517a10dffce5cc",
        "d1448a4a04584aad80abd830678c13f938",
        "7d939dc0d086eb92141b1faf4c147ab31f",
        "050ac30d7661862b799d7c942d9c7c1b",
    ),
    (
        "4ee2b84436afcca7b992013221739739",
        "7af0ba783f0572e7e68defb5",
        "b53bb2cea7fc87f5c1a8850d4c1f692c604c2f22",
        "18ffa42065c5b50860e593f3003fe60c23657e733ae2cca32ccde5f7daaa76",
        "51eae28f838cccf153da74d663664c8e65ef4bcdd22cd5aa9d1ee6a631ae4e",
        "d6b11c56ca304cf2f3620521b725215e",
    ),
];

const SECOND: [Vector; 9] = [
    (
        "131aee77a49b5ab7c5ba2cce7790682d",
        "1cc43a8e887cf41638ba8ad0",
        "4fee8575f1b16b2700e4aa52e4",
        "8b3d2f038782d4b10e9ee9417eec4e0e080d89c0f7a02848d4a1dd49643b6df8",
        "143465fa9bc0866ea7dbbc49e073608976501bbeb410b715622cb0cae4c03d07",
        "8c3a4150af33f99378c298c9636efe17",
    ),
    (
        "5da79827b4ea7d392780e1d7a71acdd8",
        "9587fcfe7b6a1015cd81404d",
        "4bd266aa97ea24600c56286651f949d14a3d3887157c479564dfba7b085dbf56a680e09e75d511ef",
        "cbbee8b782ec5307eda28e93783b39e0223674ec33ecee1b65f0d9ab1d748f0b66a1593da340193829707204cf01246c65b7e9d96260f4a1c2833d2e0e230803",
        "0b496277749bb15156d9c6a8ec00d63ed962dce5d44393fb3dcb8fc715bc3c49dd2c6ef915e132b14646e5109326bd1df4b7204f615a902e4b83fdbca1926c4f",
        "338c1fc99408ccaa14f2c7202ba08fcb",
    ),
    (
        "063bd94fcf270d3a057fa6000a650e60",
        "8d507006bc52e41c17c3bb86",
        "958b3f211940034f5410c4061956205a0ee4c28c81ef245073c9d7a895fee4",
        "4c8f171ae24f2c9239e3c811fb8e232010cf14a02b944d952732acb2100f3ee0d8cc7482c7f99a98cbea8a4f82550e05857f444d01ce329364db00fba9bd69e32784b07fbdeff8797114b766306edf2b",
        "9d54686ee8ef881d9923a0ab7f3e248d73730d5494e8274471fb716fec53326ca1f8921a1d9f17bf05a4c88f6432795994300576eb24853c02d4bdf1b7c3e4c5f75747d673c7e033a42db5555664ae10",
        "953b8eaf44a9510bf5d5848d551f3360",
    ),
    (
        "544645a9b988385dd33747caec619c8a",
        "f4d1f0b153f298b6f7dcad71",
        "08072419bce978510ef7dcc65adf2aa6614ca2fae4fc141228406880a5ace7413b92e9d22a21e1fca2124310c77ffd93405dba3a33132c9eda85fc602c239ee7d85d190b12b630ab135c28d2397a5c50645b4a62fe5702beaa37f64b9b73a0a3c50385c8",
        "caed05ca925b8a7492482abc90dc16fbada80f8f83741ec4df203facd1aa0e1db9c77e3a38903855a57ca1f89e9fa05675894e53b6be7db9212b2e575d99ee6e33bb587b56acce5b48f6098d408dbdb2ab948553c0a60c6c2d3bf1befb5b2e92a4fc3e",
        "c5a777176865225e253e685b5e240282893b123273d795a351b8131f54c971a353cd4c7cb4e36f3e7f18bff48a6a05a7ca376b7ba14eab32981640da6b4c5efe82fb39de09eb46767cf313e86b2425faea0159134e7e0d08e8cdc78cdc25bd4c6136b8",
        "2e6be55b548e54f698cf479c75f70082",
    ),
    (
        "5476a205bb1a6ac819eaf4108550c7cd",
        "fbe25227f39bcb72498b793d",
        "46d02da98cdb7647002a68c1ff3453859daa1efa37704cd7b290c1d27be00b0e8a09252844dbce08ded32a5d616d7a016ad9ffa73b881ae4f92dc0d28cc8ec6b7cb96e4079e5131a",
        "fb6fe6ea80ed951c184e30368490110535b6e8e6f105824dd00fa3cf97e19191cd0cadc23dae79f29fe03d20d016ee9acd8290a696ead642783d9e01a6f210614b560b94db762ef3ff8a40e9771420378f35c3908910088a6d9d52b11c17e8798c2fb019",
        "647e6d9ce4e8dc532dfac92084136d88a538551cc3c31be9a0cf0d1b9c6947d5f878a2dc5741b8cf1cc996488cf8f4a7b2979e9db330708e1378f6e4a396c737ad2cc074f1ee8ae57a2f0f1f21b6b3a892aa81680b578fe0858dade39b98d5e3c5546938",
        "a6fce802c47e65916da514eca0821555",
    ),
    (
        "701cd26cd4c5557315bef2302e9d05d99c4cce9ebee06b62059b387b8b0cde9e",
        "7b81b5e421bfab423f16bd6e",
        "",
        "",
        "",
        "009c1a13ee7ee7d37b9db4af0dd841d4",
    ),
    (
        "100f308650ebd295858039be2c35c402c7bde1464b079cd64bc76b52d14beafb",
        "768fe77cb3cd1f8c74595f4f",
        "",
        "fe",
        "2e",
        "b7bc0ba4513e024b2559117a4fc1e8ea",
    ),
    (
        "da0143825fafcc11c427d20e25b7cde081955782b9f12b8c7e6493766aafe65b",
        "9fc114506ff0e977f5ea113b",
        "49",
        "",
        "",
        "1cd1b3f04c257bafd1cf2d42a2d505e0",
    ),
    (
        "ea4c55bbf7a3513ba3ecd854877c75ca23d4a4363a035c0d096bbabc47640ce6",
        "2f38bd12bd404b2329cf47e5",
        "49ce52cfebae3207258bf2e6",
        "9071ab37d93f25eab821424052ce6a",
        "d35b1498c31b3baf9c421a9b7c510a",
        "aa431a76a5d10542b37f33dad06e0c28",
    ),
];

const THIRD: [Vector; 9] = [
    (
        "004708de37473ad73ca9c730e10fb1e1b596cb2d9757b505e0f04677da84f6c2",
        "444aa0335235958813036d41",
        "853835efd1a9d5d67102835e",
        "7b19ef19e96ef19711c786bd0abfdf03",
        "bbd4f78bbb819245c975829791f9cf65",
        "649a133b24496cd3858240989c08e721",
    ),
    (
        "0376eb3d0fdb834b1e8d09c838c060ee8d2c7b8d7e0a51fc34f424a01e77f60a",
        "dc4d3440656446ca809484c3",
        "1f9c42981d94a09950ff50fcef5bb5fe",
        "cc9f821824c8f597e0d8aa3edd5c0096d9",
        "5c1b92810911af4dec5552c48d2e9cc56b",
        "08b2bb554f743a72dc12c91ddcc96166",
    ),
    (
        "0947238f7e8c4fa2aedd29c4f4354baa3fb2e5f310db1ece2fa57e830fb4ff3f",
        "c05477b366976743a187cf3e",
        "98df1f4c39ce856a526793d4716b80ba269241ed",
        "58705b9a97c79546d8a75815f909565f43565b33f2599b41060b01bbd436e7",
        "34160a52b86106502268152e23f513c3e0c7df6ef8e81ed512d6d60cd8476d",
        "128ef3f738da3a5c62bcfd1b3bbadf10",
    ),
    (
        "b407d634561fcb98a4c2e1aa6500d05e854a460339ee247a8f5711dc5f61745e",
        "7baa974057247b39dfddd707",
        "832173d63c977ab5d4033e32b5",
        "b20da148b638a70b601ac7fd7a300df49e3d1f81b31e87254349bd41fe5fae7c",
        "f4a963e0d4a0bcf686d08822f6ac29888379c3e8e02d698fb7a7de5f8a30d305",
        "e5caead969396d854a3f434ba850a942",
    ),
    (
        "432ff90ac8b63915a52668f809d74bf6c5b89c4e1e2859c4858fdbfb997fa73f",
        "131f974583c3727e694251e6",
        "72bcda690ef3f660dae889ac382b5f03bb5755209f348570e500bbf6eee6f7d88b56e36ae7593c2f",
        "098e732d81d4cbf49d112e93c0d735a2e17030bd9fbf6f28a60061627b88bf4382f016595f727b82e84e31b9712e37c1c38b468f762b78adea179dfedf6c599d",
        "a15c890c1367f1292f2b6dc88ef4b33ab888249633f1d0a7c6afbcb74520f67baa2f76b2f1cb0c37bdfd7c45fc5d9fa9e64707a6a1139bf91c536ab2069c663d",
        "63b8a4f1ab1b4c3697c7505476170a79",
    ),
    (
        "4150004afcce0ea160b6d088bea9fdaa4ec89649a6a511c37a3bc2705fb56f01",
        "d52859d0b2d78f2e6af902fa",
        "841ee45b4448f35d6f305be71a4cf8d06b6aea7180c3712703a6f8d0104d67",
        "1b48bab87dacd55d095b7cea78df24b457e69ab7aa5d7fd3a5235547accfeeb6ac15f06ca7873338def7d0acfd720b203c4380505f42706b9125f1fdb5f9d765203b1ce2096c8cb6ca6c99d1e8e63ea5",
        "cdc126d9bd95ce9359149fcf6c5cf980f19e903216175338a3d4250a1b6da398f48c34651f0d4e7ac1ddf2e67a514ad5f145865dbb71846835d7221c273e21d56c424ce2579b5cb178a374b40a8346a8",
        "bbf789436724d4ff6701953460685a8b",
    ),
    (
        "485232b07afa200cec33f983fdf233905726c8bdea68bebf66e45791bda96561",
        "5524e28ae68d72f824418e2e",
        "8d5ada6de15c264b6b0840666bacc8af8fbbfe0d5563410e2b5f6d2284e7b02263de0881af87433423b4a83ad19742b185653444db95291ce53bcb876a8cf019c335df5a0865a01c0e6794ef884de4789d756ed98d824947c9521327492c5e3b1efd256a",
        "fccbe3bf49ab6c5f6048f678349cef5b82df84ae25302e7dac5c39d6c1ea5b00d0ae0450ab27e18d79a18a12755d7c15be7b705d01ebef18422955d4f8ad49cfa289fe490ef44c197ea8f202f655957183d09bcc73632de0ab0ae3685b7c3e5cffd114",
        "4670fe99ed3e8c2163901ff8a0fa1f8fa90528277ef87f6697c67f09194bb2a9dcb64ec3900f82350b3e6b17743dc9f256c70ce96a5bb07529b567de2018b4f512858da9e8cdb29858362169aa5b37fb8cae448297fc4a88cb52ed1fd1bbb12cb3bc2b",
        "e9880d15ad118348d7242456caea13d9",
    ),
    (
        "7d833e296ff1a77eb08e59ea007b19a7210ab84f5952b8e61fc0021605e940aa",
        "b243aba7fa7e9d3d5a43db7b",
        "d24746c3021f0af5a0988c3e96889d624bcfed3aa1cf8d0592d79b7d5a4c5d319c597e23eb2dd009e91a07452ceabd1c67a64c83d273190d49f13a4b709a97099de1886e6c2ddf1e",
        "d73fb1503e6df2247559f82fb822115f586a336741a367581a3b2a1d46daa18f687d5868d9310cac995bee125475c39a52b1be57d902e46d7b0b00f39ea8fddf3bac9532def70f6faddbb8aef5d9f59023da82e76755f2a72b44560abc4a11c57a34c0f8",
        "657bd53edb6eb8bd59f0bdd859544ce4dc5a840eff8abf3f7e9e8955f35a5d23707618da522a9c47f1699f63716a5d3bce2b37d2405a16553d75dd57c7e336215c99866dd81dd6316e76de4f549314dc019345d0112f6cedc261d41ae076d1a3fa2d4324",
        "53db1121820d369bb650139a47f3a313",
    ),
    (
        "c2957f5eed8ed57d4fd880b255d18949808cc4db1bc62be4",
        "dbfbbe182d48dadf97b03e27",
        "047bce7ca1505b33b6f3d1d8",
        "87059ae5a984127bdbb679736d9d88448bdab150c90bf01811f5980b2461d2cb41",
        "a0048c14985d95b70ae5e2af78b0e9db301c275e1bc9e07d15b7fbea58c61339ce",
        "35d6f783672f002588d6b507c4a949ad",
    ),
];

// How many octets the longest text and the longest additional data have.
const LONGEST: usize = 100;

fn octets<const N: usize>(digits: &str) -> [u8; N] {
    let mut octets = [0; N];
    let size = (digits.len() / 2).min(N);
    let _ = hex::decode_to_slice(digits, &mut octets[..size]);
    octets
}

// How many octets a text in hexadecimal digits spells.
fn size(digits: &str) -> usize
    ensures { result ≤ 100 }
{
    (digits.len() / 2).min(LONGEST)
}

// Whether these are the octets that a text in hexadecimal digits spells.
fn spells(text: &[u8], digits: &str) -> bool {
    let all = octets::<LONGEST>(digits);
    let wanted = &all[..size(digits)];
    text == wanted
}

fn key_of(digits: &str) -> Option<AesKey> {
    let size = (digits.len() / 2).min(32);
    AesKey::new(&octets::<32>(digits)[..size])
}

// Whether what is sealed is the cipher text and the tag, and opens to the text.
fn seals_and_opens(row: &(&str, &str, &str, &str, &str, &str)) -> bool {
    let (key, iv, aad, plain, cipher, tag) = *row;
    let Some(key) = key_of(key) else {
        return false;
    };
    let iv = octets::<12>(iv);
    let tag = octets::<16>(tag);
    let aad_octets = octets::<LONGEST>(aad);
    let aad = &aad_octets[..size(aad)];
    let mut text_octets = octets::<LONGEST>(plain);
    let text = &mut text_octets[..size(plain)];
    let sealed = seal(&key, &iv, aad, text) == tag && spells(text, cipher);
    let opened = unseal(&key, &iv, aad, text, &tag).is_ok();
    sealed && opened && spells(text, plain)
}

// Whether nothing opens under the tag with octet i changed, and the cipher text stays.
fn refuses_wrong_tag(row: &(&str, &str, &str, &str, &str, &str), i: usize) -> bool {
    let (key, iv, aad, _, cipher, tag) = *row;
    let Some(key) = key_of(key) else {
        return false;
    };
    let iv = octets::<12>(iv);
    let mut wrong = octets::<16>(tag);
    wrong[i % 16] ^= 1 << (i % 8);
    let aad_octets = octets::<LONGEST>(aad);
    let aad = &aad_octets[..size(aad)];
    let mut text_octets = octets::<LONGEST>(cipher);
    let text = &mut text_octets[..size(cipher)];
    let refused = unseal(&key, &iv, aad, text, &wrong).is_err();
    refused && spells(text, cipher)
}

// Each vector seals and opens, and is refused with a wrong octet in its tag.
fn are_right(rt: &impl Abort, vectors: &[Vector]) {
    for row in vectors {
        assert!(rt; seals_and_opens(row), "tag {}", row.5);
        for octet in 0..16 {
            assert!(rt;
                refuses_wrong_tag(row, octet),
                "tag {}, octet {octet}",
                row.5
            );
        }
    }
}

#[test]
fn first_vectors(rt: HostRuntime) {
    are_right(&rt, &FIRST);
}

#[test]
fn second_vectors(rt: HostRuntime) {
    are_right(&rt, &SECOND);
}

#[test]
fn third_vectors(rt: HostRuntime) {
    are_right(&rt, &THIRD);
}

#[test]
fn tag_of_another_text(rt: HostRuntime) {
    let key = key_of("00000000000000000000000000000000").expect(&rt, "the length is one of a key");
    let mut text = octets::<16>("0388dace60b6a392f328c2b971b2fe78");
    let tag = octets::<16>("aa6e47d42cec13bdf53a67b21257bddf");
    assert_eq!(rt;
        unseal(&key, &[0; 12], &[], &mut text, &tag),
        Err(TagMismatch)
    );
    assert_eq!(rt; text, octets::<16>("0388dace60b6a392f328c2b971b2fe78"));
}

// ---- plain bodies

// A step of a generator of 64-bit numbers (xorshift).
fn next(state: &mut u64) -> u64 {
    *state ^= *state << 13;
    *state ^= *state >> 7;
    *state ^= *state << 17;
    *state
}

fn fill(state: &mut u64, octets: &mut [u8]) {
    for i in 0..octets.len() {
        octets[i] = (next(state) >> 32 & 0xff) as u8;
    }
}

// The product of two elements, one coefficient after the other.
fn plain_product(a: u128, b: u128) -> u128 {
    let mut sum = 0;
    let mut shifted = a;
    for i in 0..128u32 {
        if b >> (127 - i) & 1 == 1 {
            sum ^= shifted;
        }
        let carried = shifted & 1;
        shifted >>= 1;
        if carried == 1 {
            shifted ^= 0xe1 << 120;
        }
    }
    sum
}

// What becomes of a hash over octets, the last block filled up with zero octets.
fn plain_hash(hash_subkey: u128, hash: u128, octets: &[u8]) -> u128 {
    let mut hash = hash;
    for i in 0..octets.len().div_ceil(16) {
        let mut block = [0; 16];
        for j in 0..16 {
            if 16 * i + j < octets.len() {
                block[j] = octets[16 * i + j];
            }
        }
        hash = plain_product(hash ^ u128::from_be_bytes(block), hash_subkey);
    }
    hash
}

// The cipher of a counter block, by its last octet.
fn plain_mask(key: &AesKey, iv: &[u8; 12], last: u8) -> [u8; 16] {
    let mut block = [0; 16];
    for i in 0..12 {
        block[i] = iv[i];
    }
    block[15] = last;
    key.encrypt_block(&mut block);
    block
}

// Encrypts at most a hundred octets, octet by octet, and returns their tag.
fn plain_seal(key: &AesKey, iv: &[u8; 12], aad: &[u8], text: &mut [u8]) -> [u8; 16]
    requires aad_length { length aad.now ≤ 100 }
    requires text_length { length text.old ≤ 100 }
{
    for i in 0..text.len() {
        let mask = plain_mask(key, iv, (i / 16 + 2) as u8);
        text[i] ^= mask[i % 16];
    }
    let mut zeros = [0; 16];
    key.encrypt_block(&mut zeros);
    let hash_subkey = u128::from_be_bytes(zeros);
    let aad_hash = plain_hash(hash_subkey, 0, aad);
    let text_hash = plain_hash(hash_subkey, aad_hash, text);
    let lengths = (8 * aad.len() as u128) << 64 | 8 * text.len() as u128;
    let hash = plain_product(text_hash ^ lengths, hash_subkey);
    (hash ^ u128::from_be_bytes(plain_mask(key, iv, 1))).to_be_bytes()
}

// Whether a table multiplies one generated block by another as the plain body does.
fn multiplies(state: &mut u64) -> bool {
    let mut h = [0; 16];
    let mut block = [0; 16];
    fill(state, &mut h);
    fill(state, &mut block);
    let wanted = plain_product(u128::from_be_bytes(block), u128::from_be_bytes(h));
    HTable::new(&h).times(&mut block);
    u128::from_be_bytes(block) == wanted
}

// Whether the table of 1 leaves a generated block.
fn one_leaves(state: &mut u64) -> bool {
    let one = octets::<16>("80000000000000000000000000000000");
    let mut block = [0; 16];
    fill(state, &mut block);
    let before = block;
    HTable::new(&one).times(&mut block);
    block == before
}

// Whether a generated text of some octets is sealed as the plain body seals it.
fn seals_as_plain(state: &mut u64, aad_size: usize, text_size: usize) -> bool {
    let mut key = [0; 32];
    fill(state, &mut key);
    let Some(key) = AesKey::new(&key[..if text_size % 2 == 0 { 16 } else { 32 }]) else {
        return false;
    };
    let mut iv = [0; 12];
    fill(state, &mut iv);
    let mut octets = [0; LONGEST];
    fill(state, &mut octets);
    let aad = &octets[..aad_size.min(LONGEST)];
    let mut text = [0; LONGEST];
    fill(state, &mut text);
    let mut plain = text;
    let size = text_size.min(LONGEST);
    let tag = seal(&key, &iv, aad, &mut text[..size]);
    let wanted = plain_seal(&key, &iv, aad, &mut plain[..size]);
    tag == wanted && text == plain
}

#[test]
fn as_plain_bodies(rt: HostRuntime) {
    let mut state = 88172645463325252;
    for i in 0..300 {
        assert!(rt; multiplies(&mut state), "product {i}");
        assert!(rt; one_leaves(&mut state), "block {i}");
    }
    for size in 0..=100 {
        for aad_size in [0, 1, 16, 72, 100] {
            assert!(rt;
                seals_as_plain(&mut state, aad_size, size),
                "{size} octets, {aad_size} of additional data"
            );
        }
    }
}

// ---- packets for a benchmark

// Seals and opens packet i of 1200 octets, with 72 of additional data, and says whether it was opened.
fn passes(sealing: &AesKey, opening: &AesKey, i: u32, text: &mut [u8; 1200]) -> bool {
    let mut iv = [0; 12];
    iv[8..].copy_from_slice(&i.to_be_bytes());
    let tag = seal(sealing, &iv, &[0xa5; 72], text);
    unseal(opening, &iv, &[0xa5; 72], text, &tag).is_ok()
}

// Seals and opens so many packets, and says whether each was opened.
fn packets(key: &AesKey, count: u32) -> bool {
    let mut text = [0x5a; 1200];
    let mut opened = true;
    for i in 0..count {
        opened &= passes(key, key, i, &mut text);
    }
    opened && text == [0x5a; 1200]
}

// The same with the key expanded anew for each call.
fn packets_anew(key: &[u8], count: u32) -> bool {
    let mut text = [0x5a; 1200];
    let mut opened = true;
    for i in 0..count {
        let (Some(sealing), Some(opening)) = (AesKey::new(key), AesKey::new(key)) else {
            return false;
        };
        opened &= passes(&sealing, &opening, i, &mut text);
    }
    opened && text == [0x5a; 1200]
}

const KEY: &str = "feffe9928665731c6d6a8f9467308308feffe9928665731c6d6a8f9467308308";

#[test]
fn packets_128(rt: HostRuntime) {
    let key = AesKey::new(&octets::<32>(KEY)[..16]).expect(&rt, "the length is one of a key");
    assert!(rt; packets(&key, 500), "a packet didn't open");
}

#[test]
fn packets_256(rt: HostRuntime) {
    let key = key_of(KEY).expect(&rt, "the length is one of a key");
    assert!(rt; packets(&key, 500), "a packet didn't open");
}

#[test]
fn packets_128_anew(rt: HostRuntime) {
    assert!(rt;
        packets_anew(&octets::<32>(KEY)[..16], 500),
        "a packet didn't open"
    );
}

#[test]
fn packets_256_anew(rt: HostRuntime) {
    assert!(rt;
        packets_anew(&octets::<32>(KEY), 500),
        "a packet didn't open"
    );
}
