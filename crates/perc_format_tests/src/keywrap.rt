// Key wrap against outside vectors, altered octets and lengths.
ghost use Rattle.std.specs.Prelude.{◌<◌, ◌≤◌, length, vec_len};

use perc_aes::AesKey;
use perc_keywrap::{UnwrapFault, unwrap, wrap};
use std::alloc::Global;
use std::process::Abort;

// Key, plain text and what it is wrapped to.
const WRAPPED: [(&str, &str, &str); 24] = [
    (
        "5840df6e29b02af1ab493b705bf16ea1ae8338f4dcc176a8",
        "466f7250617369",
        "afbeb0f07dfbf5419200f2ccb50bb24f",
    ),
    (
        "5840df6e29b02af1ab493b705bf16ea1ae8338f4dcc176a8",
        "c37b7e6492584340bed12207808941155068f738",
        "138bdeaa9b8fa7fc61f97742e72248ee5ae6ae5360d1ae6a5f54f373fa543b6a",
    ),
    (
        "67d98ff23579fcc96110ffcb3c89a2b8",
        "4e",
        "0ccefc9c70f91f2dc62c5e797445cbf1",
    ),
    (
        "8e5e00dc46a4043c0f352837f83ed899ba3c75c3d84b4b0d4c181f905e11a39c",
        "107e898410f63d",
        "e23374d7aed43b4fa1d3f11447cd55ca",
    ),
    (
        "c22814cc1b64d31c4273951669f5be50a110d09f8e10f788",
        "0f167741f35b0859",
        "84edaa564ca77b4c66e89d2f70ac8ca8",
    ),
    (
        "80b9bbff7c9fa83da982af8fdd9707ef",
        "f06e11fa173eb6754d",
        "7d06c98e706218017c0bbae282d0b5c9f99be8d2023891ca",
    ),
    (
        "da5a1924746adfacb6ef658235ccf5d1db5bd7f93c32ba00ec686aa97c3feadd",
        "a5e7925cede54ed4a87d6f3e6d45e4",
        "b14830a2a4aec57ffff7146068f01b031eb5fa8372688056",
    ),
    (
        "0c3ff3256fe0de6c4a2db10c84f482139623419b99ae5980",
        "f178d6b2f95bf8065d641ebd36fd3d15",
        "87040af4d0b6dfd278750d236137d85e5aaddded61cd324f",
    ),
    (
        "8fee375a6faca8071565c6cf65231a64",
        "9beaaf3b8583ffc9f3588f14f4900311f2",
        "38560631709b089a6fb5dd4a2d1bc49c5827efa185974884e3b231f85754db7e",
    ),
    (
        "2323b971b0c7c5ea38bc990c6173a0ab130bb60b27743fb1260477d86670a91f",
        "5ad11626ed9daabaf29f5bedc131b7e55be13e34b3115e13",
        "a582d52487f7b82bd6898db43cda22a185c5ef8149fadbd10b136cd7f043655f",
    ),
    (
        "417e1d85331a8b19da2f25974412ecd98b4abfff2018ed0d",
        "080b325ee495137a6d85c64134e092f0d896c56b0e6964e755",
        "52522de53997ca47acbdc346b5ac47383176149346055cbba2a73d312fac64679da0f09a161a7ec9",
    ),
    (
        "97cf862eca98fd48e3eab4fa70e41192",
        "b62efb37f7104db585eca2e42f4ed10cfc00870e811b3493ae0a78d61693bc",
        "6ed13d5a5d2b5223ddc3a5d1a1e442b0c34d2f50ff3eefb8eca1454058fd03ebb7cde49085c58fb3",
    ),
    (
        "8ada58cc960048b01d36ce8d0f1be13d6097727f131eaa10bb23364b0b01369e",
        "750034136dfc1ff0cd2b38a1837bc190b5c99b2f3556c8bbd67b3d84f19ae1b7",
        "1d2729f6acd330753a636ac2a7038125f3abd9506e76da1646045c707faa3d66e28871954ee62d09",
    ),
    (
        "d99195a326cdde166ccf8ec060e45ae11bce760bad8456fa",
        "c608db62f579cbc67810bbc0bc63e253e5ea44c6d359626287654e360fbbd36093",
        "56bac69408925242a61d5f203c4b1f053496002895f8b8e74676271a1b4fe489b116febb784d4968c32c683da43bc636",
    ),
    (
        "20b4c9f4ec00b4fda6ee6e9166a6d649",
        "d5db30b797a83d4a575e431ae638a0039f954513cd5a33cc8137793fee414a92a295ee4ea5b349d2",
        "8dc0e537786a244b1f59cf8a709ac3ded7ed6cb06820b04679998ba89479dd20b55dacf24dfccdcf8b983104b518c1a4",
    ),
    (
        "8dcc42ff9e2783bf70b28770f54aa14b25c73e20b49a8ec9cb9eccd4229f5be1",
        "7e52fa5e7a03df95a9af597eac09df12b46a8fedba2418dc8d44ddd96e86b58a73c35d32f784de4435",
        "32591a0868b2ebd3d9f51de4d2d5c9436b02f17322737758fcf06910b2fb99154018f61776706f67e05d475e7dab809099451c92c0dc3d97",
    ),
    (
        "d7eee6fd68d105c212e2a3c06832a9d354d0f967da520a78",
        "ce90386d5eadba6f7d2c944f859912de4c31dc3dcb3fa90c32f31f66d7c7d3354ae8bfd070357f9ab7052c45e61f52c97acdc48b19fd2d21",
        "dc769dd61a0ca46695a992cf58790c4db6c0ed496224c70e0df338bd6f220e5e4e6104e14b330980a785104a55c010c13d66fbab88eef83575b5d4223593c930",
    ),
    (
        "1ce9f1f76efd102f3b6bdaf5373b5743",
        "8636131f7d4014614768cb2533b9530d9c53befbdbcf76dcfdfbad5a997926a542c26b317b83795d236f6f712320c6283968d35d2c4f33f7270809f7cc6771",
        "8820544e057187c47ba5d0eff079874c26f9cbdfe689576e8265bec7726652d612d428b436f66d769bb4372ac2a741f5823b06ec26c96c458335b7acf473264510c8cfcdbc7281cb",
    ),
    (
        "fc91b06fa50b99cea296b3e7e8902c791147e14faf782999e0432f2e6cf80208",
        "35e3d3e4770e7c25a2660404cd07a2df5bc6a7c0c471c6f548fc3040f741c903e8c5b2d2593a9e0356d2cc210452bca566c307a2a61e93cd574769128c005ab1",
        "138ca76712dda4386ccca5249086a8cac3ba6f33ff44daf5466b0bc629d7b849bce2a10627a44074e815c98ba6ca5b90ec2799487b8cb6e3a6f8d7880ffd308ba6f00d8f974e7f0b",
    ),
    (
        "22fb210e18f436c515761f358b629ed9",
        "9f59f2a66f84d2e17854c388a941570b9709e20840ffda69b1",
        "2ba6f988a403b18eee97164503339b8cf740fd210f1f6128162bcd8be5d3346457a07d9cc61d0cec",
    ),
    (
        "e9e0b44a30f906d0a69a132d3c1de1bac5acf4bd96d1703bb6bf2d280fc38331",
        "158663606aa143211b7cc663eb08197c56d3a7bbe1a1901a4c856299553dd1a90bb822950e60611465",
        "a87d175cb052877724b7b96d84ff751f75fe01a3c1b691ddc04e908c41f6ccc524ab321c4b1a66493c9ce3802a130470c6ac91a8a2891909",
    ),
    (
        "abf9e6fcaa96bc28093331bc76814f3b",
        "07",
        "942c37beb5b7048274bb7fd46af64eb2",
    ),
    (
        "8b903eee4c879522d71e002657c47e17",
        "1a0e1441480825ab59",
        "4ac36e7e432049d23812ed8dcfd2400320188e83b159cc8c",
    ),
    (
        "7bf1d0ad7ffa155d4bc689d72c717d2b",
        "060aba1fe6eaf5f5d216695339eba6de058a2bd5ca0518f3",
        "c76cc48491b1ebebe7244779a8d0b09a6e9aaa21455d5592d28e0f58e310d2f6",
    ),
];

// Key, and octets to which nothing is wrapped.
const WRONG: [(&str, &str); 21] = [
    (
        "38bccfb4aad8c2dd9dcc876486efc12a",
        "53bb0341a2297642c168bf034e137478f1eba20ae8e3cede",
    ),
    (
        "0126048bee71389724cc07a961595675",
        "db90811964bee0789a9f80d64aa6f1c7f8b2d964fe494789",
    ),
    (
        "62a83eab55ef4ee1d528173772c409c9",
        "d8a9d8dfcc9b866f5f966f497e43d0ccb56b139873b84758",
    ),
    (
        "dd7b6cc76b7812018909c73c8287d810",
        "169c4f03bc0ecc335ad8979caf641235b8850505dac10408",
    ),
    (
        "75032d2d94efafe1bb159d79d4fb342f",
        "160b5ee31b98ef0cf02b15ce49f059aec4dfbcfccf79380a",
    ),
    (
        "08bc674fdf4f29c0c8b2bee11c8a2fb2",
        "9cffa94d9f8a9a6afab8540043751d935e3883134d91c6aab0a64a5de5dd2fdd",
    ),
    (
        "547f8404f183d1cdae93d54fefc85ea2",
        "bdbff06c1e8b39bd516645706e6bd39e22f2b404dee63d8cb660e54804935270",
    ),
    (
        "bea7abf1d133911da3bb4d9da5f5911c",
        "57aa955cfe963e2b4e59d27adbb85c7bd409f753bf18327b49eee563059a51a6",
    ),
    (
        "3149a51ad233a9b3c3dd68a53ce571a6",
        "8dd6b2987be8c77f9d07a53c10c778e8c54e156bb114a2fc39dcd96074d593aa",
    ),
    (
        "6a4cbc7b0dd650be2717b4c20ad83652",
        "21a175f6af7c1f881252098c37db7918eb58e180f6515fa14eee91b87bbc0184",
    ),
    (
        "1b700e7b627be656d4eeefeb282312fd",
        "2fdb40ef34ea024ccc59ec1fedc6c87d4e2b5840c951b8d0",
    ),
    (
        "bef5b8a3e8379c66a8dc3e0eeee8e9a5",
        "a0341a306c2f53da00ff0d128f3e4b2bf3d5803ce8eae13c",
    ),
    (
        "11fea4fb3210ff6c3af19d2328e47ad9",
        "7afbf03e668e6225caf9b57a7debe092",
    ),
    (
        "7c76b3ca68426663c1e094a8be5f303f",
        "c7d0b55b9681736ef4452f83ca11d178",
    ),
    (
        "eb603a6e404a3d448dd2390d21702a8c",
        "556e4a628593d00ebd96792e182c165b",
    ),
    (
        "319bd9b4a3d5a35ff27931a3effe8855",
        "67895c2ece9ee05a61f4fe04de073e9d6cef0fbf0e0a4fcc",
    ),
    (
        "4f7babad0b8c707161ff4553136e158d",
        "53031aa6868672e8730b6a707e76f8e2f731919520940c82",
    ),
    (
        "5fde596d743c31f6395fd7f5df1ec8d1",
        "1851beb939d00746119c7a59227caa4cf3e076fc3e6c247689f29b76ffa2b423",
    ),
    (
        "c8fa6f4f3d2b92c0ae10f25cf1f696a6",
        "123ff99bce3f7d369279319e80cdbb454c67dde6ca0dc6831cedaa41361df169",
    ),
    (
        "c9d4c752761aa21470934223b044894d",
        "50e347560bd1cc086a64c921603553d201bc3e83ab06ba1e",
    ),
    (
        "44d2ac2090f0a866708932777adeda6c",
        "de05098ba133bd27b788438326d2daab15586e8895d33d0b",
    ),
];

// The octets that a text spells.
fn octets(rt: &impl Abort, alloc: Global, text: &str) -> Vec<u8>
    ensures { vec_len result ≤ 80 }
{
    let octets = hex::decode(alloc, text).expect(rt, "the text is hexadecimal");
    assert!(rt; octets.len() <= 80, "{text}");
    octets
}

fn key_of(rt: &impl Abort, alloc: Global, text: &str) -> AesKey {
    AesKey::new(&octets(rt, alloc, text)).expect(rt, "the length is one of a key")
}

#[test]
fn both_directions(rt: HostRuntime) {
    for (key, plain, wrapped) in &WRAPPED {
        let key = key_of(&rt, rt.alloc(), key);
        let plain = octets(&rt, rt.alloc(), plain);
        let wrapped = octets(&rt, rt.alloc(), wrapped);
        let mut out = [7; 80];
        assert_eq!(rt; wrap(&key, &plain, &mut out), Some(wrapped.len()));
        assert!(rt; out.starts_with(&wrapped));
        assert!(rt; out.iter().skip(wrapped.len()).all(|octet| *octet == 7));
        let mut octets = wrapped;
        assert_eq!(rt; unwrap(&key, &mut octets), Ok(plain.len()));
        assert!(rt; octets.starts_with(&plain));
    }
}

#[test]
fn nothing_wrapped(rt: HostRuntime) {
    for (key, wrapped) in &WRONG {
        let mut out = octets(&rt, rt.alloc(), wrapped);
        assert_eq!(rt;
            unwrap(&key_of(&rt, rt.alloc(), key), &mut out),
            Err(UnwrapFault::Check)
        );
    }
}

// Whether octets with one bit changed are refused.
fn is_refused(key: &AesKey, wrapped: &[u8], k: usize, bit: u32) -> bool
    requires { (length wrapped.now ≤ 80) × (bit < 8) }
{
    let mut out = [0; 80];
    let out = &mut out[..wrapped.len()];
    out.copy_from_slice(wrapped);
    if let Some(octet) = out.get_mut(k) {
        *octet ^= 1 << bit;
    }
    unwrap(key, out) == Err(UnwrapFault::Check)
}

#[test]
fn a_bit_changed(rt: HostRuntime) {
    let key = key_of(
        &rt,
        rt.alloc(),
        "417e1d85331a8b19da2f25974412ecd98b4abfff2018ed0d",
    );
    let wrapped = octets(
        &rt,
        rt.alloc(),
        "52522de53997ca47acbdc346b5ac47383176149346055cbba2a73d312fac64679da0f09a161a7ec9",
    );
    for k in 0..wrapped.len() {
        for bit in 0..8 {
            assert!(rt;
                is_refused(&key, &wrapped, k, bit),
                "bit {bit} of octet {k}"
            );
        }
    }
}

#[test]
fn lengths(rt: HostRuntime) {
    let key = AesKey::new(&[1; 16]).expect(&rt, "the length is one of a key");
    let mut out = [0; 40];
    assert_eq!(rt; wrap(&key, &[], &mut out), None);
    for room in 0..41 {
        let wanted = if room < 24 { None } else { Some(24) };
        assert_eq!(rt;
            wrap(&key, &[5; 9], &mut out[..room]),
            wanted,
            "room for {room}"
        );
    }
    for len in 0..41 {
        let fault = if len < 16 || len % 8 != 0 {
            UnwrapFault::Length
        } else {
            UnwrapFault::Check
        };
        let mut zeros = [0; 40];
        assert_eq!(rt; unwrap(&key, &mut zeros[..len]), Err(fault), "{len} octets");
    }
}

#[test]
fn longest(rt: HostRuntime) {
    let key = AesKey::new(&[1; 16]).expect(&rt, "the length is one of a key");
    let plain = vec![in rt.alloc(); 5; 4096].expect(&rt, "memory for a text");
    let mut out = vec![in rt.alloc(); 0; 4112].expect(&rt, "memory for a text");
    assert_eq!(rt; unwrap(&key, &mut out), Err(UnwrapFault::Length));
    assert_eq!(rt; wrap(&key, &plain, &mut out), Some(4104));
    out.truncate(4104);
    assert_eq!(rt; unwrap(&key, &mut out), Ok(4096));
    out.truncate(4096);
    assert!(rt; out == plain);
}
