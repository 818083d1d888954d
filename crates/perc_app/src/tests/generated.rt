// A script of two rounds, by hand.
use perc_generator::make;
use std::test::Fail;

const TWO: &str =
    "conference 0009\nekt 01010101010101010101010101010101 020202020202020202020202\njoin Ann 00000001 65400 a1a1a1a1a1a1a1a1a1a1a1a1a1a1a1a1a1a1a1a1a1a1a1a1a1a1a1a1 a2a2a2a2a2a2a2a2a2a2a2a2a2a2a2a2a2a2a2a2a2a2a2a2a2a2a2a2 a3a3a3a3a3a3a3a3a3a3a3a3a3a3a3a3\njoin Bob 00000002 65400 b1b1b1b1b1b1b1b1b1b1b1b1b1b1b1b1b1b1b1b1b1b1b1b1b1b1b1b1 b2b2b2b2b2b2b2b2b2b2b2b2b2b2b2b2b2b2b2b2b2b2b2b2b2b2b2b2 b3b3b3b3b3b3b3b3b3b3b3b3b3b3b3b3\njoin Cat 00000003 65400 c1c1c1c1c1c1c1c1c1c1c1c1c1c1c1c1c1c1c1c1c1c1c1c1c1c1c1c1 c2c2c2c2c2c2c2c2c2c2c2c2c2c2c2c2c2c2c2c2c2c2c2c2c2c2c2c2 c3c3c3c3c3c3c3c3c3c3c3c3c3c3c3c3\nsend Ann 0 0 0 -\nforward Ann 1 shift=7\ndeliver 2 Bob\ndeliver 3 Cat\nsend Bob 1 1 160 01\nforward Bob 4 pt=100 shift=7\ndeliver 5 Ann\ndeliver 6 Cat\n";

const LAST: &str =
    "send Cat 29 1 4640 1d1d1d1d1d1d1d1d1d1d1d1d1d1d1d1d1d1d1d1d1d1d1d1d1d1d1d1d1d\nforward Cat 88 pt=100 shift=7\ndeliver 89 Ann\ndeliver 90 Bob\ndeliver 89 Ann\nrekey Cat 00000000000000000000000000000405\n";

#[test]
fn rounds(rt: HostRuntime) -> Result<(), Fail> {
    let mut script = Vec::new(rt.alloc());
    make(rt.alloc(), 2, &mut script)?;
    assert_eq!(rt; script.as_slice(), TWO.as_bytes());
    script.clear();
    make(rt.alloc(), 30, &mut script)?;
    assert!(rt; script.starts_with(TWO.as_bytes()));
    assert!(rt; script.ends_with(LAST.as_bytes()));
    Ok(())
}
