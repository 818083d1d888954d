// What is found where nobody joined.
use perc_base::Profile;
use perc_ekt::EktKeyRecord;
use perc_sent::Table;

// A record of this SPI, with a key of this octet.
fn record(spi: u16, octet: u8) -> EktKeyRecord {
    EktKeyRecord {
        key: [octet; 32],
        len: 32,
        salt: [octet; 12],
        spi,
        life: 0,
    }
}

#[test]
fn finds_records_by_their_spis(rt: HostRuntime) {
    let records = [record(1, 7), record(2, 8)];
    let table = Table {
        profile: Profile::Aes256,
        records: &records,
        members: &[],
        datagrams: &[],
    };
    for spi in &[0, 3, 65535] {
        assert!(rt; table.record_of(*spi).is_none());
    }
    for (spi, octet) in &[(1, 7), (2, 8)] {
        assert!(rt;
            table
                .record_of(*spi)
                .is_some_and(|found| found.key[0] == *octet)
        );
    }
    assert!(rt; table.member_of(1).is_none());
    assert!(rt; table.sent_as(1, 0).is_none());
}
