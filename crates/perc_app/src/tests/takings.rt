// Datagrams that don't open.
use perc_base::Memory;
use perc_distributor::InboundFault;
use perc_forwarder::Distributor;

// Whether this datagram stands in this place of the list, and doesn't open for this reason.
fn is_refused(distributor: &Distributor, place: usize, number: u32, fault: InboundFault) -> bool {
    let Some(taking) = distributor.takings.get(place) else {
        return false;
    };
    taking.number == number && taking.fault == Some(fault)
}

#[test]
fn takes_in_turn(rt: HostRuntime) -> Result<(), Memory> {
    let from = [1; 16];
    let mut distributor = Distributor::new(rt.alloc())?;
    distributor.begin();
    assert!(rt; distributor.take(&from, 7, b"").is_ok());
    assert!(rt; distributor.take(&from, 9, b"\x80\x60\x00").is_ok());
    assert!(rt; is_refused(&distributor, 0, 7, InboundFault::NotMedia));
    assert!(rt; is_refused(&distributor, 1, 9, InboundFault::NoAssociation));
    distributor.begin();
    assert!(rt; distributor.takings.is_empty());
    Ok(())
}
