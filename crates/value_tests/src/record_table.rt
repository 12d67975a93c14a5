use ip_addr::{IpAddr, Ipv4Addr};
use keys::SeatNumber;
use record::{DialStatus, Record, RecordFault, ReserveResult, Role};
use std::process::Abort;
use types::{Info, Ingress, Moment, SocketAddr, Span};

const COOLDOWN: Span = Span { millis: 1000 };

fn at(millis: u64) -> Moment {
    Moment { millis }
}

fn ingress(port: u16) -> Ingress {
    let octets = [10, 0, 0, 1];
    let ip = IpAddr::V4(Ipv4Addr { octets });
    Ingress::Socket(SocketAddr { ip, port })
}

fn info(stamp: u64, port: u16) -> Info<SeatNumber> {
    Info {
        ingress: ingress(port),
        timestamp: at(stamp),
        public_key: SeatNumber { number: 5 },
        signature: [0; 64],
    }
}

// A primary peer that was discovered at a port and is reserved for a dial there, at 2000.
fn dialled(rt: &impl Abort, draw: u64) -> Record<SeatNumber> {
    let mut record = Record::unknown();
    record.increment_primary();
    assert!(rt; record.update(info(10, 80)));
    let role = Role::Dialer(ingress(80));
    let result = record.reserve(at(2000), draw, COOLDOWN, role);
    assert_eq!(rt; result, ReserveResult::Reserved);
    record
}

// The moment from which on the peer can be dialled, with private addresses allowed.
fn after(record: &Record<SeatNumber>, now: u64) -> Option<u64> {
    match record.dialable(at(now), true, false) {
        DialStatus::After(moment) => Some(moment.millis),
        DialStatus::Now | DialStatus::Unavailable => None,
    }
}

#[test]
fn a_dial_that_came_up_has_not_failed(rt: HostRuntime) {
    let mut record = dialled(&rt, 0);
    assert_eq!(rt; record.connect(), Ok(()));
    assert_eq!(rt; record.connect(), Err(RecordFault::NotReserved));
    assert_eq!(rt; record.release(), Ok(()));
    assert!(rt; !record.want(1));
}

#[test]
fn a_dial_that_did_not_come_up_has_failed(rt: HostRuntime) {
    let mut record = dialled(&rt, 0);
    assert_eq!(rt; record.release(), Ok(()));
    assert!(rt; record.want(1));
    assert!(rt; !record.want(2));
    assert_eq!(rt; record.release(), Err(RecordFault::IsInert));
}

#[test]
fn a_dial_of_another_ingress_says_nothing(rt: HostRuntime) {
    let mut record = dialled(&rt, 0);
    assert!(rt; record.update(info(11, 81)));
    assert_eq!(rt; record.release(), Ok(()));
    assert!(rt; !record.want(1));
}

#[test]
fn only_newer_stamps_are_taken(rt: HostRuntime) {
    let mut record = Record::unknown();
    assert!(rt; record.update(info(10, 80)));
    assert!(rt; !record.update(info(10, 81)));
    assert!(rt; record.update(info(11, 82)));
    let mut own = Record::myself(info(10, 80));
    assert!(rt; !own.update(info(11, 81)));
}

#[test]
fn the_draw_says_how_late_the_next_dial_is(rt: HostRuntime) {
    let mut record = dialled(&rt, 500);
    assert_eq!(rt; record.release(), Ok(()));
    assert_eq!(rt; after(&record, 2000), Some(3500));
    assert_eq!(rt; after(&record, 3500), None);
    let mut record = dialled(&rt, 501);
    assert_eq!(rt; record.release(), Ok(()));
    assert_eq!(rt; after(&record, 2000), Some(3000));
}

#[test]
fn a_cooldown_limits_reservations(rt: HostRuntime) {
    let mut record = dialled(&rt, 0);
    assert_eq!(rt; record.release(), Ok(()));
    let early = record.reserve(at(2999), 0, COOLDOWN, Role::Listener);
    assert_eq!(rt; early, ReserveResult::RateLimited);
    let right = record.reserve(at(3000), 0, COOLDOWN, Role::Listener);
    assert_eq!(rt; right, ReserveResult::Reserved);
    let twice = record.reserve(at(9000), 0, COOLDOWN, Role::Listener);
    assert_eq!(rt; twice, ReserveResult::Unavailable);
    assert_eq!(rt; record.release(), Ok(()));
    assert!(rt; !record.want(2), "only the dial counts as a failure");
}

#[test]
fn numbers_of_the_faults(rt: HostRuntime) {
    assert_eq!(rt; RecordFault::NotReserved.number(), 16);
    assert_eq!(rt; RecordFault::IsInert.number(), 17);
}
