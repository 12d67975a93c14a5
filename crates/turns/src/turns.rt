ghost use Rattle.std.specs.Prelude.{◌≡◌, true, false, is_some, is_ok, if◌then◌else◌};
ghost use Rattle.types.specs.Times.{earlier};
ghost use Rattle.record.specs.Cases.{is_inert};
ghost use Rattle.record.specs.Records.{is_myself, reserved_at};
ghost use Rattle.record.specs.declared.role.Role.TheVariants.{Dialer};
ghost use Rattle.model.specs.declared.fault.Fault.TheVariants.{TooEarly};
ghost use Rattle.model.specs.Peers.{refuse, write, is_blocked, dial_turn, listen_turn, connect_turn, release_turn, kept};
ghost use Rattle.turns.specs.Turned.{written_or, turn_of, taken, Available};

use crate::turn::Turn;
use keys::Key;
use model::{Config, Fault};
use record::{DialStatus, Record, ReserveResult, Role};
use types::{Ingress, Moment, Span};

// Whether a peer is blocked at a moment, by the expiry of its block.
pub fn is_blocked(at: Moment, expiry: Option<Moment>) -> bool
    ensures { result ≡ is_blocked at expiry }
{
    expiry.is_some_and(|expiry| at < expiry)
}

// The ingress at which a peer can be dialled, or none where it is not available. One that is
// available is not ourselves, and inert.
fn dial_ingress<K: Key>(config: &Config, at: Moment, found: &Record<K>) -> Option<Ingress>
    ensures { Available config.now at found.now result }
{
    match found.dialable(at, config.allow_private_ips, config.allow_dns) {
        DialStatus::Now | DialStatus::After(_) => found.ingress(),
        DialStatus::Unavailable => None,
    }
}

// What dialing makes of the record of a peer, given the expiry of its block. Asked in this order: is
// there a record, can the peer be dialled, is it unblocked, is it not too early.
pub fn dialled<K: Key>(
    config: &Config,
    at: Moment,
    draw: u64,
    expiry: Option<Moment>,
    found: Option<Record<K>>,
) -> Result<Record<K>, Fault>
    ensures turn { written_or result ≡ dial_turn config.now at draw expiry found }
    ensures of_a_record { is_ok result ≡ true → is_some found ≡ true }
{
    let record = found.ok_or(Fault::NoRecord)?;
    let ingress = dial_ingress(config, at, &record).ok_or(Fault::NotDialable)?;
    if is_blocked(at, expiry) {
        return Err(Fault::Blocked);
    }
    reserved(at, draw, config.peer_connection_cooldown, ingress, record)
}

// The reservation of an inert peer other than ourselves for a dial, unless it is too early.
fn reserved<K: Key>(
    at: Moment,
    draw: u64,
    cooldown: Span,
    ingress: Ingress,
    mut found: Record<K>,
) -> Result<Record<K>, Fault>
    ensures { is_myself found.address ≡ false → is_inert found.status ≡ true → written_or result ≡ (if earlier at found.next_reservable_at then refuse TooEarly else write (reserved_at found at draw cooldown (Dialer ingress))) }
{
    match found.reserve(at, draw, cooldown, Role::Dialer(ingress)) {
        ReserveResult::Reserved => Ok(found),
        ReserveResult::RateLimited => Err(Fault::TooEarly),
        ReserveResult::Unavailable => Err(Fault::NotDialable),
    }
}

// What listening makes of the record of a peer, given the expiry of its block. Asked in this order:
// is it unblocked, is there a record, is the peer eligible, is it inert, is it not too early.
pub fn listened<K: Key>(
    config: &Config,
    at: Moment,
    draw: u64,
    expiry: Option<Moment>,
    found: Option<Record<K>>,
) -> Result<Record<K>, Fault>
    ensures turn { written_or result ≡ listen_turn config.now at draw expiry found }
    ensures of_a_record { is_ok result ≡ true → is_some found ≡ true }
{
    if is_blocked(at, expiry) {
        return Err(Fault::Blocked);
    }
    let mut record = found.ok_or(Fault::NoRecord)?;
    if !record.eligible() {
        return Err(Fault::NotEligible);
    }
    match record.reserve(at, draw, config.peer_connection_cooldown, Role::Listener) {
        ReserveResult::Reserved => Ok(record),
        ReserveResult::RateLimited => Err(Fault::TooEarly),
        ReserveResult::Unavailable => Err(Fault::NotInert),
    }
}

// What connecting makes of the record of a peer. Asked: is there a record, is it reserved.
pub fn connected<K: Key>(found: Option<Record<K>>) -> Result<Record<K>, Fault>
    ensures turn { written_or result ≡ connect_turn found }
    ensures of_a_record { is_ok result ≡ true → is_some found ≡ true }
{
    let mut record = found.ok_or(Fault::NoRecord)?;
    record.connect()?;
    Ok(record)
}

// What releasing makes of the record of a peer. Asked: is there a record, is it not inert.
pub fn released<K: Key>(found: Option<Record<K>>) -> Result<Turn<K>, Fault>
    ensures turn { turn_of result ≡ release_turn found }
    ensures of_a_record { is_ok result ≡ true → is_some found ≡ true }
{
    let mut record = found.ok_or(Fault::NoRecord)?;
    record.release()?;
    Ok(settled(record))
}

// A record that is written, or erased if nothing holds it.
fn settled<K: Key>(record: Record<K>) -> Turn<K>
    ensures { taken result ≡ kept «record» }
{
    if record.deletable() {
        Turn::Erase(record)
    } else {
        Turn::Write(record)
    }
}
