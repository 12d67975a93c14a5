ghost use Rattle.std.specs.Prelude.{◌≡◌, true, false};
ghost use Rattle.record.specs.Cases.{address_ingress, is_inert};
ghost use Rattle.record.specs.Records.{fresh, outbound_target, eligible as is_eligible, acceptable as is_acceptable, deletable as is_deletable, blockable, teardown, wanted, sharable as sharable_info, dial_status, granted, takes, updated, primary_up, primary_down, secondary_up, secondary_down, reserve_result, after_reserve, connect_answer, connected, came_up, release_answer, released, fell_through, with_address};
ghost use Rattle.record.specs.declared.address.Address.TheVariants.{Unknown, Myself, Bootstrapper};
ghost use Rattle.record.specs.declared.status.Status.TheVariants.{Reserved};

use super::address::Address;
use super::dialing::{DialStatus, ReserveResult};
use super::fault::RecordFault;
use super::role::Role;
use super::status::Status;
use keys::Key;
use types::{Info, Ingress, Moment, Span};

// The beginning of time.
const EPOCH: Moment = Moment { millis: 0 };

// What is known of a peer, and what there is between it and us.
#[derive(Clone, Copy)]
pub struct Record<K> {
    // What is known of the peer's address.
    address: Address<K>,
    // Whether there is a connection.
    status: Status,
    // How many sets have the peer as a primary.
    primary_sets: u64,
    // How many sets have the peer as a secondary.
    secondary_sets: u64,
    // Whether the record stays even if no set has the peer.
    persistent: bool,
    // The earliest moment at which the peer may be reserved again.
    next_reservable_at: Moment,
    // The earliest moment at which the peer is dialled again.
    next_dial_at: Moment,
    // What the peer is reserved for, while it is reserved or connected.
    role: Option<Role>,
}

// A new record of an address.
fn new_record<K: Key>(address: Address<K>, persistent: bool) -> Record<K>
    ensures { result ≡ fresh address persistent }
{
    Record {
        address,
        status: Status::Inert,
        primary_sets: 0,
        secondary_sets: 0,
        persistent,
        next_reservable_at: EPOCH,
        next_dial_at: EPOCH,
        role: None,
    }
}

impl<K: Key> Record<K> {
    // A new record of a peer whose address is not known.
    pub fn unknown() -> Self
        ensures { result ≡ fresh Unknown false }
    {
        new_record(Address::Unknown, false)
    }

    // A new record of ourselves.
    pub fn myself(info: Info<K>) -> Self
        ensures { result ≡ fresh (Myself info) true }
    {
        new_record(Address::Myself(info), true)
    }

    // A new record of a bootstrapper.
    pub fn bootstrapper(ingress: Ingress) -> Self
        ensures { result ≡ fresh (Bootstrapper ingress) true }
    {
        new_record(Address::Bootstrapper(ingress), true)
    }

    // Takes an info if it is news, and answers whether it did. Ours never is; any is where there is
    // none yet; else one that is newer.
    pub fn update(&mut self, info: Info<K>) -> bool
        ensures taken { result ≡ takes self.old.address info }
        ensures after { self.new ≡ updated self.old info }
    {
        let is_news = match self.address {
            Address::Myself(_) => false,
            Address::Unknown | Address::Bootstrapper(_) => true,
            Address::Discovered(old, _) => old.timestamp < info.timestamp,
        };
        if is_news {
            self.address = Address::Discovered(info, 0);
        }
        is_news
    }

    // One set more has the peer as a primary.
    pub fn increment_primary(&mut self)
        ensures { self.new ≡ primary_up self.old }
    {
        self.primary_sets = self.primary_sets.saturating_add(1);
    }

    // One set fewer has the peer as a primary.
    pub fn decrement_primary(&mut self)
        ensures { self.new ≡ primary_down self.old }
    {
        self.primary_sets = self.primary_sets.saturating_sub(1);
    }

    // One set more has the peer as a secondary.
    pub fn increment_secondary(&mut self)
        ensures { self.new ≡ secondary_up self.old }
    {
        self.secondary_sets = self.secondary_sets.saturating_add(1);
    }

    // One set fewer has the peer as a secondary.
    pub fn decrement_secondary(&mut self)
        ensures { self.new ≡ secondary_down self.old }
    {
        self.secondary_sets = self.secondary_sets.saturating_sub(1);
    }

    // Whether we are to dial the peer: it is primary in some set, or persistent.
    pub fn is_outbound_target(&self) -> bool
        ensures { result ≡ outbound_target self.now }
    {
        self.primary_sets > 0 || self.persistent
    }

    // Reserves the peer for a role, if it is not ourselves, is inert, and its moment has come.
    // Any other result leaves the record.
    pub fn reserve(&mut self, at: Moment, draw: u64, cooldown: Span, role: Role) -> ReserveResult
        ensures result { result ≡ reserve_result self.old at }
        ensures after { self.new ≡ after_reserve result self.old at draw cooldown role }
    {
        if !self.is_blockable() || !self.is_inert() {
            return ReserveResult::Unavailable;
        }
        if at < self.next_reservable_at {
            return ReserveResult::RateLimited;
        }
        self.status = Status::Reserved;
        self.role = Some(role);
        self.next_reservable_at = at.saturating_add(cooldown);
        self.next_dial_at = self.next_reservable_at.add_jittered(cooldown, draw);
        ReserveResult::Reserved
    }

    // Marks a reserved peer as connected. A dial that came up has not failed, so the peer has no
    // failures any more.
    pub fn connect(&mut self) -> Result<(), RecordFault>
        ensures answer { result ≡ connect_answer self.old.status }
        ensures after { self.new ≡ connected self.old }
    {
        if self.status != Status::Reserved {
            return Err(RecordFault::NotReserved);
        }
        self.dial_success();
        self.status = Status::Active;
        Ok(())
    }

    // Ends a reservation or a connection. A reservation of a dial that did not come up counts as a
    // failure.
    pub fn release(&mut self) -> Result<(), RecordFault>
        ensures answer { result ≡ release_answer self.old.status }
        ensures after { self.new ≡ released self.old }
    {
        match self.status {
            Status::Inert => return Err(RecordFault::IsInert),
            Status::Reserved => self.dial_failure(),
            Status::Active => {}
        }
        self.status = Status::Inert;
        self.role = None;
        Ok(())
    }

    // One failure more, if the peer was to be dialled at the ingress of the info that is held.
    fn dial_failure(&mut self)
        ensures { self.new ≡ with_address self.old (fell_through self.old.address Reserved self.old.role) }
    {
        if let Some(role) = self.role
            && let Role::Dialer(ingress) = role
            && let Address::Discovered(info, failures) = self.address
            && info.ingress.is_same(&ingress)
        {
            self.address = Address::Discovered(info, failures.saturating_add(1));
        }
    }

    // No failures any more, if the peer was dialled.
    fn dial_success(&mut self)
        ensures { self.new ≡ with_address self.old (came_up self.old.address self.old.role) }
    {
        if let Some(role) = self.role
            && let Role::Dialer(_) = role
            && let Address::Discovered(info, _) = self.address
        {
            self.address = Address::Discovered(info, 0);
        }
    }

    // Whether there is no reservation and no connection.
    pub fn is_inert(&self) -> bool
        ensures { result ≡ is_inert self.now.status }
    {
        self.status == Status::Inert
    }

    // Whether the peer can be blocked: all but ourselves can.
    pub fn is_blockable(&self) -> bool
        ensures { result ≡ blockable self.now }
    {
        !matches!(self.address, Address::Myself(_))
    }

    // Whether a reservation or connection is to be closed, since the peer is not eligible.
    pub fn needs_teardown(&self) -> bool
        ensures { result ≡ teardown self.now }
    {
        !self.is_inert() && !self.eligible()
    }

    // How many sets have the peer as a secondary.
    pub fn secondary_sets(&self) -> u64
        ensures { result ≡ self.now.secondary_sets }
    {
        let Record { secondary_sets, .. } = self;
        *secondary_sets
    }

    // How many sets have the peer as a primary.
    pub fn primary_sets(&self) -> u64
        ensures { result ≡ self.now.primary_sets }
    {
        let Record { primary_sets, .. } = self;
        *primary_sets
    }

    // Whether and when the peer can be dialled.
    pub fn dialable(&self, at: Moment, allow_private_ips: bool, allow_dns: bool) -> DialStatus
        ensures { result ≡ dial_status self.now at allow_private_ips allow_dns }
    {
        if !self.is_inert() || !self.is_outbound_target() {
            return DialStatus::Unavailable;
        }
        let ingress = match self.address {
            Address::Bootstrapper(ingress) => ingress,
            Address::Discovered(info, _) => info.ingress,
            Address::Unknown | Address::Myself(_) => return DialStatus::Unavailable,
        };
        if !ingress.is_valid(allow_private_ips, allow_dns) {
            return DialStatus::Unavailable;
        }
        if at < self.next_dial_at {
            DialStatus::After(self.next_dial_at)
        } else {
            DialStatus::Now
        }
    }

    // Whether the peer may connect to us: it is eligible, and inert.
    pub fn acceptable(&self) -> bool
        ensures { result ≡ is_acceptable self.now }
    {
        self.eligible() && self.is_inert()
    }

    // The peer's ingress, if it is known.
    pub fn ingress(&self) -> Option<Ingress>
        ensures { result ≡ address_ingress self.now.address }
    {
        match self.address {
            Address::Unknown => None,
            Address::Bootstrapper(ingress) => Some(ingress),
            Address::Myself(info) | Address::Discovered(info, _) => Some(info.ingress),
        }
    }

    // The info that may be given to others: our own, or that of a connected peer.
    pub fn sharable(&self) -> Option<Info<K>>
        ensures { result ≡ sharable_info self.now }
    {
        match (self.address, self.status) {
            (Address::Myself(info), _) => Some(info),
            (Address::Discovered(info, _), Status::Active) => Some(info),
            _ => None,
        }
    }

    // Whether we ask for news of the peer: never of ourselves; always where there is no info; else
    // if dialing it has failed as often as the limit says and it is not connected.
    pub fn want(&self, limit: u64) -> bool
        ensures { result ≡ wanted limit self.now }
    {
        match self.address {
            Address::Myself(_) => false,
            Address::Unknown | Address::Bootstrapper(_) => true,
            Address::Discovered(_, failures) => failures >= limit && self.status != Status::Active,
        }
    }

    // Whether the record can be deleted: in no set, not persistent, inert.
    pub fn deletable(&self) -> bool
        ensures { result ≡ is_deletable self.now }
    {
        self.primary_sets == 0 && self.secondary_sets == 0 && !self.persistent && self.is_inert()
    }

    // Whether there may be a connection to the peer: it is not ourselves, and is in some set or
    // persistent.
    pub fn eligible(&self) -> bool
        ensures { result ≡ is_eligible self.now }
    {
        self.is_blockable() && (self.primary_sets > 0 || self.secondary_sets > 0 || self.persistent)
    }

    // The role of the reservation or connection, as granted; none while inert.
    pub fn metadata(&self) -> Option<Role>
        ensures { result ≡ granted self.now }
    {
        if self.is_inert() { None } else { self.role }
    }
}
