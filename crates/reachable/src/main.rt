#![tactic(auto)]

// Says of each line whether it is an IPv4 address, an IPv6 address or a host, whether it is global or
// well formed, and in which special-purpose block an address lies.
mod names;

use hostname::Hostname;
use ip_addr::{Block, IpAddr, Ipv4Addr, Ipv6Addr};
use std::{io, net};

// The most bytes that an address is written with: IPv6 with the last four octets as in IPv4.
const LONGEST: usize = 45;

// Whether a line has more zeros in a row than a number of an address can have.
fn has_many_zeros(line: &str) -> bool {
    let zeros = line.bytes().try_fold(0u8, |zeros, byte| match byte {
        b'0' if zeros < 4 => Some(zeros + 1),
        b'0' => None,
        _ => Some(0),
    });
    zeros.is_none()
}

// The address that a line has, or none. The parser reads all zeros that a number begins with, so it is
// not given a line that is too long for an address or has too many zeros in a row.
fn address(line: &str) -> Option<IpAddr> {
    if line.len() > LONGEST || has_many_zeros(line) {
        return None;
    }
    let address = match line.parse::<net::IpAddr>().ok()? {
        net::IpAddr::V4(address) => IpAddr::V4(Ipv4Addr {
            octets: address.octets(),
        }),
        net::IpAddr::V6(address) => IpAddr::V6(Ipv6Addr {
            octets: address.octets(),
        }),
    };
    Some(address)
}

fn print_address(rt: &HostRuntime, line: &str, address: IpAddr) -> io::Result<()> {
    let kind = match address {
        IpAddr::V4(_) => "ipv4",
        IpAddr::V6(_) => "ipv6",
    };
    let global = if address.is_global() {
        "global"
    } else {
        "not-global"
    };
    print!(rt; "{line} {kind} {global} ")?;
    match (address, address.most_specific()) {
        (_, None) => println!(rt; "-"),
        (IpAddr::V4(_), Some(block)) => print_v4_block(rt, block),
        (IpAddr::V6(_), Some(block)) => println!(rt; "{}", names::of_v6_block(&block)),
    }
}

fn print_v4_block(rt: &HostRuntime, block: Block) -> io::Result<()> {
    let [.., a, b, c, d] = block.base.to_be_bytes();
    println!(rt; "{a}.{b}.{c}.{d}/{}", block.prefix)
}

fn print_host(rt: &HostRuntime, line: &str) -> io::Result<()> {
    match Hostname::new(line.as_bytes()) {
        Ok(host) => {
            let form = if host.is_well_formed() {
                "well-formed"
            } else {
                "malformed"
            };
            println!(rt; "{line} host {form}")
        }
        Err(fault) => println!(rt; "{line} none refused-{}", fault.number()),
    }
}

fn run(rt: &HostRuntime) -> anyhow::Result<()> {
    let input = io::read_to_string(rt.alloc(), rt.stdin())?;
    for line in input.lines() {
        match address(line) {
            Some(address) => print_address(rt, line, address)?,
            None => print_host(rt, line)?,
        }
    }
    Ok(())
}

fn main(rt: HostRuntime) -> anyhow::Result<()> {
    run(&rt)
}
