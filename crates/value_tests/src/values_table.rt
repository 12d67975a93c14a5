use hostname::{Hostname, MalformedHost};
use std::test::Fail;
use types::{BitVec, Moment, Span, earliest};

// Hosts, and whether they are well formed.
const HOSTS: [(&str, bool); 24] = [
    ("a", true),
    ("Z", true),
    ("9", true),
    ("3com.com", true),
    ("1.2.3.4", true),
    ("a--b", true),
    ("A.B-C.d9", true),
    ("0-0.0", true),
    ("", false),
    (".", false),
    ("a.", false),
    (".a", false),
    ("a..b", false),
    ("-", false),
    ("-a", false),
    ("a-", false),
    ("a.-b", false),
    ("a-.b", false),
    ("a_b", false),
    ("a b", false),
    ("a/b", false),
    ("a:80", false),
    ("a@b", false),
    ("a[b", false),
];

#[test]
fn hosts(rt: HostRuntime) -> Result<(), Fail> {
    for (text, formed) in HOSTS {
        let host = Hostname::new(text.as_bytes())?;
        assert_eq!(rt; host.is_well_formed(), formed, "{}", text);
        assert_eq!(rt; host.len(), text.len());
    }
    Ok(())
}

#[test]
fn hosts_at_their_limits(rt: HostRuntime) -> Result<(), Fail> {
    assert!(rt; Hostname::new(&[b'a'; 63])?.is_well_formed());
    assert!(rt; !Hostname::new(&[b'a'; 64])?.is_well_formed());
    assert!(rt; Hostname::new(&[b'.'; 253]).is_ok());
    let Err(fault) = Hostname::new(&[b'a'; 254]) else {
        return Err(Fail::new("254 bytes cannot be held"));
    };
    assert_eq!(rt; fault.number(), 2);
    let short = Hostname::new(b"a")?;
    let padded = Hostname::new(b"a\0")?;
    assert!(rt; !short.is_same(&padded));
    assert!(rt; short.is_same(&Hostname::new(b"a")?));
    assert_eq!(rt; padded.byte_at(1), Some(0));
    assert_eq!(rt; padded.byte_at(2), None);
    Ok(())
}

// The refusal is printed in the width that is asked for, and cut where it is to be cut.
#[test]
fn a_refusal_is_padded(rt: HostRuntime) -> Result<(), Fail> {
    let fault = MalformedHost;
    assert_eq!(rt;
        format!(in rt.alloc(); "{fault}")?.as_str(),
        "the host is malformed"
    );
    assert_eq!(rt;
        format!(in rt.alloc(); "{fault:>24}")?.as_str(),
        "   the host is malformed"
    );
    assert_eq!(rt; format!(in rt.alloc(); "{fault:.8}")?.as_str(), "the host");
    Ok(())
}

#[test]
fn sums_stop_at_the_last_moment(rt: HostRuntime) {
    let start = Moment { millis: 2000 };
    let span = Span { millis: 1000 };
    assert_eq!(rt; start.saturating_add(span).millis, 3000);
    assert_eq!(rt; start.add_jittered(span, 500).millis, 2500);
    assert_eq!(rt; start.add_jittered(span, 501).millis, 2000);
    let forever = Span { millis: u64::MAX };
    assert_eq!(rt; start.saturating_add(forever).millis, u64::MAX);
    let none = Span { millis: 0 };
    assert_eq!(rt; start.add_jittered(none, 7).millis, 2000);
    assert_eq!(rt; earliest(None, start).millis, 2000);
    assert_eq!(rt; earliest(Some(Moment { millis: 1 }), start).millis, 1);
}

#[test]
fn bits(rt: HostRuntime) -> Result<(), Fail> {
    assert!(rt; BitVec::new(7, 65).is_none());
    let Some(mut vector) = BitVec::new(7, 11) else {
        return Err(Fail::new("eleven bits fit"));
    };
    assert!(rt; vector.set(0, true));
    assert!(rt; vector.set(9, true));
    assert!(rt; vector.set(10, true));
    assert!(rt; vector.set(10, false));
    assert!(rt; !vector.set(11, true));
    assert_eq!(rt; vector.bytes, [1, 2, 0, 0, 0, 0, 0, 0]);
    assert_eq!(rt; vector.get(9), Some(true));
    assert_eq!(rt; vector.get(10), Some(false));
    assert_eq!(rt; vector.get(11), None);
    Ok(())
}
