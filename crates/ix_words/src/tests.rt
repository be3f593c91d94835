use crate::{dotted_of, hex8_of, number_of, push_dotted, push_hex8, push_place, split_part};
use std::test::Fail;

const NUMBERS: [(&str, u64, Option<u64>); 12] = [
    ("0", 255, Some(0)),
    ("255", 255, Some(255)),
    ("256", 255, None),
    ("00", 255, None),
    ("01", 255, None),
    ("", 255, None),
    ("-1", 255, None),
    ("1a", 255, None),
    ("+1", 255, None),
    ("18446744073709551615", u64::MAX, Some(u64::MAX)),
    ("18446744073709551616", u64::MAX, None),
    ("99999999999999999999", u64::MAX, None),
];

#[test]
fn numbers(rt: HostRuntime) -> Result<(), Fail> {
    for (word, high, number) in NUMBERS {
        if high >= 9 {
            assert!(rt; number_of(word.as_bytes(), high) == number);
        }
    }
    Ok(())
}

const HEX: [(&str, Option<u32>); 6] = [
    ("00000000", Some(0)),
    ("ffffffff", Some(u32::MAX)),
    ("51ccc178", Some(0x51cc_c178)),
    ("51CCC178", None),
    ("1ccc178", None),
    ("051ccc178", None),
];

#[test]
fn eight_digits(rt: HostRuntime) -> Result<(), Fail> {
    for (word, number) in HEX {
        assert!(rt; hex8_of(word.as_bytes()) == number);
    }
    Ok(())
}

const ADDRESSES: [(&str, Option<u32>); 6] = [
    ("66.9.149.187", Some(0x4209_95bb)),
    ("255.255.255.255", Some(u32::MAX)),
    ("256.0.0.0", None),
    ("1.2.3", None),
    ("1.2.3.4.", None),
    ("1.2.3.04", None),
];

#[test]
fn addresses(rt: HostRuntime) -> Result<(), Fail> {
    for (word, number) in ADDRESSES {
        assert!(rt; dotted_of(word.as_bytes()) == number);
    }
    Ok(())
}

#[test]
fn written(rt: HostRuntime) -> Result<(), Fail> {
    let mut out = String::new(rt.alloc());
    push_dotted(&mut out, 0x4209_95bb)?;
    out.push_str(" ")?;
    push_place(&mut out, 1, 1023)?;
    out.push_str(" ")?;
    push_hex8(&mut out, 0x1c_c178)?;
    assert!(rt; out.as_str() == "66.9.149.187 1.1023 001cc178");
    Ok(())
}

#[test]
fn parts(rt: HostRuntime) -> Result<(), Fail> {
    let (first, rest) = split_part(b"a b", b' ');
    assert!(rt; first == b"a".as_slice());
    assert!(rt; rest == Some(b"b".as_slice()));
    let (whole, none) = split_part(b"ab", b' ');
    assert!(rt; whole == b"ab".as_slice());
    assert!(rt; none == None);
    Ok(())
}
