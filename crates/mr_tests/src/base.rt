use mr_base::{
    Answer, ByteKey, Fault, Faults, Few, Key, Memory, NumKey, Patterns, Rows, SliceKey, Status,
    Text, TextKey, Word, fnv1a, read_number,
};
use std::alloc::Global;
use std::test::Fail;
use std::thread;

#[test]
fn numbers_in_form(rt: HostRuntime) {
    let cases: [(&[u8], Option<i64>); 9] = [
        (b"-0", Some(0)),
        (b"007", Some(7)),
        (b"-12", Some(-12)),
        (b"9223372036854775807", Some(9223372036854775807)),
        (b"9223372036854775808", None),
        (b"-9223372036854775808", None),
        (b"+1", None),
        (b"", None),
        (b"-", None),
    ];
    for (text, want) in cases {
        assert!(rt; read_number(text) == want, "{text:?}");
    }
}

#[test]
fn hashes(rt: HostRuntime) -> Result<(), Fail> {
    assert_eq!(rt; fnv1a(b"a"), 0xaf63dc4c8601ec8c);
    assert_eq!(rt; fnv1a(b""), 14695981039346656037);
    assert_eq!(rt; NumKey(97).hash(), fnv1a(&[97, 0, 0, 0, 0, 0, 0, 0]));
    let key = ByteKey::of(rt.alloc(), b"a")?;
    assert_eq!(rt; key.hash(), fnv1a(b"a"));
    Ok(())
}

// The printed bytes of a key and of its copy, through the bound.
fn printed_twice<K: Key>(alloc: Global, key: &K) -> Result<Text, Memory> {
    let mut text = Text::new(alloc);
    key.print(&mut text)?;
    key.copy(alloc)?.print(&mut text)?;
    Ok(text)
}

#[test]
fn keys_through_their_bound(rt: HostRuntime) -> Result<(), Fail> {
    let alloc = rt.alloc();
    let key = ByteKey::of(alloc, b"don't")?;
    assert!(rt; printed_twice(alloc, &key)?.as_bytes() == b"don'tdon't".as_slice());
    assert!(rt;
        printed_twice(alloc, &NumKey(9223372036854775807))?.as_bytes()
            == b"92233720368547758079223372036854775807".as_slice()
    );
    Ok(())
}

#[test]
fn keys_in_order(rt: HostRuntime) -> Result<(), Fail> {
    let alloc = rt.alloc();
    assert!(rt; ByteKey::of(alloc, b"B")? < ByteKey::of(alloc, b"a")?);
    assert!(rt; ByteKey::of(alloc, b"a")? < ByteKey::of(alloc, b"aa")?);
    assert!(rt; NumKey(9) < NumKey(10));
    assert_eq!(rt; NumKey(7).lead(), 7);
    assert!(rt; SliceKey::of(b"B", false) < SliceKey::of(b"a", false));
    Ok(())
}

#[test]
fn shown_keys(rt: HostRuntime) -> Result<(), Fail> {
    let alloc = rt.alloc();
    let mut shown = Text::new(alloc);
    ByteKey::of(alloc, b"a b")?.show(&mut shown)?;
    SliceKey::of(b"\x7fDON'T", true).show(&mut shown)?;
    NumKey(12).show(&mut shown)?;
    assert!(rt; shown.as_bytes() == b"a?b?don't12".as_slice());
    Ok(())
}

const TEXT: &[u8] = b"The QUICK@[ brown-fox-jumped OVER";

// Whether two keys of one list agree in all that is asked of them.
fn agree<A: Key, B: Key>(alloc: Global, a: &A, b: &B) -> Result<bool, Memory> {
    let (left, right) = (printed_twice(alloc, a)?, printed_twice(alloc, b)?);
    Ok(
        a.hash() == b.hash()
            && a.code() == b.code()
            && a.lead() == b.lead()
            && left.as_bytes() == right.as_bytes(),
    )
}

#[test]
fn borrowed_keys_agree(rt: HostRuntime) -> Result<(), Fail> {
    let alloc = rt.alloc();
    let owned = ByteKey::of(alloc, b"don't")?;
    assert!(rt; agree(alloc, &owned, &SliceKey::of(b"DON'T", true))?);
    assert!(rt; agree(alloc, &owned, &ByteKey::part(alloc, b"DON'T", true)?)?);
    let borrowed: SliceKey = TextKey::part(alloc, b"DON'T", true)?;
    assert!(rt; agree(alloc, &owned, &borrowed)?);
    for from in [0, 4, 12, 29] {
        let owned = ByteKey::part_of(alloc, TEXT, from, 33, true)?;
        assert!(rt;
            agree(alloc, &owned, &SliceKey::within(TEXT, from, 33, true))?,
            "{from}"
        );
    }
    Ok(())
}

#[test]
fn borrowed_keys_ascend(rt: HostRuntime) {
    let ascending = [
        SliceKey::of(b"a", true),
        SliceKey::of(b"a\0", true),
        SliceKey::of(b"brown-fo", true),
        SliceKey::of(b"brown-fo\0", true),
        SliceKey::of(b"brown-fox-jumped", false),
        SliceKey::of(b"brown-fox-jumped oveq", false),
        SliceKey::of(b"BROWN-fox-jumped over", true),
        SliceKey::within(TEXT, 4, 11, true),
    ];
    for i in 0..7 {
        assert!(rt; ascending[i] < ascending[i + 1], "{i}");
    }
    assert_eq!(rt; ascending[7].lead(), 0x717569636b405b00);
    assert!(rt; SliceKey::within(TEXT, 12, 33, true) == ascending[6]);
}

// A key may be lent to a thread and handed to one.
#[test]
fn borrowed_keys_in_threads(rt: HostRuntime) -> Result<(), Fail> {
    let long = SliceKey::within(TEXT, 12, 33, true);
    let borrowed: SliceKey = TextKey::part(rt.alloc(), b"DON'T", true)?;
    let (left, right) = thread::join(&rt, || long.code(), move || borrowed.code());
    assert!(rt; left != right);
    Ok(())
}

#[test]
fn lists(rt: HostRuntime) -> Result<(), Fail> {
    let alloc = rt.alloc();
    let mut few = Few::with_room(alloc, 1)?;
    few.push(5i128);
    few.room()?;
    few.push(-3i128);
    for item in few.as_mut_slice().iter_mut() {
        *item = item.saturating_sub(1);
    }
    assert_eq!(rt; few.len(), 2);
    assert_eq!(rt; few.pop(), Some(-4));
    let answer = Answer::many(few);
    assert_eq!(rt; answer.len(), 1);
    assert_eq!(rt; answer.number(0), 4);
    Ok(())
}

#[test]
fn numbers_of_answers(rt: HostRuntime) {
    for n in [
        0,
        i64::MIN as i128,
        i64::MAX as i128 + 1,
        -i128::MAX,
        i128::MIN,
        i128::MAX,
    ] {
        assert_eq!(rt; Answer::one(n).number(0), n);
        assert_eq!(rt; Answer::two(5, n).number(1), n);
    }
}

#[test]
fn texts(rt: HostRuntime) -> Result<(), Fail> {
    let alloc = rt.alloc();
    let mut text = Text::new(alloc);
    text.reserve(2)?;
    text.push(b"n ")?;
    for n in [0, -7, i128::MAX, i128::MIN] {
        text.push_number(n)?;
    }
    assert!(rt;
        text.as_bytes()
            == b"n 0-7170141183460469231731687303715884105727-170141183460469231731687303715884105728".as_slice()
    );
    Ok(())
}

#[test]
fn rows_and_patterns(rt: HostRuntime) -> Result<(), Fail> {
    let alloc = rt.alloc();
    let mut rows = Rows::new(alloc);
    rows.push(NumKey(7), Answer::two(1, 2))?;
    rows.push(NumKey(8), Answer::one(3))?;
    assert_eq!(rt; rows.len(), 2);
    assert!(rt; rows.key(1) == &NumKey(8));
    assert_eq!(rt; rows.answer(0).number(1), 2);
    let mut patterns = Patterns::new(alloc);
    patterns.push(b"ab")?;
    assert_eq!(rt; patterns.len(), 1);
    assert!(rt; patterns.get(0) == b"ab".as_slice());
    assert_eq!(rt; Word::of(alloc, "in")?.as_str(), "in");
    Ok(())
}

#[test]
fn faults_in_order(rt: HostRuntime) -> Result<(), Fail> {
    let mut faults = Faults::none();
    faults.over = Some(NumKey(1));
    let mut other = faults.copy(rt.alloc())?;
    other.over = Some(NumKey(0));
    other.outside = Some(NumKey(16));
    faults.merge(other);
    assert!(rt; faults.over == Some(NumKey(0)));
    assert!(rt; matches!(faults.first(), Some(Fault::Outside(NumKey(16)))));
    Ok(())
}

#[test]
fn codes(rt: HostRuntime) {
    let all = [
        (Status::Done, 0),
        (Status::Usage, 2),
        (Status::Job, 3),
        (Status::Input, 4),
        (Status::Outside, 5),
        (Status::Twice, 6),
        (Status::Over, 7),
        (Status::ReadFault, 8),
        (Status::WriteFault, 9),
        (Status::Memory, 10),
    ];
    for (status, code) in all {
        assert_eq!(rt; status.code(), code);
    }
}

// What an answer prints.
fn printed(alloc: Global, answer: &Answer) -> Result<Text, Memory> {
    let mut text = Text::new(alloc);
    answer.print(&mut text)?;
    Ok(text)
}

#[test]
fn prints_answers(rt: HostRuntime) -> Result<(), Fail> {
    let alloc = rt.alloc();
    for n in [-12i64, 0, 999999, 1000000, 9080706, 99999999, 100000000] {
        let listed = Answer::listed(Vec::from_slice(alloc, &[n])?);
        let one = Answer::one(n as i128);
        assert!(rt; printed(alloc, &listed)?.as_bytes() == printed(alloc, &one)?.as_bytes());
    }
    let two = Answer::two(7, -1);
    assert!(rt; printed(alloc, &two)?.as_bytes() == b" 7 -1".as_slice());
    Ok(())
}
