use words::{Kind, Word, constant_word, fact_word};

#[test]
fn kinds_in_order(rt: HostRuntime) {
    for (top, kind) in [
        (0x0000_0000, Kind::Blank),
        (0x1000_0000, Kind::Rule),
        (0x2000_0000, Kind::Kept),
        (0x3000_0000, Kind::Taken),
        (0x4000_0000, Kind::Guard),
        (0x5000_0000, Kind::Body),
        (0x6000_0000, Kind::Var),
        (0x7000_0000, Kind::Const),
        (0x8000_0000, Kind::Sum),
        (0x9000_0000, Kind::Diff),
        (0xA000_0000, Kind::Feed),
        (0xB000_0000, Kind::Take),
        (0xC000_0000, Kind::Look),
        (0xD000_0000, Kind::Commit),
        (0xE000_0000, Kind::Size),
        (0xF000_0000, Kind::End),
    ] {
        let word = Word::from(top);
        assert_eq!(rt; word.kind, kind);
        assert!(rt; word.is(kind) && word.is_clean());
    }
}

// The largest payload of each kind that may use some bits, and a bit more.
#[test]
fn masks(rt: HostRuntime) {
    for (most, stray) in [
        (0x1000_FFFF, 0x1001_FFFF),
        (0x20FF_000F, 0x20FF_001F),
        (0x30FF_000F, 0x31FF_000F),
        (0x4000_000F, 0x4000_001F),
        (0x50FF_000F, 0x50FF_800F),
        (0x6000_000F, 0x6800_000F),
        (0xA0FF_000F, 0xA0FF_001F),
        (0xB000_000F, 0xB000_001F),
        (0xC000_000F, 0xC000_0010),
        (0xD000_000F, 0xD001_0000),
        (0xE0FF_FFFF, 0xE1FF_FFFF),
        (0x0000_0000, 0x0000_0001),
        (0x8000_0000, 0x8800_0000),
        (0x9000_0000, 0x9000_0001),
        (0xF000_0000, 0xF001_0000),
    ] {
        assert!(rt; Word::from(most).is_clean());
        assert!(rt; !Word::from(stray).is_clean());
    }
    assert!(rt; Word::from(0x7FFF_FFFF).is_clean());
}

#[test]
fn fields_of_a_word(rt: HostRuntime) {
    let word = Word::from(0x20FE_000D);
    assert_eq!(rt; word.payload, 0xFE_000D);
    assert_eq!(rt; word.name(), 0xFE);
    assert_eq!(rt; word.count(), 0xD);
    assert_eq!(rt; Word::from(0x1000_FFFE).label(), 0xFFFE);
    assert_eq!(rt; fact_word(Kind::Kept, 0xFE, 0xD), Some(0x20FE_000D));
    assert_eq!(rt; fact_word(Kind::Feed, 255, 15), Some(0xA0FF_000F));
    assert_eq!(rt; fact_word(Kind::Feed, 0, 16), None);
}

#[test]
fn constants(rt: HostRuntime) {
    for (bits, n) in [
        (0x7000_0000, 0),
        (0x7000_0001, 1),
        (0x77FF_FFFF, 134_217_727),
        (0x7800_0000, -134_217_728),
        (0x7FFF_FFFF, -1),
    ] {
        assert_eq!(rt; Word::from(bits).constant(), n);
        assert_eq!(rt; constant_word(n), Some(bits));
    }
    assert_eq!(rt; constant_word(134_217_728), None);
    assert_eq!(rt; constant_word(-134_217_729), None);
}
