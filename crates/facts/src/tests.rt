use crate::count::WholeCount;
use crate::fact::Fact;
use crate::kind::Kind;
use crate::reading::Reading;
use std::test::Fail;

// What a value of that meaning reads as, if one can be made.
fn remade<V: Kind>(n: i32) -> Option<i32> {
    V::make(n).map(|value| value.read())
}

#[test]
fn counts_span_the_full_range(rt: HostRuntime) {
    for n in [
        -134_217_728,
        -134_217_727,
        -1,
        0,
        65_535,
        65_536,
        134_217_726,
        134_217_727,
    ] {
        assert_eq!(rt; remade::<WholeCount>(n), Some(n));
    }
    for n in [i32::MIN, -134_217_729, 134_217_728, i32::MAX] {
        assert_eq!(rt; remade::<WholeCount>(n), None);
    }
    assert_eq!(rt; WholeCount::low(), -134_217_728);
    assert_eq!(rt; WholeCount::high(), 134_217_727);
}

#[test]
fn readings_mean_their_low_bits(rt: HostRuntime) -> Result<(), Fail> {
    for word in [84, 0x0003_0054, 0xABCD_0054] {
        assert_eq!(rt; Reading { word }.read(), 84);
    }
    assert_eq!(rt; Reading { word: 0xFFFF_FFFF }.read(), 65_535);
    assert_eq!(rt; Reading { word: 0x0001_0000 }.read(), 0);
    for n in [0, 1, 84, 65_535] {
        assert_eq!(rt; remade::<Reading>(n), Some(n));
    }
    for n in [-134_217_728, -1, 65_536, 134_217_727] {
        assert_eq!(rt; remade::<Reading>(n), None);
    }
    let made = Reading::make(65_535).ok_or("within the ends")?;
    assert_eq!(rt; made.word, 65_535);
    Ok(())
}

fn reading_fact(name: u8, count: u8, words: (u32, u32, u32)) -> Fact<Reading> {
    let args = (
        Reading { word: words.0 },
        Reading { word: words.1 },
        Reading { word: words.2 },
    );
    Fact { name, count, args }
}

fn same(a: &Fact<Reading>, b: &Fact<Reading>) -> bool {
    a.read() == b.read()
}

#[test]
fn only_meanings_are_compared(rt: HostRuntime) {
    let plain = reading_fact(1, 2, (3, 84, 0));
    assert!(rt; same(&plain, &reading_fact(1, 2, (3, 0xABCD_0054, 0xFFFF_FFFF))));
    assert!(rt; !same(&plain, &reading_fact(1, 2, (3, 0xABCD_0055, 0))));
    assert!(rt; !same(&plain, &reading_fact(1, 2, (0x0001_0004, 84, 0))));
    assert!(rt; !same(&plain, &reading_fact(2, 2, (3, 84, 0))));
    assert!(rt; !same(&plain, &reading_fact(1, 3, (3, 84, 0))));
    assert!(rt;
        same(
            &reading_fact(9, 0, (1, 2, 3)),
            &reading_fact(9, 0, (4, 5, 6)),
        )
    );
    assert!(rt;
        !same(
            &reading_fact(9, 3, (1, 2, 3)),
            &reading_fact(9, 3, (1, 2, 4)),
        )
    );
    assert!(rt;
        !same(
            &reading_fact(9, 255, (1, 2, 3)),
            &reading_fact(9, 255, (1, 2, 4)),
        )
    );
}

#[test]
fn a_read_fact_has_every_field(rt: HostRuntime) {
    let read = reading_fact(200, 1, (0x0007_0001, 0x0008_0002, 0x0009_0003)).read();
    assert_eq!(rt; read.name, 200);
    assert_eq!(rt; read.count, 1);
    assert_eq!(rt; read.args, (1, 2, 3));
}

fn made<V: Kind>(name: u8, count: u8, args: (i32, i32, i32)) -> Option<Fact<V>> {
    Fact::make(Fact { name, count, args })
}

#[test]
fn facts_are_written_or_refused(rt: HostRuntime) -> Result<(), Fail> {
    let wide: Option<Fact<WholeCount>> = made(7, 1, (-134_217_728, 5, i32::MAX));
    let Some(wide) = wide else {
        return Err(Fail::new("the first argument lies within the ends"));
    };
    let wide = wide.read();
    assert_eq!(rt; (wide.name, wide.count), (7, 1));
    assert_eq!(rt; wide.args, (-134_217_728, -134_217_728, -134_217_728));
    let full: Option<Fact<Reading>> = made(7, 3, (0, 84, 65_535));
    assert_eq!(rt;
        full.ok_or("all lie within the ends")?.read().args,
        (0, 84, 65_535)
    );
    for args in [(-1, 0, 0), (0, 65_536, 0), (0, 0, 65_536)] {
        let outside: Option<Fact<Reading>> = made(7, 3, args);
        assert!(rt; outside.is_none());
    }
    let long: Option<Fact<Reading>> = made(7, 4, (0, 0, 0));
    assert!(rt; long.is_none());
    Ok(())
}

#[test]
fn counts_are_cut_to_three(rt: HostRuntime) {
    for count in [0, 3, 4, 255] {
        assert_eq!(rt;
            reading_fact(1, count, (1, 2, 3)).cut().count,
            if count > 3 { 3 } else { count }
        );
    }
}
