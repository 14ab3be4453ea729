use crate::words_of;
use std::test::Fail;

#[test]
fn words_are_read(rt: HostRuntime) -> Result<(), Fail> {
    let bytes = [
        0x12, 0x34, 0x56, 0x78, 0, 0, 0, 7, 0xFF, 0xFF, 0xFF, 0xFE, 9, 9, 9,
    ];
    let all = [0x1234_5678, 7, 4_294_967_294];
    for most in 0..3 {
        let words = words_of(rt.alloc(), &bytes, most)?;
        assert_eq!(rt; words.as_slice(), &all[..most]);
    }
    for most in [3, 4, usize::MAX] {
        let words = words_of(rt.alloc(), &bytes, most)?;
        assert_eq!(rt; words.as_slice(), all.as_slice());
    }
    let none = words_of(rt.alloc(), &bytes[..3], 1)?;
    assert!(rt; none.is_empty());
    Ok(())
}
