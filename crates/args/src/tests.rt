use crate::Args;

#[test]
fn arguments_come_in_order(rt: HostRuntime) {
    let none: Args<u8> = Args::Zero;
    for (args, len, number) in [
        (none, 0, 0),
        (Args::One(7), 1, 7),
        (Args::Two(7, 8), 2, 78),
        (Args::Three(7, 8, 9), 3, 789),
    ] {
        let mut seen = 0u32;
        for a in args {
            seen = seen.wrapping_mul(10).wrapping_add(u32::from(a));
        }
        assert_eq!(rt; (args.len(), seen), (len, number));
    }
}
