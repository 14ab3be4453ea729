use crate::may_follow;
use std::alloc::AllocError;
use words::Kind;

#[test]
fn a_table_begins_with_a_rule_or_ends(rt: HostRuntime) -> Result<(), AllocError> {
    for (kind, expected) in [
        (Kind::Rule, true),
        (Kind::End, true),
        (Kind::Taken, false),
        (Kind::Blank, false),
    ] {
        assert_eq!(rt; may_follow(rt.alloc(), &[], kind)?, expected);
    }
    Ok(())
}

#[test]
fn after_a_taken_head_no_kept_one_stands(rt: HostRuntime) -> Result<(), AllocError> {
    for (kind, expected) in [
        (Kind::Taken, true),
        (Kind::Guard, true),
        (Kind::Body, true),
        (Kind::Rule, true),
        (Kind::End, true),
        (Kind::Kept, false),
        (Kind::Var, false),
    ] {
        let before = [0x1000_0007, 0x3004_0000];
        assert_eq!(rt; may_follow(rt.alloc(), &before, kind)?, expected);
    }
    Ok(())
}
