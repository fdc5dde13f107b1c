use crate::tests::by_hand::ByHand;
use crate::tests::inputs::*;
use crate::tests::scenes::*;
use crate::tests::step::Step;
use std::test::Fail;

#[test]
fn machines_by_hand(rt: HostRuntime) -> Result<(), Fail> {
    let cases: [(&str, &[Step<'_>]); 4] = [
        (MERGE, TOMBSTONE),
        (SPLIT_IN_FOUR, SPLITS),
        (ROLLED_BACK, STOPS),
        (SPLIT_IN_FOUR, TABLE),
    ];
    for (text, steps) in cases {
        let plan = plan_of(rt.alloc(), text)?;
        let mut store = ByHand::new(rt.alloc(), &plan, 0, 0)?;
        store.play(steps)?;
    }
    Ok(())
}

#[test]
fn stores_by_hand(rt: HostRuntime) -> Result<(), Fail> {
    let cases: [(&str, u32, u32, &[Step<'_>], &str); 4] = [
        (MERGE_BEFORE_THE_END, 0, 0, MERGES, MERGED_BEFORE_THE_END),
        (MERGE, 0, 0, COMMIT_FIRST, MERGED),
        (LAGGING, 1, 2, CATCHES_UP, SECOND_STORE),
        (WITHOUT_LOG, 1, 2, CATCHES_UP_WHOLLY, SECOND_STORE),
    ];
    for (text, place, address, steps, outcome) in cases {
        let plan = plan_of(rt.alloc(), text)?;
        let mut store = ByHand::new(rt.alloc(), &plan, place, address)?;
        store.play(steps)?;
        let text = text_of(rt.alloc(), store.outcome()?)?;
        assert_eq!(rt; text.as_slice(), outcome.as_bytes());
    }
    Ok(())
}
