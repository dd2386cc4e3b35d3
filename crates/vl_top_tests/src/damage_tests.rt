//! Files of which a byte is changed.
use crate::inputs_tests::group_lines;
use crate::program_tests::{load, query};
use crate::vaults_tests::damaged;
use std::test::Fail;

/// The bytes that are changed, one at a time.
const PLACES: &[usize] = &[0, 5, 8, 12, 20, 40];

#[test]
fn a_damaged_part_is_told(rt: HostRuntime) -> Result<(), Fail> {
    let alloc = rt.alloc();
    let loaded = load(&rt, &group_lines(alloc, 16)?, &[])?;
    for at in PLACES {
        let image = damaged(alloc, &loaded.vault, 2, *at)?;
        let ended = query(&rt, "*", image)?;
        let shown = ended.shown(alloc)?;
        assert!(rt;
            shown.as_str().starts_with("6 \"\" \"damaged file 2 at "),
            "byte {at}: {shown}"
        );
    }
    Ok(())
}
