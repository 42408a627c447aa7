//! Tests of `read_wechsler` with texts of 10,000 bytes, the longest that it reads.
use code_core::reader::read_wechsler;
use std::test::Fail;

// Other texts are tested by the cases of `show` in `checks/cases`. The first text here has 10,000 full columns in one
// strip. The second text has 10,000 strips, and one live cell in the last strip.
#[test]
fn reads_a_wide_text(rt: HostRuntime) -> Result<(), Fail> {
    let wide = read_wechsler(rt.alloc(), std::str::from_utf8(&[b'v'; 10_000])?)?;
    assert!(rt; wide.population() == 50_000 && wide.has(9_999, 4));
    Ok(())
}

#[test]
fn reads_a_high_text(rt: HostRuntime) -> Result<(), Fail> {
    let mut text = [b'z'; 10_000];
    text[9_999] = b'1';
    let high = read_wechsler(rt.alloc(), std::str::from_utf8(&text)?)?;
    assert!(rt; high.population() == 1 && high.has(0, 49_995));
    Ok(())
}
