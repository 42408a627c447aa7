//! Tests that rules can be read with `parse` and shown with `format!`.
use plane_core::plane::rule::Rule;
use std::test::Fail;

#[test]
fn shows_the_rule_that_it_reads(rt: HostRuntime) -> Result<(), Fail> {
    let high_life = "b36s23".parse::<Rule>()?;
    assert!(rt; format!(in rt.alloc(); "{high_life}")?.as_str() == "b36s23");
    let fewest = "bs".parse::<Rule>()?;
    assert!(rt; format!(in rt.alloc(); "{fewest}")?.as_str() == "bs");
    let most = "b12345678s012345678".parse::<Rule>()?;
    assert!(rt; format!(in rt.alloc(); "{most}")?.as_str() == "b12345678s012345678");
    assert!(rt; "b3/s23".parse::<Rule>().is_err());
    Ok(())
}
