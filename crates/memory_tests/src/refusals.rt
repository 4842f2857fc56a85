// The numbers by which users know the refusals.
use memory::MemoryError;
use std::test::Fail;

#[test]
fn a_bad_address_is_number_4_and_a_bad_size_number_17(rt: HostRuntime) {
    assert_eq!(rt; MemoryError::Address.number(), 4);
    assert_eq!(rt; MemoryError::Size.number(), 17);
}

#[test]
fn a_refusal_is_shown_by_its_number(rt: HostRuntime) -> Result<(), Fail> {
    let address = MemoryError::Address;
    let size = MemoryError::Size;
    let shown = format!(in rt.alloc(); "{address}, {size}")?;
    assert_eq!(rt; shown.as_str(), "no 4, no 17");
    Ok(())
}
