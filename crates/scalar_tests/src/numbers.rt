//! The bytes of integer values.

use vortex_pvalue::PValue;

#[test]
fn bytes_lowest_first(rt: HostRuntime) {
    let bytes = PValue::I32(-2).to_le_bytes();
    assert!(rt; bytes.as_slice() == [254, 255, 255, 255].as_slice());
    let bytes = PValue::U16(258).to_le_bytes();
    assert!(rt; bytes.as_slice() == [2, 1].as_slice());
}
