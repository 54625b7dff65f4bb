//! Scalars displayed to a writer that fails.

use crate::fixtures::{
    I32, Raw, bytes, integer, list, struct_of_two, text, tuple, union, union_of_two, variant,
};
use std::fmt::{self, Write};
use std::process::Abort;
use vortex_dtype::DType;
use vortex_dtype::Nullability::NonNullable;
use vortex_value::Scalar;

/// A writer that takes `writes_left` more writes, and then fails.
#[derive(Drop)]
struct Failing {
    writes_left: usize,
}

impl Write for Failing {
    fn write_str(&mut self, _text: &str) -> fmt::Result {
        if self.writes_left == 0 {
            return Err(fmt::Error);
        }
        self.writes_left -= 1;
        Ok(())
    }
}

/// Whether a scalar is displayed whole in `writes` writes, and how many of these are left.
fn attempt(scalar: &Scalar, writes: usize) -> (bool, usize) {
    let mut writer = Failing {
        writes_left: writes,
    };
    let is_whole = write!(writer, "{scalar}").is_ok();
    (is_whole, writer.writes_left)
}

/// Asserts that `Display` answers an error exactly if a write fails, whichever write that is.
fn fails_at_each_write(rt: &impl Abort, scalar: &Scalar) {
    let (is_whole, left) = attempt(scalar, 1000);
    assert!(rt; is_whole && left < 1000);
    for writes in 0..1000usize.saturating_sub(left) {
        assert!(rt; attempt(scalar, writes) == (false, 0));
    }
}

/// A string to escape, bytes, a union and a null, each in a variant.
fn variants(rt: &(impl AllocGlobal + Abort)) -> Raw {
    let escaped = variant(rt, DType::Utf8(NonNullable), text(rt, "a\n\"\u{7}é"));
    let string = variant(rt, DType::Binary(NonNullable), bytes(rt, &[1, 255, 0]));
    let named = variant(rt, union_of_two(rt), union(rt, 5, integer(42)));
    tuple(rt, [escaped, string, named, variant(rt, DType::Null, None)])
}

/// A list of variants.
fn list_of_variants(rt: &(impl AllocGlobal + Abort)) -> Scalar {
    Scalar {
        dtype: list(rt, DType::Variant(NonNullable)),
        value: variants(rt),
    }
}

/// The struct of an integer and a list.
fn struct_with_list(rt: &(impl AllocGlobal + Abort)) -> Scalar {
    let parts = tuple(rt, [integer(1), integer(2)]);
    Scalar {
        dtype: struct_of_two(rt, I32, list(rt, I32)),
        value: tuple(rt, [integer(1), parts]),
    }
}

#[test]
fn a_text_fails_where_a_write_does(rt: HostRuntime) {
    let all = [list_of_variants(&rt), struct_with_list(&rt)];
    fails_at_each_write(&rt, &all[0]);
    fails_at_each_write(&rt, &all[1]);
}

/// An integer type with a raw value that does not fit.
fn no_integer(rt: &(impl AllocGlobal + Abort)) -> Scalar {
    let long = bytes(rt, b"hello world");
    let parts = [text(rt, "hello world"), long, None, union(rt, 5, None)];
    let value = tuple(rt, parts);
    Scalar { dtype: I32, value }
}

#[test]
fn a_raw_text_fails_where_a_write_does(rt: HostRuntime) {
    let value = variants(&rt);
    let all = [Scalar { dtype: I32, value }, no_integer(&rt)];
    fails_at_each_write(&rt, &all[0]);
    fails_at_each_write(&rt, &all[1]);
}
