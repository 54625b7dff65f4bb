//! How many bytes buffers and raw values take.

use std::mem::size_of;
use vortex_dtype::{BufferString, ByteBuffer};
use vortex_value::ScalarValue;

// How many bytes a buffer and a raw value take where they stand, as docs/DECISIONS.md says.
const _: () = prove!(size_of::<ByteBuffer>() == 48 && size_of::<BufferString>() == 48);

const _: () = prove!(size_of::<ScalarValue>() == 56 && size_of::<Option<ScalarValue>>() == 64);
