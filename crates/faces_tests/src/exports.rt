// What C calls, as a fuzzer does: each export takes bytes, and answers by a code what became of
// them, or that something isn't so that the faces promise.
ghost use Rattle.std.specs.Prelude.{◌≢◌};

use crate::codes::{
    BROKEN, NO_MEMORY, REFUSED, behind_inputs, of_configuration, of_filterset, of_spec, of_stream,
};
use std::alloc::Global;
use std::str;

/// What became of a stream, the inputs' line and a log: the status of its run, 1 where a read
/// failed, 2 where the report has more than a mebibyte, 3 for want of memory; 255 where the stream
/// in pieces of 1 or 7 bytes has another status or report, or the status is none.
#[unsafe(no_mangle)]
pub extern "C" fn faces_tests_stream(alloc: Global, stream: &[u8]) -> u8 {
    of_stream(alloc, stream)
}

/// What became of a log behind fixed inputs, which have three tests, a setup script and retries:
/// as of a stream, and 255 also for 4 and 92, which these inputs can't come to.
#[unsafe(no_mangle)]
pub extern "C" fn faces_tests_log(alloc: Global, log: &[u8]) -> u8 {
    match behind_inputs(alloc, log) {
        Ok(stream) => match of_stream(alloc, stream.as_slice()) {
            4 | 92 => BROKEN,
            code => code,
        },
        Err(_) => NO_MEMORY,
    }
}

/// What became of the text of a configuration: 0 where it is one, in a workspace without packages
/// and with all features; 96 where it is none, 3 for want of memory; 255 where it is one that has
/// no default profile.
#[unsafe(no_mangle)]
pub extern "C" fn faces_tests_configuration(alloc: Global, text: &[u8]) -> u8 {
    match str::from_utf8(text) {
        Ok(text) => of_configuration(alloc, text),
        Err(_) => REFUSED,
    }
}

/// What became of the text of a filterset: 0 where it is one, 96 where it is none, 3 for want of
/// memory; 255 where what it prints isn't read as a filterset that prints the same, unless it has
/// an escape `\u{`.
#[unsafe(no_mangle)]
pub extern "C" fn faces_tests_filterset(alloc: Global, text: &[u8]) -> u8 {
    match str::from_utf8(text) {
        Ok(text) => of_filterset(alloc, text),
        Err(_) => REFUSED,
    }
}

/// What became of the text of a platform spec: 0 where it is one, 96 where it is none, 3 for want
/// of memory; 255 would say that it is refused outside of the text, or that its copy has another
/// value.
#[unsafe(no_mangle)]
pub extern "C" fn faces_tests_platform_spec(alloc: Global, text: &[u8]) -> u8
    ensures kept { result ≢ 255 }
{
    match str::from_utf8(text) {
        Ok(text) => of_spec(alloc, text),
        Err(_) => REFUSED,
    }
}
