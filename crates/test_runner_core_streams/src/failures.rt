// The failed calls of a stream.
ghost use Rattle.std.specs.Prelude.{◌≡◌, ◌^◌, ◌<◌, false};
ghost use Rattle.test_runner_core_streams.specs.Streams.{failures_after};

// How many calls of a stream failed, and whether the last one did.
#[derive(Clone, Copy)]
pub(crate) struct Failures {
    pub(crate) count: u64,
    pub(crate) last: bool,
}

impl Failures {
    // No call failed, since there was none.
    pub(crate) fn none() -> Self
        ensures count { result.count ≡ 0 }
        ensures last { result.last ≡ false }
    {
        Failures {
            count: 0,
            last: false,
        }
    }

    // The same after one more call, which failed or didn't.
    pub(crate) fn and(self, failed: bool) -> Self
        requires { self.count < 2 ^ 63 }
        ensures count { result.count ≡ failures_after self.count failed }
        ensures last { result.last ≡ failed }
    {
        Failures {
            count: self.count + u64::from(failed),
            last: failed,
        }
    }
}
