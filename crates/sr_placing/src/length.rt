// The length of what is put.
ghost use Rattle.std.specs.Prelude.{◌≡◌, length};
ghost use Rattle.sr_placing.specs.Counting.{counted};
ghost use Rattle.sr_placing.specs.Sinking.{LengthPuts};

use crate::sink::Sink;

/// How many bytes were put. The count stays at 2^64 - 1 once it is there.
#[derive(Clone, Copy)]
pub struct Length {
    bytes: u64,
}

impl Length {
    /// Nothing was put.
    pub fn new() -> Length
        ensures { result.bytes ≡ 0 }
    {
        Length { bytes: 0 }
    }

    /// The count.
    pub fn count(self) -> u64
        ensures { result ≡ counted self.bytes }
    {
        self.bytes
    }
}

impl Sink<()> for Length {
    ghost use Rattle.sr_placing.specs.SinkLaws.{length_none, length_joined};

    ghost can_put = { λ s o. Unit {0} };

    ghost puts = { λ s o t p x. LengthPuts s.bytes t.bytes x };

    fn put(&mut self, _out: &mut (), bytes: &[u8]) {
        self.bytes = self.bytes.saturating_add(bytes.len() as u64);
    }

    ghost stays = { λ s t o p x c u. c };

    ghost none = { λ s o. length_none s.bytes };

    ghost joined = { λ s t u o p q x y a b. length_joined s.bytes t.bytes u.bytes x y a b };
}
