//! Keys that are written to a caller's buffer, as far as there is room.

ghost use Rattle.std.specs.Prelude.{◌≡◌, ◌≤◌, ⊤, length};
ghost use Rattle.kohiblad.specs.KeySink.{Continues, writer_laws, copied_at, cut_into};

use jsonb_comparable::Sink;

/// The first bytes of a key go to the start of a buffer, as far as there is room, and all bytes are
/// counted: `usize::MAX` if there are more.
#[derive(Drop)]
pub struct KeyWriter<'a> {
    pub out: &'a mut [u8],
    pub len: usize,
}

impl Sink for KeyWriter<'_> {
    ghost room = { λ writer bytes. ⊤ };

    ghost appends = { Continues };

    ghost laws = { writer_laws };

    fn append(&mut self, bytes: &[u8]) {
        let start = self.len.min(self.out.len());
        copy_at(start, bytes, self.out);
        self.len = self.len.saturating_add(bytes.len());
    }
}

// Copies bytes to a place in the buffer, as many as there is room.
fn copy_at(start: usize, bytes: &[u8], out: &mut [u8])
    requires { start ≤ length out.old }
    ensures { out.new ≡ copied_at start bytes.now out.old }
{
    let (_, later) = out.split_at_mut(start);
    copy_cut(bytes, later);
}

// Copies bytes to the start of the buffer, as many as there is room.
fn copy_cut(bytes: &[u8], out: &mut [u8])
    ensures { out.new ≡ cut_into bytes.now out.old }
{
    let count = out.len().min(bytes.len());
    out[..count].copy_from_slice(&bytes[..count]);
}
