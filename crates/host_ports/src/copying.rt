ghost use Rattle.std.specs.Prelude.{◌≡◌, min, Some, Ok, length, take, drop, ◌++◌};
ghost use Rattle.std.specs.Io.KnownBytes.{ReadConsumes};
ghost use Rattle.host_ports.specs.declared.fault.Failed.{Failed};

/// Copies as many bytes as there are and as have room, and answers how many.
pub(crate) fn copy_front(bytes: &[u8], buf: &mut [u8]) -> usize
    ensures count { result ≡ min (length buf.old) (length bytes.now) }
    ensures filled { buf.new ≡ take result bytes.now ++ drop result buf.old }
    ensures front { take result buf.new ≡ take result bytes.now }
    ensures read { let left = drop result bytes.now in
        ReadConsumes {E = Failed} (Some bytes.now) (Some left) (Ok result) buf.new }
{
    let count = buf.len().min(bytes.len());
    buf[..count].copy_from_slice(&bytes[..count]);
    count
}
