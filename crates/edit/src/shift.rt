// Bytes moved by sixteen, and sixteen made zero.
ghost use Rattle.std.specs.Prelude.{◌≡◌, ◌+◌, ◌-◌, ◌≤◌, length};
ghost use Rattle.edit.specs.Steps.{opened, closed, cleared};

// The bytes from `at` up to `end` go sixteen places up, the last first. No `copy_within`: upwards it becomes a call of memmove, which the static library
// would ask of whoever links it.
pub(crate) fn open(buf: &mut [u8], at: usize, end: usize)
    requires { (at ≤ end) × (end + 16 ≤ length buf.old) }
    ensures { buf.new ≡ opened buf.old at end }
{
    for k in (at..end).rev() {
        buf[k + 16] = buf[k];
    }
}

// The bytes from `at` + 16 up to `end` go sixteen places down.
pub(crate) fn close(buf: &mut [u8], at: usize, end: usize)
    requires { (at + 16 ≤ end) × (end ≤ length buf.old) }
    ensures { buf.new ≡ closed buf.old at (end - 16) }
{
    buf.copy_within(at + 16..end, at);
}

// The bytes from `at` up to `end` are made zero.
pub(crate) fn clear(buf: &mut [u8], at: usize, end: usize)
    requires { (at ≤ end) × (end ≤ length buf.old) }
    ensures { buf.new ≡ cleared buf.old at end }
{
    buf[at..end].fill(0);
}
