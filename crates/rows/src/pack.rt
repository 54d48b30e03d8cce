// Numbers packed into bytes, most significant bit first: the bytes are one number, and each further field is appended at its low end. A field's limit is two
// to the power of its bits.
ghost use Rattle.std.specs.Prelude.{◌≡◌, ◌+◌, ◌*◌, ◌<◌, ◌≤◌, ◌^◌, length};
ghost use Rattle.rows.specs.Pack.{appended, below, packed_on};

// A byte of the number times the limit, and what is carried from the byte behind it.
fn turn(byte: u8, limit: u32, carry: u64) -> u64
    requires { carry < 2 ^ 33 }
    ensures { result ≡ byte * limit + carry }
{
    (byte as u64) * (limit as u64) + carry
}

// The number times the limit, plus the value; what goes past the first byte is lost.
fn append(out: &mut [u8], limit: u32, value: u32)
    ensures { out.new ≡ appended limit value out.old }
{
    let mut carry = value as u64;
    for i in (0..out.len()).rev() {
        let t = turn(out[i], limit, carry);
        out[i] = (t % 256) as u8;
        carry = t / 256;
    }
}

// Whether each number is below its limit.
pub fn fits(nums: &[u32], limits: &[u32]) -> bool
    requires { length nums.now ≡ length limits.now }
    ensures { result ≡ below limits.now nums.now }
{
    nums.iter().zip(limits).all(|(n, limit)| n < limit)
}

// The numbers, one behind the other; what the bytes held before goes out at the front.
pub fn put(nums: &[u32], limits: &[u32], out: &mut [u8])
    ensures { out.new ≡ packed_on limits.now nums.now out.old }
{
    for (&n, &limit) in nums.iter().zip(limits) {
        append(out, limit, n);
    }
}
