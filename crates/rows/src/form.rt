// The forms of a line: how wide its fields are, the zero bits at the end being one of them.
ghost use Rattle.std.specs.Prelude.{◌≡◌, ◌≤◌, cond, ltb, eqb};
ghost use Rattle.rows.specs.Forms.{first_form, own_form, record_form};
ghost use Rattle.rows.specs.Pack.{below, fields_of};

use crate::pack;

// The fields' limits, two to the power of their bits, and how many there are; of these so many are written as numbers; the bytes that they fill.
#[derive(Clone, Copy)]
pub struct Form {
    pub limits: [u32; 13],
    pub count: usize,
    pub numbers: usize,
    pub size: usize,
}

impl Form {
    // Whether the numbers fit the fields.
    pub fn fits(self, nums: [u32; 13]) -> bool
        requires { self.count ≤ 13 }
        ensures { result ≡ below (fields_of self.count self.limits) (fields_of self.count nums) }
    {
        pack::fits(&nums[..self.count], &self.limits[..self.count])
    }
}

// What every version of the header has: bits 4, 14, 10, 8, 1, 20, 27, 9, and 3 that are zero.
pub fn first() -> Form
    ensures { result ≡ first_form }
{
    Form {
        limits: [
            16, 16384, 1024, 256, 2, 1048576, 134217728, 512, 8, 1, 1, 1, 1,
        ],
        count: 9,
        numbers: 8,
        size: 12,
    }
}

// What a version has of its own. Version 2: bits 27, 10, and 27 that are zero.
pub fn own(version: u32) -> Form
    ensures { result ≡ own_form version }
{
    if version == 2 {
        return Form {
            limits: [134217728, 1024, 134217728, 1, 1, 1, 1, 1, 1, 1, 1, 1, 1],
            count: 3,
            numbers: 2,
            size: 8,
        };
    }
    Form {
        limits: [1, 1, 1, 1, 1, 1, 1, 1, 1, 1, 1, 1, 1],
        count: 0,
        numbers: 0,
        size: 0,
    }
}

// A plate: bits 4, 10, 10, 10, 12, 12, 10, 10, 1, 11, 18, and 20 that are zero; a member: bits 4, 10, 10, 12, 10, 12, 7, 7, 7, 8, 17, 14, 10.
pub fn record(kind: u32) -> Form
    ensures { result ≡ record_form kind }
{
    if kind < 5 {
        return Form {
            limits: [
                16, 1024, 1024, 1024, 4096, 4096, 1024, 1024, 2, 2048, 262144, 1048576, 1,
            ],
            count: 12,
            numbers: 11,
            size: 16,
        };
    }
    Form {
        limits: [
            16, 1024, 1024, 4096, 1024, 4096, 128, 128, 128, 256, 131072, 16384, 1024,
        ],
        count: 13,
        numbers: 13,
        size: 16,
    }
}
