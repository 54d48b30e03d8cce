// The place of an id among records, by the bytes of all of them.
ghost use Rattle.std.specs.Prelude.{◌≡◌, ◌+◌, ◌*◌, ◌≤◌, length};
ghost use Rattle.checker.specs.Check.{record_part};
ghost use Rattle.edit.specs.Steps.{id_in, place_in, has_in};

fn id_at(records: &[u8], i: u16) -> u32
    requires { 16 * i + 16 ≤ length records.now }
    ensures { result ≡ id_in (record_part records.now i) }
{
    let at = 16 * (i as usize);
    let end = at + 16;
    let raw = record::record_in(&records[at..end]);
    let r = raw.values;
    r.id as u32
}

// How many of the n records come before the first whose id is not below this one.
pub(crate) fn place_of(records: &[u8], n: u16, id: u32) -> u16
    requires { 16 * n ≤ length records.now }
    ensures { (result ≡ place_in records.now n id) × (result ≤ n) }
{
    for i in 0..n {
        if id <= id_at(records, i) {
            return i;
        }
    }
    n
}

// Whether the record at the place of an id has it.
pub(crate) fn has_at(records: &[u8], n: u16, place: u16, id: u32) -> bool
    requires { (16 * n ≤ length records.now) × (place ≡ place_in records.now n id) }
    ensures { result ≡ has_in records.now n id }
{
    if n <= place {
        return false;
    }
    id_at(records, place) == id
}
