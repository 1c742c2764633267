// The first occurrence of a byte string in time linear in both lengths: the search of Knuth, Morris and Pratt (1977).
// Offsets stay beside the slice, since the contracts speak of places in the whole text.
#![tactic(auto)]

ghost use Rattle.std.specs.Prelude.{◌≡◌, ◌+◌, ◌<◌, ◌≤◌, length};
ghost use Rattle.search.specs.First.{first_at};
ghost use Rattle.kmp.specs.Code.Shift.{Table};

// A longer pattern has no table.
const MOST: usize = 65535;

pub fn find(s: &[u8], p: &[u8], at: usize) -> Option<usize>
    ensures { result ≡ first_at p.now s.now at }
{
    if s.len() < at {
        return None;
    }
    if p.is_empty() {
        return Some(at);
    }
    if MOST < p.len() {
        return search::find(s, p, at);
    }
    // memory is fixed
    let mut shifts = [0u16; 65536];
    fill(p, &mut shifts);
    walk(s, p, &shifts, at)
}

// The shift for each number of bytes from 1 up to the length of p: p walks over itself. The steps vary, so the loop is a `while`.
fn fill(p: &[u8], shifts: &mut [u16; 65536])
    requires { (0 < length p.now) × (length p.now < 65536) × (length shifts.old ≡ 65536) }
    ensures { Table p.now shifts.new (length p.now) }
{
    shifts[1] = 1;
    let mut c: usize = 1;
    let mut j: usize = 0;
    while c + j < p.len() {
        if p[c + j] == p[j] {
            j += 1;
            shifts[c + j] = c as u16;
        } else if j == 0 {
            c += 1;
            shifts[c] = c as u16;
        } else {
            let e = usize::from(shifts[j]);
            c += e;
            j -= e;
        }
    }
}

// At the place c the first j bytes of p stand. Where the next differs, p is shifted to the next place at which it may stand. The steps
// vary, so the loop is a `while`.
fn walk(s: &[u8], p: &[u8], shifts: &[u16; 65536], at: usize) -> Option<usize>
    requires p_nonzero { (0 < length p.now) × (length p.now < 65536) × (at ≤ length s.now) }
    requires table { Table p.now shifts.now (length p.now) }
    ensures { result ≡ first_at p.now s.now at }
{
    let mut c = at;
    let mut j: usize = 0;
    while c + j < s.len() {
        if s[c + j] == p[j] {
            j += 1;
            if j == p.len() {
                return Some(c);
            }
        } else if j == 0 {
            c += 1;
        } else {
            let shift = usize::from(shifts[j]);
            c += shift;
            j -= shift;
        }
    }
    None
}
