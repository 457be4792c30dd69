// Little-endian fields and runs of bytes in lent room (document 01, "Action record, 56 bytes, little-endian").
// New here: the Rust has no bytes of its own. Where a run does not fit, `copy_at` answers no and writes nothing; `put_run` is for a caller who knows that it fits.
#![tactic(auto)]

ghost use Rattle.std.specs.Prelude.{◌≡◌, ◌+◌, ◌^◌, ◌≤◌, ◌<◌, length};
ghost use Rattle.octets.specs.LittleEndian.{le, num_at};
ghost use Rattle.octets.specs.Runs.{put_at, fits_at, written, same_bytes};

// The N lowest bytes of n, the least first.
pub fn le<const N: usize>(n: u64) -> [u8; N]
    requires { N ≤ 8 }
    ensures { result ≡ le N n }
{
    let all = n.to_le_bytes();
    let mut bytes = [0; N];
    bytes.copy_from_slice(&all[..N]);
    bytes
}

// The number in the N bytes from index at on, the least first; a byte past the end counts as 0.
pub fn get<const N: usize>(s: &[u8], at: usize) -> u64
    requires { N ≤ 8 }
    ensures value { result ≡ num_at N s.now at }
    ensures upper_bound { result < 256 ^ N }
{
    let rest = s.get(at..).unwrap_or(&[]);
    let mut n: u64 = 0;
    for k in (0..N).rev() {
        n = n * 256 + u64::from(rest.get(k).copied().unwrap_or(0));
    }
    n
}

// Puts the run into the room from index at on, for a caller who knows that it fits.
#[tactic(auto, using(crate::proofs::Runs::copied))]
pub fn put_run(room: &mut [u8], at: usize, run: &[u8])
    requires { at + length run.now ≤ length room.old }
    ensures { room.new ≡ put_at room.old at run.now }
{
    room[at..at + run.len()].copy_from_slice(run);
}

// Puts the run into the room from index at on and answers yes, or, where it does not fit, answers no and leaves the room as it was.
pub fn copy_at(room: &mut [u8], at: usize, run: &[u8]) -> bool
    ensures value { result ≡ fits_at room.old at run.now }
    ensures bytes { room.new ≡ written room.old at run.now }
{
    if room.len() < at || room.len() - at < run.len() {
        return false;
    }
    put_run(room, at, run);
    true
}

// Whether the two runs have the same bytes.
pub fn same_bytes(a: &[u8], b: &[u8]) -> bool
    ensures { result ≡ same_bytes a.now b.now }
{
    a == b
}
