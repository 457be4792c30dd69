// The load as its line gives it. A number over its limit is the limit; a field that is lacking is 0, and a byte that is no digit counts for nothing.
ghost use Rattle.std.specs.Prelude.{◌≤◌};

#[derive(Clone, Copy)]
pub struct Load {
    pub idle: bool,
    pub count: usize,
    pub stride: u32,
    pub turns: u64,
    pub nanoseconds: i32,
    ghost few: { count ≤ 32 },
    ghost near: { stride ≤ 4095 },
    ghost ends: { turns ≤ 100000 },
}

impl Load {
    // The index of the enclave at a place.
    pub fn enclave(self, place: usize) -> u32
        requires { place ≤ 31 }
    {
        self.stride * place as u32
    }

    // The indices of as many enclaves as a load can have.
    pub fn enclaves(self) -> [u32; 32] {
        let mut list = [0; 32];
        for (place, enclave) in list.iter_mut().enumerate() {
            *enclave = self.enclave(place);
        }
        list
    }
}

fn with_digit(number: u64, byte: u8, most: u64) -> u64
    requires { (number ≤ most) × (most ≤ 999999999) }
    ensures { result ≤ most }
{
    match byte {
        b'0'..=b'9' => (number * 10 + u64::from(byte - b'0')).min(most),
        _ => number,
    }
}

fn number(field: Option<&[u8]>, most: u64) -> u64
    requires { most ≤ 999999999 }
    ensures { result ≤ most }
{
    let mut number = 0;
    for byte in field.unwrap_or(&[]) {
        number = with_digit(number, *byte, most);
    }
    number
}

pub fn read_load(line: &[u8]) -> Load {
    let mut fields = line.split(|byte| *byte == b' ');
    Load {
        idle: number(fields.next(), 1) == 1,
        count: number(fields.next(), 32) as usize,
        stride: number(fields.next(), 4095) as u32,
        turns: number(fields.next(), 100000),
        nanoseconds: number(fields.next(), 999999999) as i32,
    }
}
