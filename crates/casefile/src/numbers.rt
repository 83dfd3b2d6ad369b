// Numbers of a case file: unsigned, in groups of seven bits, lowest first; a byte from 128 on says that
// another group follows. At most five groups, the fifth at most 15, and a last group of zero only alone:
// so each `u32` is written in one way.
ghost use Rattle.std.specs.Prelude.{◌≡◌, ◌<◌, drop};
ghost use Rattle.number.specs.Told.{Told};
ghost use Rattle.casefile.specs.Numbers.{decode_number, number_outcome, number_values, later_in, joined};

// What was read, and the place after it.
#[derive(Clone, Copy)]
pub struct Got<T> {
    pub value: T,
    pub next: usize,
}

// Why no number was read.
#[derive(Clone, Copy)]
pub enum NumberError {
    // More than five groups, a fifth above 15, or a last group of zero that is not alone.
    Malformed,
    // The bytes end inside the number.
    Ended,
}

// A number of more than one group, of which the first gives `first` and the second stands at `at`.
fn later(bytes: &[u8], first: u32, at: usize) -> Result<Got<u32>, NumberError>
    requires { first < 128 }
    ensures { result ≡ joined first (later_in 3 (drop at bytes.now) at) }
{
    // what the groups before `next` give, what the group there counts, and how many may follow it
    let mut value = first;
    let mut weight: u32 = 128;
    let mut more: u32 = 3;
    let mut next = at;
    // Stays a `while`: of a `for` over the four groups an end would be left to answer for that no number reaches.
    while next < bytes.len() {
        let group = u32::from(bytes[next]);
        next += 1;
        if group == 0 {
            return Err(NumberError::Malformed);
        }
        if more == 0 {
            if 15 < group {
                return Err(NumberError::Malformed);
            }
            return Ok(Got {
                value: value + weight * group,
                next,
            });
        }
        if group < 128 {
            return Ok(Got {
                value: value + weight * group,
                next,
            });
        }
        value += weight * (group % 128);
        weight *= 128;
        more -= 1;
    }
    Err(NumberError::Ended)
}

// The number that starts at `at`.
pub fn read_number(bytes: &[u8], at: usize) -> Result<Got<u32>, NumberError>
    ensures answer { result ≡ decode_number bytes.now at }
    ensures told { Told number_outcome (number_values bytes.now at) result (decode_number bytes.now at) }
{
    if bytes.len() <= at {
        return Err(NumberError::Ended);
    }
    let group = u32::from(bytes[at]);
    let next = at + 1;
    if group < 128 {
        return Ok(Got { value: group, next });
    }
    later(bytes, group % 128, next)
}
