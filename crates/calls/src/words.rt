// Words of four bytes, lowest byte first: read one after another from the arguments of a call, and put one after another into the output,
// which is written where it is full. A float is its bits, all NaNs one; a `usize` two words, the low one first; a `u8` a word's low byte.
ghost use Rattle.std.specs.Prelude.{◌≡◌, ◌≤◌};

use std::io::Stdout;

// ---- read

// A value that is read as words.
pub trait FromWords {
    fn read(args: &mut Args<'_>) -> Self;
}

// The arguments of a call, and those that are not read yet. Past the end, a word is 0.
#[derive(Clone, Copy)]
pub struct Args<'a> {
    all: &'a [u8],
    rest: &'a [u8],
}

impl<'a> Args<'a> {
    pub fn new(all: &'a [u8]) -> Args<'a> {
        Args { all, rest: all }
    }

    // What is not read yet, as the arguments of a call.
    pub fn begun(self) -> Args<'a> {
        Args::new(self.rest)
    }

    // What comes after so many words.
    pub fn after(self, words: usize) -> Args<'a>
        requires { words ≤ 32_768 }
    {
        Args {
            all: self.all,
            rest: self.all.get(words * 4..).unwrap_or(&[]),
        }
    }

    pub fn read<T: FromWords>(&mut self) -> T {
        T::read(self)
    }

    // The list whose place among all arguments and whose length come next, in as many places as are lent, or fewer.
    pub fn list<'r, T: FromWords + Copy>(&mut self, places: &'r mut [T]) -> &'r mut [T] {
        let place: u32 = self.read();
        let length: u32 = self.read();
        let mut content = Args::new(self.all.get(place as usize * 4..).unwrap_or(&[]));
        let n = places.len().min(length as usize);
        let list = &mut places[..n];
        for x in list.iter_mut() {
            *x = content.read();
        }
        list
    }
}

impl FromWords for u32 {
    fn read(args: &mut Args<'_>) -> u32 {
        let [a, b, c, d, rest @ ..] = args.rest else {
            return 0;
        };
        args.rest = rest;
        u32::from_le_bytes([*a, *b, *c, *d])
    }
}

impl FromWords for u8 {
    fn read(args: &mut Args<'_>) -> u8 {
        let [low, _, _, _] = args.read::<u32>().to_le_bytes();
        low
    }
}

impl FromWords for f32 {
    fn read(args: &mut Args<'_>) -> f32 {
        number::from_bits(args.read())
    }
}

impl FromWords for usize {
    fn read(args: &mut Args<'_>) -> usize {
        let low: u32 = args.read();
        let high: u32 = args.read();
        low as usize + 4_294_967_296 * high as usize
    }
}

// ---- put

// A value that is put as words.
pub trait ToWords {
    fn put(&self, out: &mut Output);
}

// What is not written yet, and where it is written.
#[derive(Drop)]
pub struct Output {
    bytes: [u8; 65_536],
    len: usize,
    ghost in_bytes: { len ≤ 65_536 },
    stdout: Stdout,
}

impl Output {
    pub fn new(stdout: Stdout) -> Output {
        Output {
            bytes: [0; 65_536],
            len: 0,
            stdout,
        }
    }

    pub fn flush(&mut self)
        ensures { self.new.len ≡ 0 }
    {
        let _ = self.stdout.write_all(&self.bytes[..self.len]);
        self.len = 0;
    }

    pub fn put_list<T: ToWords>(&mut self, list: &[T]) {
        for x in list {
            x.put(self);
        }
    }
}

impl ToWords for u32 {
    fn put(&self, out: &mut Output) {
        if 65_532 < out.len {
            out.flush();
        }
        let at = out.len;
        let end = at + 4;
        out.bytes[at..end].copy_from_slice(&self.to_le_bytes());
        out.len = end;
    }
}

impl ToWords for u8 {
    fn put(&self, out: &mut Output) {
        u32::from(*self).put(out);
    }
}

impl ToWords for f32 {
    fn put(&self, out: &mut Output) {
        number::to_bits(*self).put(out);
    }
}

impl ToWords for usize {
    fn put(&self, out: &mut Output) {
        let [a, b, c, d, e, f, g, h] = self.to_le_bytes();
        u32::from_le_bytes([a, b, c, d]).put(out);
        u32::from_le_bytes([e, f, g, h]).put(out);
    }
}
