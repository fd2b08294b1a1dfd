// The lines, written one behind the other into a lent list.
ghost use Rattle.std.specs.Prelude.{◌≡◌, ◌*◌, ◌≤◌, length, [], ◌∷◌, map};
ghost use Rattle.listing.specs.Numeral.{digits_of, decimal};
ghost use Rattle.listing.specs.Lines.{letter, value_line, strip_line, strip_lines, end_line, more_line, refused_line};
ghost use Rattle.strip.specs.Bytes.{step_of, steps_of};
ghost use Rattle.listing.specs.Writing.{HasRoom, Put, strips_in};

// A list that is lent to be written, and up to which place it is. Each writer writes behind what stands there. (`write!` would do the same,
// but it does not promise that it succeeds, so the bytes would not be fixed.)
#[derive(Drop)]
pub(crate) struct Page<'a> {
    out: &'a mut [u8],
    at: usize,
}

impl<'a> Page<'a> {
    pub(crate) fn new(out: &'a mut [u8]) -> Page<'a>
        ensures page { result.out.ghost_name ≡ out.entry.ghost_name }
        ensures blank { (result.out.now ≡ out.old) × (result.at ≡ 0) }
    {
        Page { out, at: 0 }
    }

    // How many bytes are written.
    pub(crate) fn written(&self) -> usize
        ensures { result ≡ self.now.at }
    {
        self.at
    }

    fn put(&mut self, byte: u8)
        requires { HasRoom (byte ∷ []) self.old }
        ensures { Put (byte ∷ []) self.old self.new }
    {
        self.out[self.at] = byte;
        self.at += 1;
    }

    fn put_text(&mut self, text: &[u8])
        requires { HasRoom text.now self.old }
        ensures { Put text.now self.old self.new }
    {
        let end = self.at + text.len();
        self.out[self.at..end].copy_from_slice(text);
        self.at = end;
    }

    // The digits of `v`. They are found from the last to the first and written the other way round, so a number of ten or more has
    // those of its tenth written first: at most 20 calls deep.
    fn put_digits(&mut self, v: u64)
        requires { HasRoom (digits_of v) self.old }
        ensures { Put (digits_of v) self.old self.new }
    {
        if v < 10 {
            return self.put(b'0' + v as u8);
        }
        self.put_digits(v / 10);
        self.put(b'0' + (v % 10) as u8);
    }

    fn put_whole(&mut self, z: i64)
        requires { HasRoom (decimal z) self.old }
        ensures { Put (decimal z) self.old self.new }
    {
        if z < 0 {
            self.put(b'-');
        }
        self.put_digits(z.unsigned_abs());
    }

    // Value and six times the volume.
    pub(crate) fn put_value(&mut self, value: i64, volume: i64)
        requires { HasRoom (value_line value volume) self.old }
        ensures { Put (value_line value volume) self.old self.new }
    {
        self.put_whole(value);
        self.put(b' ');
        self.put_whole(volume);
        self.put(b'\n');
    }

    // A strip in A and B.
    fn put_strip(&mut self, strip: &[u8])
        requires { HasRoom (strip_line (steps_of strip.now)) self.old }
        ensures { Put (strip_line (steps_of strip.now)) self.old self.new }
    {
        for byte in strip {
            self.put(step_letter(*byte));
        }
        self.put(b'\n');
    }

    // A line for each of `count` strips of `steps` steps, which stand one after the other in `strips`.
    pub(crate) fn put_strips(&mut self, strips: &[u8], count: usize, steps: usize)
        requires { (count * steps ≤ length strips.now)
            × HasRoom (strip_lines (strips_in steps count strips.now)) self.old }
        ensures { Put (strip_lines (strips_in steps count strips.now)) self.old self.new }
    {
        // Not by `chunks_exact`: a strip without steps is a line too.
        let mut rest = strips;
        for k in 0..count {
            let (strip, behind) = rest.split_at(steps);
            self.put_strip(strip);
            rest = behind;
        }
    }

    #[tactic(auto, unfolding(crate::specs::Lines::end_line))]
    pub(crate) fn put_end(&mut self)
        requires { HasRoom end_line self.old }
        ensures { Put end_line self.old self.new }
    {
        self.put_text(b"end\n");
    }

    #[tactic(auto, unfolding(crate::specs::Lines::more_line))]
    pub(crate) fn put_more(&mut self)
        requires { HasRoom more_line self.old }
        ensures { Put more_line self.old self.new }
    {
        self.put_text(b"more\n");
    }

    // The number and the place of a refusal.
    pub(crate) fn put_refused(&mut self, number: u8, place: usize)
        requires { HasRoom (refused_line number place) self.old }
        ensures { Put (refused_line number place) self.old self.new }
    {
        self.put_text(b"refused ");
        self.put_digits(u64::from(number));
        self.put(b' ');
        self.put_digits(place as u64);
        self.put(b'\n');
    }
}

fn step_letter(byte: u8) -> u8
    ensures { result ≡ letter (step_of byte) }
{
    if byte == 0 { b'A' } else { b'B' }
}
